// An expression of which some tokens have come.

ghost use Rattle.std.specs.Prelude.{◌≡◌, ◌↔◌, ℕ, List, Some, is_some, option_map, IsOk, IsTrue};
ghost use Rattle.lrc_lang.specs.Parser.Seen.{Gives, GivesNew};
ghost use Rattle.lrc_named_expression.specs.Partial.{Around as AroundSeen, Level as LevelSeen, Tests as TestsSeen};
ghost use Rattle.lrc_named_expression.specs.Partial.{nothing, partial_with, value_of, linked, close, closed, closed_by, go_on};
ghost use Rattle.lrc_named_expression.specs.Link.{sums, all_hold, one_holds};
ghost use Rattle.lrc_named_expression.specs.declared.partial.Place.TheVariants.{Factor};
ghost use Rattle.lrc_named_expression.specs.Partial.{opened, whole_of, bare, no_tests, begin, begin_test, behind_index, behind_name, behind_call, operand_at};
ghost use Rattle.lrc_named_expression.specs.Seen.{link_seen, level_seen, opening_seen, place_seen, partial_seen};
ghost use Rattle.lrc_named_tokens.specs.declared.token.Sign.TheVariants.{OpenBracket, OpenParenthesis};
ghost use Rattle.lrc_named_tokens.specs.Token.{sign};
ghost use Rattle.lrc_named_tokens.specs.View.{token_of};
ghost use Rattle.lrc_named_tree.specs.Tree.{Expression as ExpressionSeen, Expressions, Named};
ghost use Rattle.lrc_named_tree.specs.View.{named_of, expression_of, expressions_of};

use crate::level::{Level, waiting};
use crate::link::{Link, link_of};
use lrc_lang::fault::FaultKind;
use lrc_named_tokens::token::{Keyword, Sign, Token};
use lrc_named_tree::tree::{Expression, Name};
use lrc_program::Operator;
use std::alloc::Global;
use std::mem;

/// What an open bracket belongs to.
#[derive(Drop)]
enum Opening<'t> {
    /// A group: which token its `(` is.
    Group(u32),
    /// A call, with the arguments before the one that the bracket is open around.
    Argument(Name<'t>, Vec<Expression<'t>>),
    /// An element, with the indices before the one that the bracket is open around.
    Index(Name<'t>, Vec<Expression<'t>>),
}

/// An open bracket, and what waits around it.
#[derive(Drop)]
struct Around<'t> {
    opening: Opening<'t>,
    level: Level<'t>,
}

/// Where the last token left the parser.
#[derive(Drop)]
enum Place<'t> {
    /// An operand or a `not` must begin.
    Test,
    /// An operand must begin.
    Factor,
    /// After a name: an index or a call may begin.
    AfterName(Name<'t>),
    /// After an index: another may begin.
    AfterIndex(Name<'t>, Vec<Expression<'t>>, u32),
    /// After a name and the `(` of its call.
    AfterCall(Name<'t>),
    /// After an operand.
    AfterOperand(Expression<'t>),
}

/// An expression in the middle of parsing: the tokens taken so far.
#[derive(Drop)]
pub struct Partial<'t> {
    alloc: Global,
    /// What each open bracket is, outermost first.
    outer: Vec<Around<'t>>,
    level: Level<'t>,
    place: Place<'t>,
}

// The operand that the last token left, if the expression may end behind it.
#[tactic(auto, using(crate::proofs::Trees::row_of_hidden))]
fn operand_of<'t>(alloc: Global, place: Place<'t>) -> Option<Expression<'t>>
    ensures { option_map expression_of result ≡ operand_at (place_seen place.entry) }
{
    match place {
        Place::AfterName(name) => Some(Expression::Element(name, Vec::new(alloc), name.at)),
        Place::AfterIndex(name, others, last) => Some(Expression::Element(name, others, last)),
        Place::AfterOperand(operand) => Some(operand),
        _ => None,
    }
}

// Whether an operand may begin with this token.
fn begins_operand(token: Token<'_>) -> bool
    ensures { (outer : List AroundSeen) (level : LevelSeen) (at : ℕ) → result
        ≡ is_some (begin outer level at (token_of token.entry)) }
{
    matches!(
        token,
        Token::Number(_)
            | Token::Name(_)
            | Token::Keyword(Keyword::Me | Keyword::Nodes)
            | Token::Sign(Sign::OpenParenthesis)
    )
}

// Whether an operand may begin with this token, or a `not` be this.
fn begins_test(token: Token<'_>) -> bool
    ensures { (outer : List AroundSeen) (tests : TestsSeen) (at : ℕ) → result
        ≡ is_some (begin_test outer tests at (token_of token.entry)) }
{
    matches!(
        token,
        Token::Number(_)
            | Token::Name(_)
            | Token::Keyword(Keyword::Me | Keyword::Nodes | Keyword::Not)
            | Token::Sign(Sign::OpenParenthesis)
    )
}

// Whether this token may stand behind the `(` of a call.
fn follows_call(token: Token<'_>) -> bool
    ensures { (outer : List AroundSeen) (level : LevelSeen) (name : Named) (at : ℕ) → result
        ≡ is_some (behind_call outer level name at (token_of token.entry)) }
{
    matches!(
        token,
        Token::Number(_)
            | Token::Name(_)
            | Token::Keyword(Keyword::Me | Keyword::Nodes | Keyword::Not)
            | Token::Sign(Sign::OpenParenthesis | Sign::CloseParenthesis)
    )
}

// Whether this is `[`.
fn is_bracket(token: Token<'_>) -> bool
    ensures { IsTrue result ↔ (token_of token.entry ≡ sign OpenBracket) }
{
    matches!(token, Token::Sign(Sign::OpenBracket))
}

// Whether this is `(`.
fn is_parenthesis(token: Token<'_>) -> bool
    ensures { IsTrue result ↔ (token_of token.entry ≡ sign OpenParenthesis) }
{
    matches!(token, Token::Sign(Sign::OpenParenthesis))
}

impl<'t> Opening<'t> {
    // Whether this token closes the bracket, or begins the next argument in it.
    fn is_closed(&self, token: Token<'_>) -> bool
        ensures { (outer : List AroundSeen) (level : LevelSeen) (inside : ExpressionSeen) (at : ℕ) →
            result ≡ is_some (closed outer level (opening_seen self.now) inside at
            (token_of token.entry)) }
    {
        match token {
            Token::Sign(sign) => self.is_closed_by(sign),
            _ => false,
        }
    }

    // Whether this sign closes the bracket, or begins the next argument in it.
    fn is_closed_by(&self, sign: Sign) -> bool
        ensures { (outer : List AroundSeen) (level : LevelSeen) (inside : ExpressionSeen) (at : ℕ) →
            result ≡ is_some (closed_by sign outer level (opening_seen self.now) inside at) }
    {
        match self {
            Opening::Group(_) => matches!(sign, Sign::CloseParenthesis),
            Opening::Argument(_, _) => matches!(sign, Sign::CloseParenthesis | Sign::Comma),
            Opening::Index(_, _) => matches!(sign, Sign::CloseBracket),
        }
    }
}

impl<'t> Partial<'t> {
    /// Returns an expression before its first token.
    pub fn empty(alloc: Global) -> Self
        ensures { partial_seen result ≡ nothing }
    {
        Partial {
            alloc,
            outer: Vec::new(alloc),
            level: Level::empty(alloc),
            place: Place::Test,
        }
    }

    /// Discards the tokens taken so far.
    pub fn clear(&mut self)
        ensures { partial_seen self.new ≡ nothing }
    {
        *self = Partial::empty(self.alloc);
    }

    /// Returns whether the expression may end here, so that `finish` gives it.
    pub fn is_whole(&self) -> bool
        ensures { result ≡ is_some (value_of (partial_seen self.now)) }
    {
        self.outer.is_empty()
            && matches!(
                self.place,
                Place::AfterName(_) | Place::AfterIndex(_, _, _) | Place::AfterOperand(_)
            )
    }

    /// Returns whether `take` accepts this token.
    pub fn takes(&self, token: Token<'_>) -> bool
        ensures { (at : ℕ) → result
            ≡ is_some (partial_with (partial_seen self.now) at (token_of token.entry)) }
    {
        match &self.place {
            Place::Test => begins_test(token),
            Place::Factor => begins_operand(token),
            Place::AfterName(_) => self.follows_name(token),
            Place::AfterIndex(_, _, _) => self.follows_index(token),
            Place::AfterCall(_) => follows_call(token),
            Place::AfterOperand(_) => self.goes_on(token),
        }
    }

    // Whether this token may stand behind a name.
    fn follows_name(&self, token: Token<'_>) -> bool
        ensures { (name : Named) (at : ℕ) → result
            ≡ is_some (behind_name (partial_seen self.now).outer (level_seen self.now.level) name at
            (token_of token.entry)) }
    {
        is_parenthesis(token) || self.follows_index(token)
    }

    // Whether this token may stand behind an index.
    fn follows_index(&self, token: Token<'_>) -> bool
        ensures { (name : Named) (others : Expressions) (last at : ℕ) → result
            ≡ is_some (behind_index (partial_seen self.now).outer (level_seen self.now.level) name others
            last at (token_of token.entry)) }
    {
        is_bracket(token) || self.goes_on(token)
    }

    // Whether this token may stand behind an operand.
    fn goes_on(&self, token: Token<'_>) -> bool
        ensures { (operand : ExpressionSeen) (at : ℕ) → result
            ≡ is_some (go_on (partial_seen self.now).outer (level_seen self.now.level) operand at
            (token_of token.entry)) }
    {
        match link_of(token) {
            Some(link) => self.is_linked(link),
            None => self.is_closed(token),
        }
    }

    // Whether this may join an operand to the next.
    fn is_linked(&self, link: Link) -> bool
        ensures { (outer : List AroundSeen) (operand : ExpressionSeen) → result
            ≡ is_some (linked (link_seen link) outer (level_seen self.now.level) operand) }
    {
        match link {
            Link::Sums(_) => self.level.compared.is_none(),
            _ => true,
        }
    }

    // Whether this token closes the innermost bracket, or begins the next argument in it.
    fn is_closed(&self, token: Token<'_>) -> bool
        ensures { (inside : ExpressionSeen) (at : ℕ) → result
            ≡ is_some (close (partial_seen self.now).outer inside at (token_of token.entry)) }
    {
        match self.outer.last() {
            Some(around) => around.opening.is_closed(token),
            None => false,
        }
    }

    /// Takes one more token, of this index among those of its text. It fails if the token cannot come here, or if memory
    /// runs out.
    pub fn take(&mut self, at: u32, token: Token<'t>) -> Result<(), FaultKind>
        ensures { GivesNew result (partial_seen self.new)
            (partial_with (partial_seen self.old) at (token_of token.entry)) }
    {
        match mem::replace(&mut self.place, Place::Factor) {
            Place::Test => self.begin_test(at, token),
            Place::Factor => self.begin(at, token),
            Place::AfterName(name) => self.behind_name(name, at, token),
            Place::AfterIndex(name, others, last) => {
                self.behind_index(name, others, last, at, token)
            }
            Place::AfterCall(name) => self.behind_call(name, at, token),
            Place::AfterOperand(operand) => self.go_on(operand, at, token),
        }
    }

    // The last token has led here.
    fn go_to(&mut self, place: Place<'t>)
        ensures alloc { self.new.alloc ≡ self.old.alloc }
        ensures outer { self.new.outer ≡ self.old.outer }
        ensures level { self.new.level ≡ self.old.level }
        ensures place { self.new.place ≡ place.entry }
    {
        self.place = place;
    }

    // Where an operand or a `not` has to begin.
    fn begin_test(&mut self, at: u32, token: Token<'t>) -> Result<(), FaultKind>
        ensures { GivesNew result (partial_seen self.new)
            (begin_test (partial_seen self.old).outer (level_seen self.old.level).tests at
            (token_of token.entry)) }
    {
        self.level.clear();
        match token {
            Token::Keyword(Keyword::Not) => {
                self.level.tests.negations.push(at)?;
                self.go_to(Place::Test);
                Ok(())
            }
            _ => self.begin(at, token),
        }
    }

    // Where an operand has to begin.
    fn begin(&mut self, at: u32, token: Token<'t>) -> Result<(), FaultKind>
        ensures { GivesNew result (partial_seen self.new)
            (begin (partial_seen self.old).outer (level_seen self.old.level) at
            (token_of token.entry)) }
    {
        match token {
            Token::Number(value) => {
                self.go_to(Place::AfterOperand(Expression::Number(at, value)));
            }
            Token::Name(bytes) => self.go_to(Place::AfterName(Name { at, bytes })),
            Token::Keyword(Keyword::Me) => self.go_to(Place::AfterOperand(Expression::Me(at))),
            Token::Keyword(Keyword::Nodes) => {
                self.go_to(Place::AfterOperand(Expression::Nodes(at)));
            }
            Token::Sign(Sign::OpenParenthesis) => self.open(Opening::Group(at))?,
            _ => return Err(FaultKind::Unexpected),
        }
        Ok(())
    }

    // A bracket begins.
    fn open(&mut self, opening: Opening<'t>) -> Result<(), FaultKind>
        ensures { GivesNew result (partial_seen self.new)
            (Some (opened (partial_seen self.old).outer (level_seen self.old.level)
            (opening_seen opening.entry))) }
    {
        let level = mem::replace(&mut self.level, Level::empty(self.alloc));
        self.outer.push(Around { opening, level })?;
        self.go_to(Place::Test);
        Ok(())
    }

    // Behind a name.
    #[tactic(auto, using(crate::proofs::Trees::row_of_hidden, crate::proofs::Trees::expressions_push))]
    fn behind_name(&mut self, name: Name<'t>, at: u32, token: Token<'t>) -> Result<(), FaultKind>
        ensures { GivesNew result (partial_seen self.new)
            (behind_name (partial_seen self.old).outer (level_seen self.old.level)
            (named_of name.entry) at (token_of token.entry)) }
    {
        match token {
            Token::Sign(Sign::OpenParenthesis) => {
                self.go_to(Place::AfterCall(name));
                Ok(())
            }
            _ => self.behind_index(name, Vec::new(self.alloc), name.at, at, token),
        }
    }

    // Behind an index.
    #[tactic(auto, using(crate::proofs::Trees::row_of_hidden, crate::proofs::Trees::expressions_push))]
    fn behind_index(
        &mut self,
        name: Name<'t>,
        others: Vec<Expression<'t>>,
        last: u32,
        at: u32,
        token: Token<'t>,
    ) -> Result<(), FaultKind>
        ensures { GivesNew result (partial_seen self.new)
            (behind_index (partial_seen self.old).outer (level_seen self.old.level)
            (named_of name.entry) (expressions_of others.entry.items) last at (token_of token.entry)) }
    {
        match token {
            Token::Sign(Sign::OpenBracket) => self.open(Opening::Index(name, others)),
            _ => self.go_on(Expression::Element(name, others, last), at, token),
        }
    }

    // Behind the `(` of a call.
    #[tactic(auto, using(crate::proofs::Trees::row_of_hidden, crate::proofs::Trees::expressions_push))]
    fn behind_call(&mut self, name: Name<'t>, at: u32, token: Token<'t>) -> Result<(), FaultKind>
        ensures { GivesNew result (partial_seen self.new)
            (behind_call (partial_seen self.old).outer (level_seen self.old.level)
            (named_of name.entry) at (token_of token.entry)) }
    {
        match token {
            Token::Sign(Sign::CloseParenthesis) => {
                let call = Expression::Call(name, Vec::new(self.alloc), at);
                self.go_to(Place::AfterOperand(call));
                Ok(())
            }
            _ => {
                self.open(Opening::Argument(name, Vec::new(self.alloc)))?;
                self.begin_test(at, token)
            }
        }
    }

    // Behind an operand.
    fn go_on(&mut self, operand: Expression<'t>, at: u32, token: Token<'t>) -> Result<(), FaultKind>
        ensures { GivesNew result (partial_seen self.new)
            (go_on (partial_seen self.old).outer (level_seen self.old.level)
            (expression_of operand.entry) at (token_of token.entry)) }
    {
        match link_of(token) {
            Some(link) => self.link(link, operand),
            None => self.close(operand, at, token),
        }
    }

    // Behind an operand and what joins it to the next.
    fn link(&mut self, link: Link, operand: Expression<'t>) -> Result<(), FaultKind>
        ensures { GivesNew result (partial_seen self.new)
            (linked (link_seen link) (partial_seen self.old).outer (level_seen self.old.level)
            (expression_of operand.entry)) }
    {
        self.go_to(Place::Factor);
        match link {
            Link::Factors(operator) => {
                let term = self.level.term(self.alloc, operand)?;
                self.level.multiplied = waiting(term, operator);
            }
            Link::Terms(operator) => {
                let sum = self.level.sum(self.alloc, operand)?;
                self.level.added = waiting(sum, operator);
            }
            Link::Sums(operator) => self.compare(operator, operand)?,
            Link::AllHold => self.all_hold(operand)?,
            Link::OneHolds => self.one_holds(operand)?,
        }
        Ok(())
    }

    // Behind an operand that ends a sum which is compared.
    fn compare(&mut self, operator: Operator, operand: Expression<'t>) -> Result<(), FaultKind>
        requires { self.old.place ≡ Factor }
        ensures { GivesNew result (partial_seen self.new)
            (linked (sums operator) (partial_seen self.old).outer (level_seen self.old.level)
            (expression_of operand.entry)) }
    {
        if self.level.compared.is_some() {
            return Err(FaultKind::Unexpected);
        }
        let sum = self.level.sum(self.alloc, operand)?;
        self.level.compared = waiting(sum, operator);
        Ok(())
    }

    // Behind an operand and `and`.
    fn all_hold(&mut self, operand: Expression<'t>) -> Result<(), FaultKind>
        ensures { GivesNew result (partial_seen self.new)
            (linked all_hold (partial_seen self.old).outer (level_seen self.old.level)
            (expression_of operand.entry)) }
    {
        let level = mem::replace(&mut self.level, Level::empty(self.alloc));
        let tests = level.all_hold(self.alloc, operand)?;
        self.level.tests = tests;
        self.go_to(Place::Test);
        Ok(())
    }

    // Behind an operand and `or`.
    fn one_holds(&mut self, operand: Expression<'t>) -> Result<(), FaultKind>
        ensures { GivesNew result (partial_seen self.new)
            (linked one_holds (partial_seen self.old).outer (level_seen self.old.level)
            (expression_of operand.entry)) }
    {
        let level = mem::replace(&mut self.level, Level::empty(self.alloc));
        let whole = level.whole(self.alloc, operand)?;
        self.level.tests.either = Some(whole);
        self.go_to(Place::Test);
        Ok(())
    }

    // Behind an operand and a token that joins it to none.
    fn close(&mut self, operand: Expression<'t>, at: u32, token: Token<'t>) -> Result<(), FaultKind>
        ensures { GivesNew result (partial_seen self.new)
            (close (partial_seen self.old).outer
            (whole_of (level_seen self.old.level) (expression_of operand.entry)) at
            (token_of token.entry)) }
    {
        let Some(Around { opening, level }) = self.outer.pop() else {
            return Err(FaultKind::Unexpected);
        };
        let inside = mem::replace(&mut self.level, level);
        let inside = inside.whole(self.alloc, operand)?;
        match token {
            Token::Sign(sign) => self.closed(opening, inside, at, sign),
            _ => Err(FaultKind::Unexpected),
        }
    }

    // Behind what stands in a bracket and a sign: the bracket is closed, or the next argument begins.
    #[tactic(auto, using(crate::proofs::Trees::row_of_hidden, crate::proofs::Trees::expressions_push))]
    fn closed(
        &mut self,
        opening: Opening<'t>,
        inside: Expression<'t>,
        at: u32,
        mark: Sign,
    ) -> Result<(), FaultKind>
        ensures { GivesNew result (partial_seen self.new)
            (closed_by mark (partial_seen self.old).outer (level_seen self.old.level)
            (opening_seen opening.entry) (expression_of inside.entry) at) }
    {
        match (opening, mark) {
            (Opening::Group(opens), Sign::CloseParenthesis) => {
                let inside = Box::new(self.alloc, inside)?;
                self.go_to(Place::AfterOperand(Expression::Group(opens, inside, at)));
            }
            (Opening::Argument(name, mut others), Sign::CloseParenthesis) => {
                others.push(inside)?;
                self.go_to(Place::AfterOperand(Expression::Call(name, others, at)));
            }
            (Opening::Argument(name, mut others), Sign::Comma) => {
                others.push(inside)?;
                self.open(Opening::Argument(name, others))?;
            }
            (Opening::Index(name, mut others), Sign::CloseBracket) => {
                others.push(inside)?;
                self.go_to(Place::AfterIndex(name, others, at));
            }
            _ => return Err(FaultKind::Unexpected),
        }
        Ok(())
    }

    /// Returns the whole expression, and leaves an empty one. It fails if the expression cannot end here, or if memory
    /// runs out.
    pub fn finish(&mut self) -> Result<Expression<'t>, FaultKind>
        ensures value { Gives expression_of result (value_of (partial_seen self.old)) }
        ensures empty { IsOk result → partial_seen self.new ≡ nothing }
    {
        if !self.outer.is_empty() {
            return Err(FaultKind::Unexpected);
        }
        match operand_of(self.alloc, mem::replace(&mut self.place, Place::Test)) {
            Some(operand) => self.end(operand),
            None => Err(FaultKind::Unexpected),
        }
    }

    // The whole expression that an operand ends.
    fn end(&mut self, operand: Expression<'t>) -> Result<Expression<'t>, FaultKind>
        ensures value { Gives expression_of result
            (Some (whole_of (level_seen self.old.level) (expression_of operand.entry))) }
        ensures level { level_seen self.new.level ≡ bare no_tests }
        ensures outer { self.new.outer ≡ self.old.outer }
        ensures place { self.new.place ≡ self.old.place }
    {
        let level = mem::replace(&mut self.level, Level::empty(self.alloc));
        Ok(level.whole(self.alloc, operand)?)
    }
}
