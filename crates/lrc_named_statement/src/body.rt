// Statements of which some tokens have come.

ghost use Rattle.std.specs.Prelude.{◌≡◌, ◌↔◌, ◌&&◌, ℕ, List, IsTrue, is_some, option_map};
ghost use Rattle.lrc_lang.specs.Parser.Seen.{GivesNew};
ghost use Rattle.lrc_named_expression.specs.Partial.{nothing, partial_with, push, value_of};
ghost use Rattle.lrc_named_expression.specs.Seen.{partial_seen};
ghost use Rattle.lrc_named_statement.specs.Body.{Around as AroundSeen, Branch as BranchSeen, Target as TargetSeen};
ghost use Rattle.lrc_named_statement.specs.Body.{start, holding, body_with, whole_of, whole_if, in_expression};
ghost use Rattle.lrc_named_statement.specs.Body.{begin, behind_word, behind_place, printed_with, end_place_by, is_ending, ended, go_on};
ghost use Rattle.lrc_named_statement.specs.Body.{end_place, done, opened, express, close, close_for, at_end, behind_for, behind_name};
ghost use Rattle.lrc_named_statement.specs.Body.{behind_branch, behind_else, continued};
ghost use Rattle.lrc_named_statement.specs.Seen.{Steps, target_seen, branch_seen, purpose_seen, outer_seen, owner_seen, body_seen};
ghost use Rattle.lrc_named_tokens.specs.declared.token.Keyword.TheVariants.{Else};
ghost use Rattle.lrc_named_tokens.specs.declared.token.Sign.TheVariants.{OpenBracket};
ghost use Rattle.lrc_named_tokens.specs.Token.{keyword, sign};
ghost use Rattle.lrc_named_tokens.specs.View.{token_of};
ghost use Rattle.lrc_named_tree.specs.Tree.{Block, Expressions, Named, Place as PlaceSeen, Statement as StatementSeen};
ghost use Rattle.lrc_named_tree.specs.View.{named_of, place_of, expression_of, expressions_of, statement_of, block_of};

use lrc_lang::fault::FaultKind;
use lrc_named_expression::partial::Partial;
use lrc_named_tokens::token::{Keyword, Sign, Token};
use lrc_named_tree::tree::{Arm, Expression, Name, Place, Statement, Update};
use std::alloc::Global;
use std::mem;

/// What a place stands for at the beginning of a statement.
#[derive(Clone, Copy)]
enum Target {
    /// What is set.
    Assigned,
    /// The lock to acquire: which token the `acquire` is.
    Acquired(u32),
    /// The lock to release: which token the `release` is.
    Released(u32),
    /// The lock that is held in a block: which token the `with` is.
    Guarding(u32),
}

/// An `if` whose first block has come.
#[derive(Drop)]
struct Branch<'t> {
    /// Which token the `if` is.
    first: u32,
    condition: Expression<'t>,
    then: Vec<Statement<'t>>,
    /// Each `else if` that has come.
    arms: Vec<Arm<'t>>,
}

/// What a statement uses an expression for. A first number is which token the statement begins with.
#[derive(Drop)]
enum Purpose<'t> {
    /// An index of a place, behind these.
    Index(Target, Name<'t>, Vec<Expression<'t>>),
    /// The value that a place is set by.
    Given(Place<'t>, Update),
    /// A value that is printed, behind these.
    Printed(u32, Vec<Expression<'t>>),
    Asserted(u32),
    IfCondition(u32),
    /// The condition of an `else if`: what has come before it, and which token its `if` is.
    ArmCondition(Branch<'t>, u32),
    WhileCondition(u32),
    /// The first value of a `for`.
    ForFirst(u32, Name<'t>),
    /// The end of a `for`, behind its first value.
    ForEnd(u32, Name<'t>, Expression<'t>),
}

/// Where the last token left the parser.
#[derive(Drop)]
enum Spot<'t> {
    /// A statement may begin, and a block may end.
    AtStatement,
    /// Before the name of a place.
    BeforePlace(Target),
    /// After a place: an index may begin.
    AfterPlace(Target, Name<'t>, Vec<Expression<'t>>),
    /// In an expression.
    InExpression(Purpose<'t>),
    /// Before the `;` that ends this statement.
    BeforeEnd(Statement<'t>),
    /// Before the name of a `for`.
    BeforeName(u32),
    /// Before the `in` of a `for`.
    BeforeIn(u32, Name<'t>),
    /// After a block of an `if`: `else` may come, or whatever may come at a statement.
    AfterBranch(Branch<'t>),
    /// After that `else`.
    AfterElse(Branch<'t>),
}

/// What an open block belongs to. A first number is which token the statement begins with.
#[derive(Drop)]
enum Owner<'t> {
    /// An `if` with this condition.
    Then(u32, Expression<'t>),
    /// An `else if`: what has come before it, which token its `if` is, and its condition.
    Arm(Branch<'t>, u32, Expression<'t>),
    /// The last `else`.
    Else(Branch<'t>),
    /// A `with` that holds this lock.
    Guarded(u32, Place<'t>),
    /// A `while` with this condition.
    While(u32, Expression<'t>),
    /// A `for` with this name, first value and end.
    For(u32, Name<'t>, Expression<'t>, Expression<'t>),
}

/// What surrounds an open block: its owner, and the statements before the one that the block belongs to.
#[derive(Drop)]
struct Around<'t> {
    before: Vec<Statement<'t>>,
    owner: Owner<'t>,
}

/// A statement list in the middle of parsing: the tokens taken so far.
#[derive(Drop)]
pub struct Body<'t> {
    alloc: Global,
    /// What surrounds each open block, outermost first.
    outer: Vec<Around<'t>>,
    /// The statements of the innermost open block, or of the text if no block is open.
    before: Vec<Statement<'t>>,
    spot: Spot<'t>,
    /// The expression being parsed, if the spot is in one.
    expression: Partial<'t>,
}

impl<'t> Purpose<'t> {
    // Whether a token ends an expression that stands for this.
    fn is_ended_by(&self, token: Token<'_>) -> bool
        ensures { result ≡ is_ending (purpose_seen self.now) (token_of token.entry) }
    {
        match token {
            Token::Sign(Sign::Semicolon) => matches!(
                self,
                Purpose::Given(_, _) | Purpose::Printed(_, _) | Purpose::Asserted(_)
            ),
            Token::Sign(Sign::Comma) => matches!(self, Purpose::Printed(_, _)),
            Token::Sign(Sign::CloseBracket) => matches!(self, Purpose::Index(_, _, _)),
            Token::Sign(Sign::Range) => matches!(self, Purpose::ForFirst(_, _)),
            Token::Sign(Sign::OpenBrace) => matches!(
                self,
                Purpose::IfCondition(_)
                    | Purpose::ArmCondition(_, _)
                    | Purpose::WhileCondition(_)
                    | Purpose::ForEnd(_, _, _)
            ),
            _ => false,
        }
    }
}

impl Target {
    // Whether this token may stand behind a place that is this.
    fn is_followed_by(self, token: Token<'_>) -> bool
        ensures { (outer : List AroundSeen) (before : Block) (name : Named) (indices : Expressions) →
            result ≡ is_some (behind_place outer before (target_seen self) name indices
            (token_of token.entry)) }
    {
        is_bracket(token) || self.is_ended(token)
    }

    // Whether this token ends a place that is this.
    fn is_ended(self, token: Token<'_>) -> bool
        ensures { (outer : List AroundSeen) (before : Block) (place : PlaceSeen) → result
            ≡ is_some (end_place outer before (target_seen self) place (token_of token.entry)) }
    {
        match token {
            Token::Sign(sign) => self.is_ended_by(sign),
            _ => false,
        }
    }

    // Whether this sign ends a place that is this.
    fn is_ended_by(self, sign: Sign) -> bool
        ensures { (outer : List AroundSeen) (before : Block) (place : PlaceSeen) → result
            ≡ is_some (end_place_by sign outer before (target_seen self) place) }
    {
        match self {
            Target::Assigned => matches!(
                sign,
                Sign::Assign | Sign::AddAssign | Sign::SubtractAssign
            ),
            Target::Acquired(_) | Target::Released(_) => matches!(sign, Sign::Semicolon),
            Target::Guarding(_) => matches!(sign, Sign::OpenBrace),
        }
    }
}

// Whether this is a name.
fn is_name(token: Token<'_>) -> bool
    ensures place { (outer : List AroundSeen) (before : Block) (target : TargetSeen) (at : ℕ) →
        result ≡ is_some (behind_word outer before target at (token_of token.entry)) }
    ensures own { (outer : List AroundSeen) (before : Block) (first at : ℕ) →
        result ≡ is_some (behind_for outer before first at (token_of token.entry)) }
{
    matches!(token, Token::Name(_))
}

// Whether this is `[`.
fn is_bracket(token: Token<'_>) -> bool
    ensures { IsTrue result ↔ (token_of token.entry ≡ sign OpenBracket) }
{
    matches!(token, Token::Sign(Sign::OpenBracket))
}

// Whether this is `else`.
fn is_else(token: Token<'_>) -> bool
    ensures { IsTrue result ↔ (token_of token.entry ≡ keyword Else) }
{
    matches!(token, Token::Keyword(Keyword::Else))
}

// Whether this is `;`.
fn is_end(token: Token<'_>) -> bool
    ensures { (outer : List AroundSeen) (before : Block) (statement : StatementSeen) → result
        ≡ is_some (at_end outer before statement (token_of token.entry)) }
{
    matches!(token, Token::Sign(Sign::Semicolon))
}

// Whether this is `in`.
fn is_in(token: Token<'_>) -> bool
    ensures { (outer : List AroundSeen) (before : Block) (first : ℕ) (name : Named) → result
        ≡ is_some (behind_name outer before first name (token_of token.entry)) }
{
    matches!(token, Token::Keyword(Keyword::In))
}

// Whether this token may stand behind `else`.
fn follows_else(token: Token<'_>) -> bool
    ensures { (outer : List AroundSeen) (before : Block) (branch : BranchSeen) (at : ℕ) → result
        ≡ is_some (behind_else outer before branch at (token_of token.entry)) }
{
    matches!(
        token,
        Token::Sign(Sign::OpenBrace) | Token::Keyword(Keyword::If)
    )
}

impl<'t> Body<'t> {
    /// Returns a statement list before its first token.
    pub fn start(alloc: Global) -> Self
        ensures { body_seen result ≡ start }
    {
        Body {
            alloc,
            outer: Vec::new(alloc),
            before: Vec::new(alloc),
            spot: Spot::AtStatement,
            expression: Partial::empty(alloc),
        }
    }

    /// Returns whether `take` accepts this token.
    pub fn takes(&self, token: Token<'_>) -> bool
        ensures { (at : ℕ) → result
            ≡ is_some (body_with (body_seen self.now) at (token_of token.entry)) }
    {
        match &self.spot {
            Spot::AtStatement => self.begins(token),
            Spot::BeforePlace(_) => is_name(token),
            Spot::AfterPlace(target, _, _) => target.is_followed_by(token),
            Spot::InExpression(purpose) => self.goes_on(purpose, token),
            Spot::BeforeEnd(_) => is_end(token),
            Spot::BeforeName(_) => is_name(token),
            Spot::BeforeIn(_, _) => is_in(token),
            Spot::AfterBranch(_) => self.follows_branch(token),
            Spot::AfterElse(_) => follows_else(token),
        }
    }

    /// Returns whether the statements may end here, so that `finish` succeeds.
    pub fn is_whole(&self) -> bool
        ensures { result ≡ is_some (whole_of (body_seen self.now)) }
    {
        self.outer.is_empty() && matches!(self.spot, Spot::AtStatement | Spot::AfterBranch(_))
    }

    // Whether a statement may begin with this, or the innermost block end with it.
    fn begins(&self, token: Token<'_>) -> bool
        ensures { (before : Block) (at : ℕ) → result
            ≡ is_some (begin (outer_seen self.now) before at (token_of token.entry)) }
    {
        match token {
            Token::Name(_)
            | Token::Keyword(
                Keyword::Acquire
                | Keyword::Release
                | Keyword::With
                | Keyword::Barrier
                | Keyword::Print
                | Keyword::Assert
                | Keyword::If
                | Keyword::While
                | Keyword::For,
            ) => true,
            Token::Sign(Sign::CloseBrace) => self.closes(),
            _ => false,
        }
    }

    // Whether a block may end.
    fn closes(&self) -> bool
        ensures { (inside : Block) (at : ℕ) → result
            ≡ is_some (close (outer_seen self.now) inside at) }
    {
        !self.outer.is_empty()
    }

    // Whether this token may stand behind a block of an `if`.
    fn follows_branch(&self, token: Token<'_>) -> bool
        ensures { (before : Block) (branch : BranchSeen) (at : ℕ) → result
            ≡ is_some (behind_branch (outer_seen self.now) before branch at (token_of token.entry)) }
    {
        is_else(token) || self.begins(token)
    }

    // Whether this token may stand in an expression, or end it.
    fn goes_on(&self, purpose: &Purpose<'t>, token: Token<'_>) -> bool
        ensures { (outer : List AroundSeen) (before : Block) (at : ℕ) → result ≡ is_some
            (go_on outer before (purpose_seen purpose.now) (partial_seen self.now.expression) at
            (token_of token.entry)) }
    {
        self.ends(purpose, token) || self.expression.takes(token)
    }

    // Whether this token ends the expression.
    fn ends(&self, purpose: &Purpose<'t>, token: Token<'_>) -> bool
        ensures { result ≡ (is_some (value_of (partial_seen self.now.expression))
            && is_ending (purpose_seen purpose.now) (token_of token.entry)) }
    {
        self.expression.is_whole() && purpose.is_ended_by(token)
    }

    /// Takes one more token, of this index among those of its text. It fails if the token cannot come here, or if memory
    /// runs out.
    pub fn take(&mut self, at: u32, token: Token<'t>) -> Result<(), FaultKind>
        ensures { GivesNew result (body_seen self.new)
            (body_with (body_seen self.old) at (token_of token.entry)) }
    {
        match mem::replace(&mut self.spot, Spot::AtStatement) {
            Spot::AtStatement => self.begin(at, token),
            Spot::BeforePlace(target) => self.behind_word(target, at, token),
            Spot::AfterPlace(target, name, indices) => {
                self.behind_place(target, name, indices, token)
            }
            Spot::InExpression(purpose) => self.go_on(purpose, at, token),
            Spot::BeforeEnd(statement) => self.at_end(statement, token),
            Spot::BeforeName(first) => self.behind_for(first, at, token),
            Spot::BeforeIn(first, name) => self.behind_name(first, name, token),
            Spot::AfterBranch(branch) => self.behind_branch(branch, at, token),
            Spot::AfterElse(branch) => self.behind_else(branch, at, token),
        }
    }

    /// Ends the statements. It fails if they cannot end here, or if memory runs out.
    pub fn finish(&mut self) -> Result<(), FaultKind>
        ensures { GivesNew result (body_seen self.new)
            (option_map holding (whole_of (body_seen self.old))) }
    {
        if !self.outer.is_empty() {
            return Err(FaultKind::Unexpected);
        }
        match mem::replace(&mut self.spot, Spot::AtStatement) {
            Spot::AtStatement => Ok(()),
            Spot::AfterBranch(branch) => self.done_if(branch),
            _ => Err(FaultKind::Unexpected),
        }
    }

    /// Takes out the statements parsed so far outside every open block, and leaves none.
    pub fn take_statements(&mut self) -> Vec<Statement<'t>>
        ensures { block_of result.items ≡ (body_seen self.old).before }
    {
        mem::replace(&mut self.before, Vec::new(self.alloc))
    }

    // The last token has led here.
    fn go_to(&mut self, spot: Spot<'t>)
        ensures outer { self.new.outer ≡ self.old.outer }
        ensures before { self.new.before ≡ self.old.before }
        ensures expression { self.new.expression ≡ self.old.expression }
        ensures spot { self.new.spot ≡ spot.entry }
    {
        self.spot = spot;
    }

    // Where a statement may begin and a block may end.
    fn begin(&mut self, at: u32, token: Token<'t>) -> Result<(), FaultKind>
        ensures { Steps result self.old self.new
            (λ outer before. begin outer before at (token_of token.entry)) }
    {
        match token {
            Token::Name(bytes) => {
                let name = Name { at, bytes };
                self.go_to(Spot::AfterPlace(Target::Assigned, name, Vec::new(self.alloc)));
                Ok(())
            }
            Token::Keyword(keyword) => self.begin_word(at, keyword),
            Token::Sign(Sign::CloseBrace) => self.close(at),
            _ => Err(FaultKind::Unexpected),
        }
    }

    // Where a statement may begin, with a keyword.
    fn begin_word(&mut self, at: u32, word: Keyword) -> Result<(), FaultKind>
        ensures { Steps result self.old self.new
            (λ outer before. begin outer before at (keyword word)) }
    {
        match word {
            Keyword::Acquire => self.go_to(Spot::BeforePlace(Target::Acquired(at))),
            Keyword::Release => self.go_to(Spot::BeforePlace(Target::Released(at))),
            Keyword::With => self.go_to(Spot::BeforePlace(Target::Guarding(at))),
            Keyword::Barrier => self.go_to(Spot::BeforeEnd(Statement::Barrier(at))),
            Keyword::Print => self.express(Purpose::Printed(at, Vec::new(self.alloc))),
            Keyword::Assert => self.express(Purpose::Asserted(at)),
            Keyword::If => self.express(Purpose::IfCondition(at)),
            Keyword::While => self.express(Purpose::WhileCondition(at)),
            Keyword::For => self.go_to(Spot::BeforeName(at)),
            _ => return Err(FaultKind::Unexpected),
        }
        Ok(())
    }

    // An expression begins.
    fn express(&mut self, purpose: Purpose<'t>)
        ensures outer { self.new.outer ≡ self.old.outer }
        ensures before { self.new.before ≡ self.old.before }
        ensures spot { (body_seen self.new).spot ≡ in_expression (purpose_seen purpose.entry) nothing }
    {
        self.expression.clear();
        self.go_to(Spot::InExpression(purpose));
    }

    // Behind the word before a place.
    fn behind_word(&mut self, target: Target, at: u32, token: Token<'t>) -> Result<(), FaultKind>
        ensures { Steps result self.old self.new
            (λ outer before. behind_word outer before (target_seen target) at
            (token_of token.entry)) }
    {
        match token {
            Token::Name(bytes) => {
                let name = Name { at, bytes };
                self.go_to(Spot::AfterPlace(target, name, Vec::new(self.alloc)));
                Ok(())
            }
            _ => Err(FaultKind::Unexpected),
        }
    }

    // Behind a place.
    fn behind_place(
        &mut self,
        target: Target,
        name: Name<'t>,
        indices: Vec<Expression<'t>>,
        token: Token<'t>,
    ) -> Result<(), FaultKind>
        ensures { Steps result self.old self.new
            (λ outer before. behind_place outer before (target_seen target) (named_of name.entry)
            (expressions_of indices.entry.items) (token_of token.entry)) }
    {
        match token {
            Token::Sign(Sign::OpenBracket) => {
                self.express(Purpose::Index(target, name, indices));
                Ok(())
            }
            Token::Sign(mark) => self.end_place(target, Place { name, indices }, mark),
            _ => Err(FaultKind::Unexpected),
        }
    }

    // Behind a place without further indices.
    fn end_place(&mut self, target: Target, place: Place<'t>, mark: Sign) -> Result<(), FaultKind>
        ensures { Steps result self.old self.new
            (λ outer before. end_place_by mark outer before (target_seen target)
            (place_of place.entry)) }
    {
        match (target, mark) {
            (Target::Assigned, Sign::Assign) => {
                self.express(Purpose::Given(place, Update::Set));
                Ok(())
            }
            (Target::Assigned, Sign::AddAssign) => {
                self.express(Purpose::Given(place, Update::Add));
                Ok(())
            }
            (Target::Assigned, Sign::SubtractAssign) => {
                self.express(Purpose::Given(place, Update::Subtract));
                Ok(())
            }
            (Target::Acquired(first), Sign::Semicolon) => {
                self.done(Statement::Acquire(first, place))
            }
            (Target::Released(first), Sign::Semicolon) => {
                self.done(Statement::Release(first, place))
            }
            (Target::Guarding(first), Sign::OpenBrace) => {
                self.open(Owner::Guarded(first, place))
            }
            _ => Err(FaultKind::Unexpected),
        }
    }

    // In front of the `;` that ends a statement.
    fn at_end(&mut self, statement: Statement<'t>, token: Token<'t>) -> Result<(), FaultKind>
        ensures { Steps result self.old self.new
            (λ outer before. at_end outer before (statement_of statement.entry)
            (token_of token.entry)) }
    {
        match token {
            Token::Sign(Sign::Semicolon) => self.done(statement),
            _ => Err(FaultKind::Unexpected),
        }
    }

    // Behind `for`.
    fn behind_for(&mut self, first: u32, at: u32, token: Token<'t>) -> Result<(), FaultKind>
        ensures { Steps result self.old self.new
            (λ outer before. behind_for outer before first at (token_of token.entry)) }
    {
        match token {
            Token::Name(bytes) => {
                self.go_to(Spot::BeforeIn(first, Name { at, bytes }));
                Ok(())
            }
            _ => Err(FaultKind::Unexpected),
        }
    }

    // Behind the name of a `for`.
    fn behind_name(&mut self, first: u32, name: Name<'t>, token: Token<'t>) -> Result<(), FaultKind>
        ensures { Steps result self.old self.new
            (λ outer before. behind_name outer before first (named_of name.entry)
            (token_of token.entry)) }
    {
        match token {
            Token::Keyword(Keyword::In) => {
                self.express(Purpose::ForFirst(first, name));
                Ok(())
            }
            _ => Err(FaultKind::Unexpected),
        }
    }

    // In an expression.
    fn go_on(&mut self, purpose: Purpose<'t>, at: u32, token: Token<'t>) -> Result<(), FaultKind>
        ensures { Steps result self.old self.new
            (λ outer before. go_on outer before (purpose_seen purpose.entry)
            (partial_seen self.old.expression) at (token_of token.entry)) }
    {
        if self.expression.is_whole() && purpose.is_ended_by(token) {
            let value = self.expression.finish()?;
            return self.end(purpose, value, token);
        }
        self.extend(purpose, at, token)
    }

    // In an expression that does not end here.
    fn extend(&mut self, purpose: Purpose<'t>, at: u32, token: Token<'t>) -> Result<(), FaultKind>
        ensures { Steps result self.old self.new
            (λ outer before. continued outer before (purpose_seen purpose.entry)
            (partial_with (partial_seen self.old.expression) at (token_of token.entry))) }
    {
        self.expression.take(at, token)?;
        self.go_to(Spot::InExpression(purpose));
        Ok(())
    }

    // Behind the end of an expression, with the token that ends it.
    #[tactic(auto, using(lrc_named_expression::proofs::Trees::expressions_push))]
    fn end(
        &mut self,
        purpose: Purpose<'t>,
        value: Expression<'t>,
        token: Token<'t>,
    ) -> Result<(), FaultKind>
        ensures { Steps result self.old self.new
            (λ outer before. ended outer before (purpose_seen purpose.entry) (expression_of value.entry)
            (token_of token.entry)) }
    {
        match purpose {
            Purpose::Index(target, name, mut others) => {
                others.push(value)?;
                self.go_to(Spot::AfterPlace(target, name, others));
                Ok(())
            }
            Purpose::Given(place, update) => self.done(Statement::Assign(place, update, value)),
            Purpose::Printed(first, others) => self.printed(first, others, value, token),
            Purpose::Asserted(first) => self.done(Statement::Assert(first, value)),
            Purpose::IfCondition(first) => self.open(Owner::Then(first, value)),
            Purpose::ArmCondition(branch, first) => self.open(Owner::Arm(branch, first, value)),
            Purpose::WhileCondition(first) => self.open(Owner::While(first, value)),
            Purpose::ForFirst(first, name) => {
                self.express(Purpose::ForEnd(first, name, value));
                Ok(())
            }
            Purpose::ForEnd(first, name, from) => self.open(Owner::For(first, name, from, value)),
        }
    }

    // Behind a value that is printed: another comes, or the statement ends.
    #[tactic(auto, using(lrc_named_expression::proofs::Trees::expressions_push))]
    fn printed(
        &mut self,
        first: u32,
        others: Vec<Expression<'t>>,
        value: Expression<'t>,
        token: Token<'t>,
    ) -> Result<(), FaultKind>
        ensures { Steps result self.old self.new
            (λ outer before. printed_with outer before first
            (push (expressions_of others.entry.items) (expression_of value.entry)) (token_of token.entry)) }
    {
        let mut values = others;
        values.push(value)?;
        match token {
            Token::Sign(Sign::Comma) => {
                self.express(Purpose::Printed(first, values));
                Ok(())
            }
            _ => self.done(Statement::Print(first, values)),
        }
    }

    // A statement is complete.
    #[tactic(auto, using(crate::proofs::Trees::block_push))]
    fn done(&mut self, statement: Statement<'t>) -> Result<(), FaultKind>
        ensures step { Steps result self.old self.new
            (λ outer before. done outer before (statement_of statement.entry)) }
        ensures outer { self.new.outer ≡ self.old.outer }
    {
        self.before.push(statement)?;
        self.go_to(Spot::AtStatement);
        Ok(())
    }

    // A block begins.
    fn open(&mut self, owner: Owner<'t>) -> Result<(), FaultKind>
        ensures { Steps result self.old self.new
            (λ outer before. opened outer before (owner_seen owner.entry)) }
    {
        let before = mem::replace(&mut self.before, Vec::new(self.alloc));
        self.outer.push(Around { before, owner })?;
        self.go_to(Spot::AtStatement);
        Ok(())
    }

    // The innermost block ends.
    fn close(&mut self, at: u32) -> Result<(), FaultKind>
        ensures { Steps result self.old self.new (λ outer inside. close outer inside at) }
    {
        let Some(Around { before, owner }) = self.outer.pop() else {
            return Err(FaultKind::Unexpected);
        };
        let inside = mem::replace(&mut self.before, before);
        self.leave(owner, inside, at)
    }

    // Behind the end of a block.
    #[tactic(auto, using(crate::proofs::Trees::block_row_hidden, crate::proofs::Trees::arm_row_hidden, crate::proofs::Trees::arms_push))]
    fn leave(
        &mut self,
        owner: Owner<'t>,
        inside: Vec<Statement<'t>>,
        at: u32,
    ) -> Result<(), FaultKind>
        ensures { Steps result self.old self.new
            (λ outer before. close_for outer before (owner_seen owner.entry) (block_of inside.entry.items)
            at) }
    {
        match owner {
            Owner::Then(first, condition) => {
                let arms = Vec::new(self.alloc);
                self.go_to(Spot::AfterBranch(Branch {
                    first,
                    condition,
                    then: inside,
                    arms,
                }));
                Ok(())
            }
            Owner::Arm(mut branch, at, condition) => {
                branch.arms.push(Arm {
                    at,
                    condition,
                    block: inside,
                })?;
                self.go_to(Spot::AfterBranch(branch));
                Ok(())
            }
            Owner::Else(branch) => {
                let Branch {
                    first,
                    condition,
                    then,
                    arms,
                } = branch;
                self.done(Statement::If(first, condition, then, arms, inside))
            }
            Owner::Guarded(first, place) => self.done(Statement::With(first, place, inside, at)),
            Owner::While(first, condition) => {
                self.done(Statement::While(first, condition, inside))
            }
            Owner::For(first, name, from, end) => {
                self.done(Statement::For(first, name, from, end, inside))
            }
        }
    }

    // Behind a block of an `if`.
    fn behind_branch(
        &mut self,
        branch: Branch<'t>,
        at: u32,
        token: Token<'t>,
    ) -> Result<(), FaultKind>
        ensures { Steps result self.old self.new
            (λ outer before. behind_branch outer before (branch_seen branch.entry) at
            (token_of token.entry)) }
    {
        match token {
            Token::Keyword(Keyword::Else) => {
                self.go_to(Spot::AfterElse(branch));
                Ok(())
            }
            _ => {
                self.done_if(branch)?;
                self.begin(at, token)
            }
        }
    }

    // An `if` without a last `else` is complete.
    #[tactic(auto, using(crate::proofs::Trees::block_row_hidden, crate::proofs::Trees::arm_row_hidden))]
    fn done_if(&mut self, branch: Branch<'t>) -> Result<(), FaultKind>
        ensures step { Steps result self.old self.new
            (λ outer before. done outer before (whole_if (branch_seen branch.entry) Block.empty)) }
        ensures outer { self.new.outer ≡ self.old.outer }
    {
        let Branch {
            first,
            condition,
            then,
            arms,
        } = branch;
        self.done(Statement::If(first, condition, then, arms, Vec::new(self.alloc)))
    }

    // Behind `else`.
    fn behind_else(
        &mut self,
        branch: Branch<'t>,
        at: u32,
        token: Token<'t>,
    ) -> Result<(), FaultKind>
        ensures { Steps result self.old self.new
            (λ outer before. behind_else outer before (branch_seen branch.entry) at
            (token_of token.entry)) }
    {
        match token {
            Token::Sign(Sign::OpenBrace) => self.open(Owner::Else(branch)),
            Token::Keyword(Keyword::If) => {
                self.express(Purpose::ArmCondition(branch, at));
                Ok(())
            }
            _ => Err(FaultKind::Unexpected),
        }
    }
}
