// Statements of which some symbols have come.

ghost use Rattle.std.specs.Prelude.{◌≡◌, ◌↔◌, ℕ, IsTrue, List, is_some, option_map};
ghost use Rattle.lrc_lang.specs.Parser.Body.{start, holding, in_expression, body_with, whole_of};
ghost use Rattle.lrc_lang.specs.Parser.Body.{is_ending, ending_of, ended, done, opened, close, close_for};
ghost use Rattle.lrc_lang.specs.Parser.Body.{begin, go_on, behind_name, behind_equals, behind_word};
ghost use Rattle.lrc_lang.specs.Parser.Body.{at_end, behind_then, behind_else};
ghost use Rattle.lrc_lang.specs.Parser.Partial.{nothing};
ghost use Rattle.lrc_lang.specs.Parser.Seen.{symbol_seen, partial_seen, Gives, GivesNew};
ghost use Rattle.lrc_lang.specs.Parser.SeenBody.{IsExpected, Steps, purpose_seen, owner_seen, outer_seen, body_seen};
ghost use Rattle.lrc_lang.specs.declared.token.Keyword.TheVariants.{Else};
ghost use Rattle.lrc_lang.specs.Symbol.{keyword};
ghost use Rattle.lrc_lang.specs.Parser.Body.{Around as AroundSeen};
ghost use Rattle.lrc_program.specs.Tree.{Block, Expression as Word, Statement as StatementSeen};
ghost use Rattle.lrc_program.specs.Tree.{if_else, empty, expression_of, statement_of, block_of};

use crate::fault::FaultKind;
use crate::partial::{Partial, begins_operand};
use crate::symbol::Symbol;
use crate::token::{Keyword, Sign};
use lrc_program::{Expression, Statement};
use std::alloc::Global;
use std::mem;

/// What a statement uses an expression for.
#[derive(Drop)]
enum Purpose {
    /// The value assigned to a private name.
    Assigned(u8),
    /// The word that is read into a private name.
    WordRead(u8),
    /// The word that is written.
    WordWritten,
    /// The value written to this word.
    Written(Expression),
    /// The lock to acquire.
    Acquired,
    /// The lock to release.
    Released,
    /// The value that is printed.
    Printed,
    IfCondition,
    WhileCondition,
}

/// Where the last symbol left the parser.
#[derive(Drop)]
enum Place {
    /// A statement may begin, and a block may end.
    AtStatement,
    /// After the name at the beginning of a statement.
    AfterName(u8),
    /// After that name and `=`.
    AfterEquals(u8),
    /// In an expression.
    InExpression(Purpose),
    /// After the `[word]` at the beginning of a statement.
    AfterWord(Expression),
    /// Before the `;` that ends this statement.
    BeforeEnd(Statement),
    /// After the condition and the first block of an `if`: `else` may come, or whatever may come at a statement.
    AfterThen(Expression, Vec<Statement>),
    /// After that `else`.
    AfterElse(Expression, Vec<Statement>),
}

/// What an open block belongs to.
#[derive(Drop)]
enum Owner {
    /// The first block of an `if` with this condition.
    Then(Expression),
    /// The second block of an `if` with this condition and this first block.
    Else(Expression, Vec<Statement>),
    /// The block of a `while` with this condition.
    Inside(Expression),
}

/// What surrounds an open block: its owner, and the statements before the one that the block belongs to.
#[derive(Drop)]
struct Around {
    before: Vec<Statement>,
    owner: Owner,
}

/// A statement list in the middle of parsing: the symbols taken so far.
#[derive(Drop)]
pub struct Body {
    alloc: Global,
    /// What surrounds each open block, outermost first.
    outer: Vec<Around>,
    /// The statements of the innermost open block, or of the text if no block is open.
    before: Vec<Statement>,
    place: Place,
    /// The expression being parsed, if the place is in one.
    expression: Partial,
}

fn expect(symbol: Symbol, wanted: Sign) -> Result<(), FaultKind>
    ensures { IsExpected result (symbol_seen symbol) wanted }
{
    match symbol {
        Symbol::Sign(sign) if sign == wanted => Ok(()),
        _ => Err(FaultKind::Unexpected),
    }
}

// Whether this symbol may stand behind a name that begins a statement, and behind a `[word]` that does.
fn follows_target(symbol: Symbol) -> bool
    ensures name { (outer : List AroundSeen) (before : Block) (k : ℕ) →
        result ≡ is_some (behind_name outer before k (symbol_seen symbol)) }
    ensures word { (outer : List AroundSeen) (before : Block) (word : Word) →
        result ≡ is_some (behind_word outer before word (symbol_seen symbol)) }
{
    matches!(symbol, Symbol::Sign(Sign::Assign))
}

// Whether this symbol may stand behind a name and `=`.
fn follows_equals(symbol: Symbol) -> bool
    ensures { (outer : List AroundSeen) (before : Block) (k : ℕ) →
        result ≡ is_some (behind_equals outer before k (symbol_seen symbol)) }
{
    matches!(symbol, Symbol::Sign(Sign::OpenBracket)) || begins_operand(symbol)
}

// Whether this symbol may stand in front of the end of a statement.
fn ends_statement(symbol: Symbol) -> bool
    ensures { (outer : List AroundSeen) (before : Block) (statement : StatementSeen) →
        result ≡ is_some (at_end outer before statement (symbol_seen symbol)) }
{
    matches!(symbol, Symbol::Sign(Sign::Semicolon))
}

// Whether this symbol may stand behind `else`.
fn follows_else(symbol: Symbol) -> bool
    ensures { (outer : List AroundSeen) (before : Block) (condition : Word) (first : Block) →
        result ≡ is_some (behind_else outer before condition first (symbol_seen symbol)) }
{
    matches!(symbol, Symbol::Sign(Sign::OpenBrace))
}

fn is_else(symbol: Symbol) -> bool
    ensures { IsTrue result ↔ (symbol_seen symbol ≡ keyword Else) }
{
    matches!(symbol, Symbol::Keyword(Keyword::Else))
}

impl Purpose {
    // Whether a symbol ends an expression that stands for this.
    fn is_ended_by(&self, symbol: Symbol) -> bool
        ensures { result ≡ is_ending (ending_of (purpose_seen self.now)) (symbol_seen symbol) }
    {
        match symbol {
            Symbol::Sign(Sign::Semicolon) => matches!(
                self,
                Purpose::Assigned(_)
                    | Purpose::Written(_)
                    | Purpose::Acquired
                    | Purpose::Released
                    | Purpose::Printed
            ),
            Symbol::Sign(Sign::CloseBracket) => {
                matches!(self, Purpose::WordRead(_) | Purpose::WordWritten)
            }
            Symbol::Sign(Sign::OpenBrace) => {
                matches!(self, Purpose::IfCondition | Purpose::WhileCondition)
            }
            _ => false,
        }
    }
}

impl Body {
    /// Returns a statement list before its first symbol.
    pub fn start(alloc: Global) -> Body
        ensures { body_seen result ≡ start }
    {
        Body {
            alloc,
            outer: Vec::new(alloc),
            before: Vec::new(alloc),
            place: Place::AtStatement,
            expression: Partial::empty(alloc),
        }
    }

    /// Takes one more symbol. It fails if the symbol cannot come here, or if memory runs out.
    pub fn take(&mut self, symbol: Symbol) -> Result<(), FaultKind>
        ensures { GivesNew result (body_seen self.new)
            (body_with (body_seen self.old) (symbol_seen symbol)) }
    {
        match mem::replace(&mut self.place, Place::AtStatement) {
            Place::AtStatement => self.begin(symbol),
            Place::AfterName(name) => self.behind_name(name, symbol),
            Place::AfterEquals(name) => self.behind_equals(name, symbol),
            Place::InExpression(purpose) => self.go_on(purpose, symbol),
            Place::AfterWord(word) => self.behind_word(word, symbol),
            Place::BeforeEnd(statement) => self.at_end(statement, symbol),
            Place::AfterThen(condition, first) => self.behind_then(condition, first, symbol),
            Place::AfterElse(condition, first) => self.behind_else(condition, first, symbol),
        }
    }

    /// Returns whether `take` accepts this symbol.
    pub fn takes(&self, symbol: Symbol) -> bool
        ensures { result ≡ is_some (body_with (body_seen self.now) (symbol_seen symbol)) }
    {
        match &self.place {
            Place::AtStatement => self.begins(symbol),
            Place::AfterName(_) | Place::AfterWord(_) => follows_target(symbol),
            Place::AfterEquals(_) => follows_equals(symbol),
            Place::InExpression(purpose) => self.goes_on(purpose, symbol),
            Place::BeforeEnd(_) => ends_statement(symbol),
            Place::AfterThen(_, _) => self.follows_then(symbol),
            Place::AfterElse(_, _) => follows_else(symbol),
        }
    }

    /// Returns whether the statements may end here, so that `finish` succeeds.
    pub fn is_whole(&self) -> bool
        ensures { result ≡ is_some (whole_of (body_seen self.now)) }
    {
        self.outer.is_empty() && matches!(self.place, Place::AtStatement | Place::AfterThen(_, _))
    }

    // Whether a statement may begin with this, or the innermost block end with it.
    fn begins(&self, symbol: Symbol) -> bool
        ensures { (before : Block) → result
            ≡ is_some (begin (outer_seen self.now) before (symbol_seen symbol)) }
    {
        match symbol {
            Symbol::Name(_)
            | Symbol::Sign(Sign::OpenBracket)
            | Symbol::Keyword(
                Keyword::Acquire
                | Keyword::Release
                | Keyword::Barrier
                | Keyword::Print
                | Keyword::If
                | Keyword::While,
            ) => true,
            Symbol::Sign(Sign::CloseBrace) => !self.outer.is_empty(),
            _ => false,
        }
    }

    // Whether this symbol may stand behind the first block of an `if`.
    fn follows_then(&self, symbol: Symbol) -> bool
        ensures { (before first : Block) (condition : Word) →
            result ≡ is_some (behind_then (outer_seen self.now) before condition first
            (symbol_seen symbol)) }
    {
        is_else(symbol) || self.begins(symbol)
    }

    // Whether this symbol may stand in an expression, or end it.
    fn goes_on(&self, purpose: &Purpose, symbol: Symbol) -> bool
        ensures { (before : Block) → result ≡ is_some (go_on (outer_seen self.now) before
            (purpose_seen purpose.now) (partial_seen self.now.expression) (symbol_seen symbol)) }
    {
        if purpose.is_ended_by(symbol) {
            self.expression.is_whole()
        } else {
            self.expression.takes(symbol)
        }
    }

    /// Ends the statements. It fails if they cannot end here, or if memory runs out.
    pub fn finish(&mut self) -> Result<(), FaultKind>
        ensures { GivesNew result (body_seen self.new)
            (option_map holding (whole_of (body_seen self.old))) }
    {
        if !self.outer.is_empty() {
            return Err(FaultKind::Unexpected);
        }
        match mem::replace(&mut self.place, Place::AtStatement) {
            Place::AtStatement => Ok(()),
            Place::AfterThen(condition, first) => self.done_if(condition, first),
            place => {
                self.go_to(place);
                Err(FaultKind::Unexpected)
            }
        }
    }

    /// Takes out the statements parsed so far outside every open block, and leaves none.
    pub fn take_statements(&mut self) -> Vec<Statement>
        ensures { block_of result.items ≡ (body_seen self.old).before }
    {
        mem::replace(&mut self.before, Vec::new(self.alloc))
    }

    // The last symbol has led here.
    fn go_to(&mut self, place: Place)
        ensures outer { self.new.outer ≡ self.old.outer }
        ensures before { self.new.before ≡ self.old.before }
        ensures expression { self.new.expression ≡ self.old.expression }
        ensures place { self.new.place ≡ place }
    {
        self.place = place;
    }

    // Where a statement may begin and a block may end.
    fn begin(&mut self, symbol: Symbol) -> Result<(), FaultKind>
        ensures { Steps result self.old self.new
            (λ outer before. begin outer before (symbol_seen symbol)) }
    {
        match symbol {
            Symbol::Name(name) => self.go_to(Place::AfterName(name)),
            Symbol::Sign(Sign::OpenBracket) => self.express(Purpose::WordWritten),
            Symbol::Keyword(Keyword::Acquire) => self.express(Purpose::Acquired),
            Symbol::Keyword(Keyword::Release) => self.express(Purpose::Released),
            Symbol::Keyword(Keyword::Barrier) => self.go_to(Place::BeforeEnd(Statement::Barrier)),
            Symbol::Keyword(Keyword::Print) => self.express(Purpose::Printed),
            Symbol::Keyword(Keyword::If) => self.express(Purpose::IfCondition),
            Symbol::Keyword(Keyword::While) => self.express(Purpose::WhileCondition),
            Symbol::Sign(Sign::CloseBrace) => self.close()?,
            _ => return Err(FaultKind::Unexpected),
        }
        Ok(())
    }

    // An expression begins.
    fn express(&mut self, purpose: Purpose)
        ensures outer { self.new.outer ≡ self.old.outer }
        ensures before { self.new.before ≡ self.old.before }
        ensures place { (body_seen self.new).place ≡ in_expression (purpose_seen purpose) nothing }
    {
        self.expression.clear(self.alloc);
        self.go_to(Place::InExpression(purpose));
    }

    // Behind the name at the beginning of a statement.
    fn behind_name(&mut self, name: u8, symbol: Symbol) -> Result<(), FaultKind>
        ensures { Steps result self.old self.new
            (λ outer before. behind_name outer before name (symbol_seen symbol)) }
    {
        expect(symbol, Sign::Assign)?;
        self.go_to(Place::AfterEquals(name));
        Ok(())
    }

    // Behind the `[word]` at the beginning of a statement.
    fn behind_word(&mut self, word: Expression, symbol: Symbol) -> Result<(), FaultKind>
        ensures { Steps result self.old self.new
            (λ outer before. behind_word outer before (expression_of word) (symbol_seen symbol)) }
    {
        expect(symbol, Sign::Assign)?;
        self.express(Purpose::Written(word));
        Ok(())
    }

    // In front of the `;` that ends a statement.
    fn at_end(&mut self, statement: Statement, symbol: Symbol) -> Result<(), FaultKind>
        ensures { Steps result self.old self.new
            (λ outer before. at_end outer before (statement_of statement) (symbol_seen symbol)) }
    {
        expect(symbol, Sign::Semicolon)?;
        self.done(statement)
    }

    // Behind `else`.
    fn behind_else(
        &mut self,
        condition: Expression,
        first: Vec<Statement>,
        symbol: Symbol,
    ) -> Result<(), FaultKind>
        ensures { Steps result self.old self.new
            (λ outer before. behind_else outer before (expression_of condition)
            (block_of first.items) (symbol_seen symbol)) }
    {
        expect(symbol, Sign::OpenBrace)?;
        self.open(Owner::Else(condition, first))
    }

    // Behind a name and `=`.
    fn behind_equals(&mut self, name: u8, symbol: Symbol) -> Result<(), FaultKind>
        ensures { Steps result self.old self.new
            (λ outer before. behind_equals outer before name (symbol_seen symbol)) }
    {
        self.expression.clear(self.alloc);
        match symbol {
            Symbol::Sign(Sign::OpenBracket) => {
                self.go_to(Place::InExpression(Purpose::WordRead(name)));
                Ok(())
            }
            _ => self.go_on(Purpose::Assigned(name), symbol),
        }
    }

    // In an expression.
    fn go_on(&mut self, purpose: Purpose, symbol: Symbol) -> Result<(), FaultKind>
        ensures { Steps result self.old self.new
            (λ outer before. go_on outer before (purpose_seen purpose)
            (partial_seen self.old.expression) (symbol_seen symbol)) }
    {
        if purpose.is_ended_by(symbol) {
            let value = self.expression.finish(self.alloc)?;
            return self.end(purpose, value);
        }
        self.expression.take(self.alloc, symbol)?;
        self.go_to(Place::InExpression(purpose));
        Ok(())
    }

    // Behind the end of an expression.
    fn end(&mut self, purpose: Purpose, value: Expression) -> Result<(), FaultKind>
        ensures { Steps result self.old self.new
            (λ outer before. ended outer before (purpose_seen purpose) (expression_of value)) }
    {
        match purpose {
            Purpose::Assigned(name) => self.done(Statement::Assign(name, value)),
            Purpose::WordRead(name) => {
                self.go_to(Place::BeforeEnd(Statement::Read(name, value)));
                Ok(())
            }
            Purpose::WordWritten => {
                self.go_to(Place::AfterWord(value));
                Ok(())
            }
            Purpose::Written(word) => self.done(Statement::Write(word, value)),
            Purpose::Acquired => self.done(Statement::Acquire(value)),
            Purpose::Released => self.done(Statement::Release(value)),
            Purpose::Printed => self.done(Statement::Print(value)),
            Purpose::IfCondition => self.open(Owner::Then(value)),
            Purpose::WhileCondition => self.open(Owner::Inside(value)),
        }
    }

    // A statement is complete.
    fn done(&mut self, statement: Statement) -> Result<(), FaultKind>
        ensures step { Steps result self.old self.new
            (λ outer before. done outer before (statement_of statement)) }
        ensures outer { self.new.outer ≡ self.old.outer }
    {
        self.before.push(statement)?;
        self.go_to(Place::AtStatement);
        Ok(())
    }

    // A block begins.
    fn open(&mut self, owner: Owner) -> Result<(), FaultKind>
        ensures { Steps result self.old self.new
            (λ outer before. opened outer before (owner_seen owner)) }
    {
        let before = mem::replace(&mut self.before, Vec::new(self.alloc));
        self.outer.push(Around { before, owner })?;
        self.go_to(Place::AtStatement);
        Ok(())
    }

    // The innermost block ends.
    fn close(&mut self) -> Result<(), FaultKind>
        ensures { Steps result self.old self.new close }
    {
        let Some(Around { before, owner }) = self.outer.pop() else {
            return Err(FaultKind::Unexpected);
        };
        let inside = mem::replace(&mut self.before, before);
        self.leave(owner, inside)
    }

    // Behind the end of a block.
    fn leave(&mut self, owner: Owner, inside: Vec<Statement>) -> Result<(), FaultKind>
        ensures { Steps result self.old self.new
            (λ outer before. close_for outer before (owner_seen owner) (block_of inside.items)) }
    {
        match owner {
            Owner::Then(condition) => {
                self.go_to(Place::AfterThen(condition, inside));
                Ok(())
            }
            Owner::Else(condition, first) => self.done(Statement::If(condition, first, inside)),
            Owner::Inside(condition) => self.done(Statement::While(condition, inside)),
        }
    }

    // Behind the first block of an `if`.
    fn behind_then(
        &mut self,
        condition: Expression,
        first: Vec<Statement>,
        symbol: Symbol,
    ) -> Result<(), FaultKind>
        ensures { Steps result self.old self.new
            (λ outer before. behind_then outer before (expression_of condition)
            (block_of first.items) (symbol_seen symbol)) }
    {
        match symbol {
            Symbol::Keyword(Keyword::Else) => {
                self.go_to(Place::AfterElse(condition, first));
                Ok(())
            }
            _ => {
                self.done_if(condition, first)?;
                self.begin(symbol)
            }
        }
    }

    // An `if` without `else` is complete.
    fn done_if(&mut self, condition: Expression, first: Vec<Statement>) -> Result<(), FaultKind>
        ensures step { Steps result self.old self.new
            (λ outer before. done outer before
            (if_else (expression_of condition) (block_of first.items) empty)) }
        ensures outer { self.new.outer ≡ self.old.outer }
    {
        self.done(Statement::If(condition, first, Vec::new(self.alloc)))
    }
}
