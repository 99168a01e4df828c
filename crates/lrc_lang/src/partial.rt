// An expression of which some symbols have come.

ghost use Rattle.std.specs.Prelude.{◌≡◌, Some, None, option_map, is_some, IfOk, IsOk};
ghost use Rattle.lrc_lang.specs.Grammar.{joins};
ghost use Rattle.lrc_lang.specs.Parser.Partial.{joined, no_pending, level_with, whole_of};
ghost use Rattle.lrc_lang.specs.Parser.Partial.{nothing, close, go_on, partial_with, value_of, waiting};
ghost use Rattle.lrc_lang.specs.Parser.Seen.{joins_seen, pending_seen, level_seen, partial_seen};
ghost use Rattle.lrc_lang.specs.Parser.Seen.{symbol_seen, Gives, GivesNew};
ghost use Rattle.lrc_program.specs.Tree.{Expression as Operand, expression_of};

use crate::fault::FaultKind;
use crate::symbol::Symbol;
use crate::token::{Keyword, Sign};
use lrc_program::{Expression, Operator};
use std::alloc::{AllocError, Global};
use std::mem;

/// What an operator joins.
#[derive(Clone, Copy)]
enum Joins {
    /// Two factors, into a term.
    Factors,
    /// Two terms, into a sum.
    Terms,
    /// Two sums, which it compares.
    Sums,
}

/// A left side, and the operator after it.
#[derive(Drop)]
pub struct Pending {
    left: Expression,
    operator: Operator,
}

/// What waits for its right side, outside all parentheses or inside one.
#[derive(Drop)]
pub struct Level {
    /// A sum that will be compared.
    compared: Option<Pending>,
    /// A sum whose first terms have come.
    added: Option<Pending>,
    /// A term whose first factors have come.
    multiplied: Option<Pending>,
}

/// An expression in the middle of parsing: the symbols taken so far.
#[derive(Drop)]
pub struct Partial {
    /// What waits around each open parenthesis, outermost first.
    outer: Vec<Level>,
    level: Level,
    /// The operand that the last symbol ended, if it ended one.
    operand: Option<Expression>,
}

fn joined_by(operator: Operator) -> Joins
    ensures { joins_seen result ≡ joins operator }
{
    match operator {
        Operator::Multiply | Operator::Divide | Operator::Remainder => Joins::Factors,
        Operator::Add | Operator::Subtract => Joins::Terms,
        Operator::Equal
        | Operator::NotEqual
        | Operator::Less
        | Operator::LessOrEqual
        | Operator::Greater
        | Operator::GreaterOrEqual => Joins::Sums,
    }
}

// An operand, behind what waits for it.
fn joined(
    alloc: Global,
    pending: Option<Pending>,
    right: Expression,
) -> Result<Expression, AllocError>
    ensures { IfOk result (λ e. expression_of e
        ≡ joined (option_map pending_seen pending) (expression_of right)) }
{
    match pending {
        None => Ok(right),
        Some(Pending { left, operator }) => {
            let left = Box::new(alloc, left)?;
            let right = Box::new(alloc, right)?;
            Ok(Expression::Binary(left, operator, right))
        }
    }
}

impl Level {
    fn empty() -> Level
        ensures { level_seen result ≡ no_pending }
    {
        Level {
            compared: None,
            added: None,
            multiplied: None,
        }
    }

    // Whether this operator may stand behind an operand.
    fn takes(&self, operator: Operator) -> bool
        ensures { (operand : Operand) → result
            ≡ is_some (level_with (joins operator) (level_seen self.now) operand operator) }
    {
        match joined_by(operator) {
            Joins::Factors | Joins::Terms => true,
            Joins::Sums => self.compared.is_none(),
        }
    }

    // The expression that an operand ends.
    fn whole(self, alloc: Global, operand: Expression) -> Result<Expression, AllocError>
        ensures { IfOk result (λ e. expression_of e
            ≡ whole_of (level_seen self) (expression_of operand)) }
    {
        let Level {
            compared,
            added,
            multiplied,
        } = self;
        let term = joined(alloc, multiplied, operand)?;
        let sum = joined(alloc, added, term)?;
        joined(alloc, compared, sum)
    }

    // Takes an operand and the operator behind it.
    fn take(
        &mut self,
        alloc: Global,
        operand: Expression,
        operator: Operator,
    ) -> Result<(), FaultKind>
        ensures { GivesNew result (level_seen self.new)
            (level_with (joins operator) (level_seen self.old) (expression_of operand) operator) }
    {
        let term = joined(alloc, self.multiplied.take(), operand)?;
        match joined_by(operator) {
            Joins::Factors => self.multiplied = waiting(term, operator),
            Joins::Terms => {
                let sum = joined(alloc, self.added.take(), term)?;
                self.added = waiting(sum, operator);
            }
            Joins::Sums => {
                if self.compared.is_some() {
                    return Err(FaultKind::Unexpected);
                }
                let sum = joined(alloc, self.added.take(), term)?;
                self.compared = waiting(sum, operator);
            }
        }
        Ok(())
    }
}

// What waits for a right side.
fn waiting(left: Expression, operator: Operator) -> Option<Pending>
    ensures { option_map pending_seen result ≡ waiting (expression_of left) operator }
{
    Some(Pending { left, operator })
}

/// Returns whether an operand may begin with this symbol.
pub fn begins_operand(symbol: Symbol) -> bool
    ensures { result ≡ is_some (partial_with nothing (symbol_seen symbol)) }
{
    matches!(
        symbol,
        Symbol::Number(_)
            | Symbol::Name(_)
            | Symbol::Keyword(Keyword::Me | Keyword::Nodes)
            | Symbol::Sign(Sign::OpenParenthesis)
    )
}

impl Partial {
    /// Returns whether `take` accepts this symbol.
    pub fn takes(&self, symbol: Symbol) -> bool
        ensures { result ≡ is_some (partial_with (partial_seen self.now) (symbol_seen symbol)) }
    {
        match self.operand {
            None => begins_operand(symbol),
            Some(_) => self.goes_on(symbol),
        }
    }

    // Whether this symbol may stand behind an operand.
    fn goes_on(&self, symbol: Symbol) -> bool
        ensures { (operand : Operand) → result
            ≡ is_some (go_on (partial_seen self.now).outer (level_seen self.now.level) operand
            (symbol_seen symbol)) }
    {
        match symbol {
            Symbol::Operator(operator) => self.level.takes(operator),
            Symbol::Sign(Sign::CloseParenthesis) => !self.outer.is_empty(),
            _ => false,
        }
    }

    /// Returns whether the expression may end here, so that `finish` gives it.
    pub fn is_whole(&self) -> bool
        ensures { result ≡ is_some (value_of (partial_seen self.now)) }
    {
        self.outer.is_empty() && self.operand.is_some()
    }

    /// Returns an expression before its first symbol.
    pub fn empty(alloc: Global) -> Partial
        ensures { partial_seen result ≡ nothing }
    {
        Partial {
            outer: Vec::new(alloc),
            level: Level::empty(),
            operand: None,
        }
    }

    /// Discards the symbols taken so far.
    pub fn clear(&mut self, alloc: Global)
        ensures { partial_seen self.new ≡ nothing }
    {
        *self = Partial::empty(alloc);
    }

    /// Takes one more symbol. It fails if the symbol cannot come here, or if memory runs out.
    pub fn take(&mut self, alloc: Global, symbol: Symbol) -> Result<(), FaultKind>
        ensures { GivesNew result (partial_seen self.new)
            (partial_with (partial_seen self.old) (symbol_seen symbol)) }
    {
        match self.operand.take() {
            None => self.begin(symbol),
            Some(operand) => self.go_on(alloc, operand, symbol),
        }
    }

    // Where an operand has to begin.
    fn begin(&mut self, symbol: Symbol) -> Result<(), FaultKind>
        requires { self.old.operand ≡ None }
        ensures { GivesNew result (partial_seen self.new)
            (partial_with (partial_seen self.old) (symbol_seen symbol)) }
    {
        match symbol {
            Symbol::Number(value) => self.operand = Some(Expression::Number(value)),
            Symbol::Name(number) => self.operand = Some(Expression::Private(number)),
            Symbol::Keyword(Keyword::Me) => self.operand = Some(Expression::Me),
            Symbol::Keyword(Keyword::Nodes) => self.operand = Some(Expression::Nodes),
            Symbol::Sign(Sign::OpenParenthesis) => {
                let around = mem::replace(&mut self.level, Level::empty());
                self.outer.push(around)?;
            }
            _ => return Err(FaultKind::Unexpected),
        }
        Ok(())
    }

    // Behind an operand.
    fn go_on(&mut self, alloc: Global, operand: Expression, symbol: Symbol) -> Result<(), FaultKind>
        requires { self.old.operand ≡ None }
        ensures { GivesNew result (partial_seen self.new)
            (go_on (partial_seen self.old).outer (level_seen self.old.level)
            (expression_of operand) (symbol_seen symbol)) }
    {
        match symbol {
            Symbol::Operator(operator) => self.level.take(alloc, operand, operator),
            Symbol::Sign(Sign::CloseParenthesis) => self.close(alloc, operand),
            _ => Err(FaultKind::Unexpected),
        }
    }

    // A parenthesis ends.
    fn close(&mut self, alloc: Global, operand: Expression) -> Result<(), FaultKind>
        requires { self.old.operand ≡ None }
        ensures { GivesNew result (partial_seen self.new)
            (close (partial_seen self.old).outer (level_seen self.old.level)
            (expression_of operand)) }
    {
        let Some(around) = self.outer.pop() else {
            return Err(FaultKind::Unexpected);
        };
        let level = mem::replace(&mut self.level, around);
        self.operand = Some(level.whole(alloc, operand)?);
        Ok(())
    }

    /// Returns the whole expression, and leaves an empty one. It fails if the expression cannot end here, or if memory
    /// runs out.
    pub fn finish(&mut self, alloc: Global) -> Result<Expression, FaultKind>
        ensures value { Gives expression_of result (value_of (partial_seen self.old)) }
        ensures empty { IsOk result → partial_seen self.new ≡ nothing }
    {
        if !self.outer.is_empty() {
            return Err(FaultKind::Unexpected);
        }
        let Some(operand) = self.operand.take() else {
            return Err(FaultKind::Unexpected);
        };
        let level = mem::replace(&mut self.level, Level::empty());
        Ok(level.whole(alloc, operand)?)
    }
}
