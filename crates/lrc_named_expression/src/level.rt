// What waits for its right side.

ghost use Rattle.std.specs.Prelude.{◌≡◌, Some, None, [], reverse, option_map, IfOk};
ghost use Rattle.lrc_named_expression.specs.Partial.{bare, no_tests, joined, negated, joined_both, joined_either};
ghost use Rattle.lrc_named_expression.specs.Partial.{Tests as TestsSeen, sum_of, test_of, both_of, whole_of, waiting};
ghost use Rattle.lrc_named_expression.specs.Seen.{pending_seen, tests_seen, level_seen};
ghost use Rattle.lrc_named_tree.specs.Tree.{negation};
ghost use Rattle.lrc_named_tree.specs.View.{expression_of};

use lrc_named_tree::tree::Expression;
use lrc_program::Operator;
use std::alloc::{AllocError, Global};

/// A left side, and the operator after it.
#[derive(Drop)]
pub struct Pending<'t> {
    left: Expression<'t>,
    operator: Operator,
}

/// What waits between two of `and` and `or`.
#[derive(Drop)]
pub struct Tests<'t> {
    /// What stands in front of the last `or`.
    pub either: Option<Expression<'t>>,
    /// What stands between that and the last `and`.
    pub both: Option<Expression<'t>>,
    /// Which tokens each `not` behind them is.
    pub negations: Vec<u32>,
}

/// What waits for its right side, outside all brackets or inside some.
#[derive(Drop)]
pub struct Level<'t> {
    pub tests: Tests<'t>,
    /// A sum that will be compared.
    pub compared: Option<Pending<'t>>,
    /// A sum whose first terms have come.
    pub added: Option<Pending<'t>>,
    /// A term whose first factors have come.
    pub multiplied: Option<Pending<'t>>,
}

// An operand, behind what waits for it.
fn joined<'t>(
    alloc: Global,
    pending: Option<Pending<'t>>,
    right: Expression<'t>,
) -> Result<Expression<'t>, AllocError>
    ensures { IfOk result (λ e. expression_of e
        ≡ joined (option_map pending_seen pending.entry) (expression_of right.entry)) }
{
    match pending {
        None => Ok(right),
        Some(Pending { left, operator }) => {
            let left = Box::new(alloc, left)?;
            let right = Box::new(alloc, right)?;
            Ok(Expression::Binary(left, operator, right))
        }
    }
}

// An operand behind each `not` in front of it.
fn negated<'t>(
    alloc: Global,
    mut negations: Vec<u32>,
    operand: Expression<'t>,
) -> Result<Expression<'t>, AllocError>
    ensures { IfOk result (λ e. expression_of e
        ≡ negated (reverse negations.items) (expression_of operand.entry)) }
{
    let mut whole = operand;
    while let Some(at) = negations.pop() {
        whole = negation(alloc, at, whole)?;
    }
    Ok(whole)
}

// An operand behind one `not`.
fn negation<'t>(
    alloc: Global,
    at: u32,
    operand: Expression<'t>,
) -> Result<Expression<'t>, AllocError>
    ensures { IfOk result (λ e. expression_of e ≡ negation at (expression_of operand.entry)) }
{
    let operand = Box::new(alloc, operand)?;
    Ok(Expression::Not(at, operand))
}

// A test, behind what stands in front of `and`.
fn joined_both<'t>(
    alloc: Global,
    left: Option<Expression<'t>>,
    right: Expression<'t>,
) -> Result<Expression<'t>, AllocError>
    ensures { IfOk result (λ e. expression_of e
        ≡ joined_both (option_map expression_of left.entry) (expression_of right.entry)) }
{
    match left {
        None => Ok(right),
        Some(left) => {
            let left = Box::new(alloc, left)?;
            let right = Box::new(alloc, right)?;
            Ok(Expression::And(left, right))
        }
    }
}

// Tests, behind what stands in front of `or`.
fn joined_either<'t>(
    alloc: Global,
    left: Option<Expression<'t>>,
    right: Expression<'t>,
) -> Result<Expression<'t>, AllocError>
    ensures { IfOk result (λ e. expression_of e
        ≡ joined_either (option_map expression_of left.entry) (expression_of right.entry)) }
{
    match left {
        None => Ok(right),
        Some(left) => {
            let left = Box::new(alloc, left)?;
            let right = Box::new(alloc, right)?;
            Ok(Expression::Or(left, right))
        }
    }
}

/// What waits for its right side: this left side and operator.
pub fn waiting<'t>(left: Expression<'t>, operator: Operator) -> Option<Pending<'t>>
    ensures { option_map pending_seen result ≡ waiting (expression_of left.entry) operator }
{
    Some(Pending { left, operator })
}

impl<'t> Tests<'t> {
    /// Returns what waits before the first token.
    pub fn empty(alloc: Global) -> Self
        ensures { tests_seen result ≡ no_tests }
    {
        Tests {
            either: None,
            both: None,
            negations: Vec::new(alloc),
        }
    }
}

impl<'t> Level<'t> {
    /// Returns what waits before the first token.
    pub fn empty(alloc: Global) -> Self
        ensures { level_seen result ≡ bare no_tests }
    {
        Level::bare(Tests::empty(alloc))
    }

    /// Returns the level in which only these wait.
    pub fn bare(tests: Tests<'t>) -> Self
        ensures { level_seen result ≡ bare (tests_seen tests.entry) }
    {
        Level {
            tests,
            compared: None,
            added: None,
            multiplied: None,
        }
    }

    /// Discards all but the tests.
    pub fn clear(&mut self)
        ensures { level_seen self.new ≡ bare (level_seen self.old).tests }
    {
        self.compared = None;
        self.added = None;
        self.multiplied = None;
    }

    /// Takes out what a term waits for, and joins it to a factor.
    pub fn term(
        &mut self,
        alloc: Global,
        operand: Expression<'t>,
    ) -> Result<Expression<'t>, AllocError>
        ensures value { IfOk result (λ e. expression_of e
            ≡ joined (level_seen self.old).multiplied (expression_of operand.entry)) }
        ensures tests { self.new.tests ≡ self.old.tests }
        ensures compared { self.new.compared ≡ self.old.compared }
        ensures added { self.new.added ≡ self.old.added }
        ensures multiplied { self.new.multiplied ≡ None }
    {
        joined(alloc, self.multiplied.take(), operand)
    }

    /// Takes out what a sum waits for, and joins it to a factor.
    pub fn sum(
        &mut self,
        alloc: Global,
        operand: Expression<'t>,
    ) -> Result<Expression<'t>, AllocError>
        ensures value { IfOk result (λ e. expression_of e
            ≡ sum_of (level_seen self.old) (expression_of operand.entry)) }
        ensures tests { self.new.tests ≡ self.old.tests }
        ensures compared { self.new.compared ≡ self.old.compared }
        ensures added { self.new.added ≡ None }
        ensures multiplied { self.new.multiplied ≡ None }
    {
        let multiplied = self.multiplied.take();
        let added = self.added.take();
        let term = joined(alloc, multiplied, operand)?;
        joined(alloc, added, term)
    }

    /// Returns the test that a factor ends, with the rest of what waits.
    fn test(self, alloc: Global, operand: Expression<'t>) -> Result<Tested<'t>, AllocError>
        ensures { IfOk result (λ tested. (expression_of tested.test
            ≡ test_of (level_seen self.entry) (expression_of operand.entry))
            × (option_map expression_of tested.both ≡ (level_seen self.entry).tests.both)
            × (option_map expression_of tested.either ≡ (level_seen self.entry).tests.either)) }
    {
        let mut level = self;
        let sum = level.sum(alloc, operand)?;
        let Level {
            tests,
            compared,
            added: _,
            multiplied: _,
        } = level;
        let Tests {
            either,
            both,
            negations,
        } = tests;
        let compared = joined(alloc, compared, sum)?;
        let test = negated(alloc, negations, compared)?;
        Ok(Tested { either, both, test })
    }

    /// Returns what an operand ends that stands in front of `and`: what waits behind that.
    pub fn all_hold(self, alloc: Global, operand: Expression<'t>) -> Result<Tests<'t>, AllocError>
        ensures { IfOk result (λ tests. tests_seen tests ≡ record {
          either = (level_seen self.entry).tests.either;
          both = Some (both_of (level_seen self.entry) (expression_of operand.entry));
          negations = [];
        }) }
    {
        let Tested { either, both, test } = self.test(alloc, operand)?;
        let both = joined_both(alloc, both, test)?;
        Ok(Tests {
            either,
            both: Some(both),
            negations: Vec::new(alloc),
        })
    }

    /// Returns the expression that an operand ends.
    pub fn whole(self, alloc: Global, operand: Expression<'t>) -> Result<Expression<'t>, AllocError>
        ensures { IfOk result (λ e. expression_of e
            ≡ whole_of (level_seen self.entry) (expression_of operand.entry)) }
    {
        let Tested { either, both, test } = self.test(alloc, operand)?;
        let both = joined_both(alloc, both, test)?;
        joined_either(alloc, either, both)
    }
}

// A test that has come, and what waits around it.
#[derive(Drop)]
struct Tested<'t> {
    either: Option<Expression<'t>>,
    both: Option<Expression<'t>>,
    test: Expression<'t>,
}
