// The core of expressions.

ghost use Rattle.std.specs.Prelude.{◌≡◌, ◌≤◌, ◌<◌, ℕ, None, IfOk, length, map};
ghost use Rattle.lrc_named_tree.specs.Tree.{call as the_call};
ghost use Rattle.lrc_named_tree.specs.View.{named_of, expression_of as tree_of, expressions_of as trees_of};
ghost use Rattle.lrc_named_names.specs.Names.{meaning_of, place_of};
ghost use Rattle.lrc_named_names.specs.View.{declared_of};
ghost use Rattle.lrc_named_constants.specs.Constant.{known_as, names_of};
ghost use Rattle.lrc_named_constants.specs.View.{known_of};
ghost use Rattle.lrc_named_constants.specs.Well.{AreWell, IsSound, IsWell, Takes, ValueUnless, count, is_among};
ghost use Rattle.lrc_named_core.specs.View.{expression_of, origin_of};
ghost use Rattle.lrc_named_translation.specs.Added.{IsAdded};
ghost use Rattle.lrc_named_translation.specs.Meanings.{IsShared};
ghost use Rattle.lrc_named_translation.specs.Made.{AreMade, IsByRule, IsMade};
ghost use Rattle.lrc_named_translation.specs.Turn.{element_of, junction_of};

use crate::meanings::{NameKind, kind_of, shared_item};
use crate::own::{following, is_plain};
use crate::parts::{
    Element, Junction, Kind, copy_at, holding, holding_junction, private_name, using_item,
};
use crate::turn::{Turn, at_once};
use lrc_named_address::address;
use lrc_named_constants::constancy::{Constancy, Known};
use lrc_named_constants::{Constants, bind, parameter_place};
use lrc_named_core::binary;
use lrc_named_core::tree::{Expression as Core, Origin, Private, Statement};
use lrc_named_names::names::Names;
use lrc_named_tree::tree::{Expression, Name};
use lrc_program::Operator;
use std::alloc::{AllocError, Global};

/// What the expressions of a statement are translated by: what is declared, and what their core statements come from.
#[derive(Clone, Copy)]
pub struct Translator<'t, 'n, 'p> {
    pub alloc: Global,
    pub names: &'t Names<'n, 'p>,
    pub origin: Origin<'p>,
}

/// What the parameters of a function stand for, in its body: what is known of their arguments, and the arguments' cores.
#[derive(Clone, Copy)]
pub struct Arguments<'a, 'p> {
    pub known: &'a [Known<'p>],
    pub cores: &'a [Core<'p>],
}

impl<'t, 'n, 'p> Translator<'t, 'n, 'p> {
    /// Returns the core of an expression, and adds what comes before it. Parameters mean what the arguments say; `below` is how
    /// many of the declared names come before whatever the expression calls, and `taken` how many names of the translation's own
    /// the statement has taken. It fails only if memory runs out.
    #[cycle(made)]
    pub fn made(
        &self,
        below: usize,
        with: Arguments<'_, 'p>,
        expression: &Expression<'p>,
        taken: &mut u32,
        before: &mut Vec<Statement<'p>>,
    ) -> Result<Core<'p>, AllocError>
        requires table { IsSound (declared_of self.now.names.now) }
        requires well { IsWell (declared_of self.now.names.now) (names_of (map known_of with.known.now))
            below (tree_of expression.now) }
        requires whole { length with.known.now ≤ length with.cores.now }
        ensures { IfOk result (λ p. IsAdded (λ b. IsMade (declared_of self.now.names.now)
            (origin_of self.now.origin) (map known_of with.entry.known.now)
            (map expression_of with.entry.cores.now) (tree_of expression.now) taken.old b
            (expression_of p) taken.new) before.old.items before.new.items) }
    {
        let constants = Constants {
            alloc: self.alloc,
            names: self.names,
        };
        let constancy = constants.constancy(below, with.known, expression)?;
        match constancy {
            Constancy::Value(v) => Ok(Core::number(v)),
            _ => {
                let p = self.by_rule(below, with, expression, taken, before)?;
                Ok(p)
            }
        }
    }

    // The core of an expression that has no value before the run, by its form.
    #[cycle(made)]
    fn by_rule(
        &self,
        below: usize,
        with: Arguments<'_, 'p>,
        expression: &Expression<'p>,
        taken: &mut u32,
        before: &mut Vec<Statement<'p>>,
    ) -> Result<Core<'p>, AllocError>
        requires table { IsSound (declared_of self.now.names.now) }
        requires well { IsWell (declared_of self.now.names.now) (names_of (map known_of with.known.now))
            below (tree_of expression.now) }
        requires whole { length with.known.now ≤ length with.cores.now }
        ensures { IfOk result (λ p. IsAdded (λ b. IsByRule (declared_of self.now.names.now)
            (origin_of self.now.origin) (map known_of with.entry.known.now)
            (map expression_of with.entry.cores.now) (tree_of expression.now) taken.old b
            (expression_of p) taken.new) before.old.items before.new.items) }
    {
        match expression {
            Expression::Number(_, n) => Ok(Core::number(*n)),
            Expression::Me(_) => Ok(Core::me()),
            Expression::Nodes(_) => Ok(Core::nodes()),
            Expression::Element(name, indices, last) => {
                let element = Element {
                    name: *name,
                    indices,
                    last: *last,
                };
                let p = self.element(below, with, element, taken, before)?;
                Ok(p)
            }
            Expression::Call(name, arguments, _) => {
                let p = self.call(below, with, *name, arguments, taken, before)?;
                Ok(p)
            }
            Expression::Group(_, inside, _) => {
                let p = self.made(below, with, inside, taken, before)?;
                Ok(p)
            }
            Expression::Not(_, operand) => {
                let p = self.made(below, with, operand, taken, before)?;
                let e = binary(self.alloc, p, Operator::Equal, Core::number(0))?;
                Ok(e)
            }
            Expression::Binary(left, operator, right) => {
                let p = self.made(below, with, left, taken, before)?;
                let q = self.made(below, with, right, taken, before)?;
                let e = binary(self.alloc, p, *operator, q)?;
                Ok(e)
            }
            Expression::And(left, right) => {
                let junction = Junction {
                    left,
                    kind: Kind::Both,
                    right,
                };
                let p = self.junction(below, with, junction, taken, before)?;
                Ok(p)
            }
            Expression::Or(left, right) => {
                let junction = Junction {
                    left,
                    kind: Kind::Either,
                    right,
                };
                let p = self.junction(below, with, junction, taken, before)?;
                Ok(p)
            }
        }
    }

    // The core of a name without arguments, and of an element.
    #[cycle(made)]
    fn element(
        &self,
        below: usize,
        with: Arguments<'_, 'p>,
        element: Element<'_, 'p>,
        taken: &mut u32,
        before: &mut Vec<Statement<'p>>,
    ) -> Result<Core<'p>, AllocError>
        requires table { IsSound (declared_of self.now.names.now) }
        requires name { ValueUnless
            (is_among (names_of (map known_of with.known.now)) element.name.bytes.now)
            (meaning_of (declared_of self.now.names.now) element.name.bytes.now) }
        requires well { AreWell (declared_of self.now.names.now) (names_of (map known_of with.known.now))
            below (trees_of element.indices.now) }
        requires whole { length with.known.now ≤ length with.cores.now }
        ensures { IfOk result (λ p. IsAdded (λ b. IsByRule (declared_of self.now.names.now)
            (origin_of self.now.origin) (map known_of with.entry.known.now)
            (map expression_of with.entry.cores.now) (element_of element.entry) taken.old b
            (expression_of p) taken.new) before.old.items before.new.items) }
    {
        let place = parameter_place(with.known, element.name.bytes);
        if place < with.known.len() {
            let p = copy_at(with.cores, place)?;
            return Ok(p);
        }
        match kind_of(self.names, element.name.bytes) {
            NameKind::Private => Ok(private_name(element.name.bytes)),
            NameKind::Constant(n) => Ok(Core::number(n)),
            NameKind::Shared => {
                let p = self.read(below, with, element, taken, before)?;
                Ok(p)
            }
        }
    }

    // A shared item is read into a name of the translation's own.
    #[cycle(made)]
    fn read(
        &self,
        below: usize,
        with: Arguments<'_, 'p>,
        element: Element<'_, 'p>,
        taken: &mut u32,
        before: &mut Vec<Statement<'p>>,
    ) -> Result<Core<'p>, AllocError>
        requires table { IsSound (declared_of self.now.names.now) }
        requires well { AreWell (declared_of self.now.names.now) (names_of (map known_of with.known.now))
            below (trees_of element.indices.now) }
        requires whole { length with.known.now ≤ length with.cores.now }
        requires unknown { known_as (map known_of with.known.now) element.name.bytes.now ≡ None }
        requires shared { IsShared (meaning_of (declared_of self.now.names.now)
            element.name.bytes.now) }
        ensures { IfOk result (λ p. IsAdded (λ b. IsByRule (declared_of self.now.names.now)
            (origin_of self.now.origin) (map known_of with.entry.known.now)
            (map expression_of with.entry.cores.now) (element_of element.entry) taken.old b
            (expression_of p) taken.new) before.old.items before.new.items) }
    {
        let cores = self.all_made(below, with, element.indices, taken, before)?;
        let item = shared_item(self.names, element.name.bytes);
        let word = address(self.alloc, item, &cores)?;
        let next = following(*taken)?;
        *taken = next;
        let held = Private::Own(next, element.name.at, element.last);
        let origin = using_item(self.origin, element.name.bytes, element.indices);
        before.push(Statement::Read(origin, held, word))?;
        Ok(Core::private(held))
    }

    // The core of a call: the arguments come first, and then the body, in which each parameter stands for its argument.
    #[cycle(made)]
    fn call(
        &self,
        below: usize,
        with: Arguments<'_, 'p>,
        name: Name<'p>,
        arguments: &[Expression<'p>],
        taken: &mut u32,
        before: &mut Vec<Statement<'p>>,
    ) -> Result<Core<'p>, AllocError>
        requires table { IsSound (declared_of self.now.names.now) }
        requires before { place_of (declared_of self.now.names.now) name.bytes.now < below }
        requires function { Takes (meaning_of (declared_of self.now.names.now) name.bytes.now)
            (count (trees_of arguments.now)) }
        requires well { AreWell (declared_of self.now.names.now) (names_of (map known_of with.known.now))
            below (trees_of arguments.now) }
        requires whole { length with.known.now ≤ length with.cores.now }
        ensures { IfOk result (λ p. IsAdded (λ b. (close : ℕ) →
            IsByRule (declared_of self.now.names.now) (origin_of self.now.origin)
            (map known_of with.entry.known.now) (map expression_of with.entry.cores.now)
            (the_call (named_of name.entry) (trees_of arguments.now) close) taken.old b
            (expression_of p) taken.new) before.old.items before.new.items) }
    {
        let place = self.names.place(name.bytes);
        let (parameters, body) = self.names.function(place);
        let constants = Constants {
            alloc: self.alloc,
            names: self.names,
        };
        let constancies = constants.constancies(below, with.known, arguments)?;
        let known = bind(self.alloc, parameters, &constancies)?;
        let cores = self.all_made(below, with, arguments, taken, before)?;
        let inner = Arguments {
            known: &known,
            cores: &cores,
        };
        let p = self.made(place, inner, body, taken, before)?;
        Ok(p)
    }

    /// Returns the cores of these expressions, from the left, and adds what comes before them. It fails only if memory runs out.
    #[cycle(made)]
    pub fn all_made(
        &self,
        below: usize,
        with: Arguments<'_, 'p>,
        expressions: &[Expression<'p>],
        taken: &mut u32,
        before: &mut Vec<Statement<'p>>,
    ) -> Result<Vec<Core<'p>>, AllocError>
        requires table { IsSound (declared_of self.now.names.now) }
        requires well { AreWell (declared_of self.now.names.now) (names_of (map known_of with.known.now))
            below (trees_of expressions.now) }
        requires whole { length with.known.now ≤ length with.cores.now }
        ensures { IfOk result (λ ps. IsAdded (λ b. AreMade (declared_of self.now.names.now)
            (origin_of self.now.origin) (map known_of with.entry.known.now)
            (map expression_of with.entry.cores.now) (trees_of expressions.now) taken.old b
            (map expression_of ps.items) taken.new) before.old.items before.new.items) }
    {
        let mut all = Vec::new(self.alloc);
        for expression in expressions {
            let p = self.made(below, with, expression, taken, before)?;
            all.push(p)?;
        }
        Ok(all)
    }

    // The core of `left and right`, and of `left or right`.
    #[cycle(made)]
    fn junction(
        &self,
        below: usize,
        with: Arguments<'_, 'p>,
        junction: Junction<'_, 'p>,
        taken: &mut u32,
        before: &mut Vec<Statement<'p>>,
    ) -> Result<Core<'p>, AllocError>
        requires table { IsSound (declared_of self.now.names.now) }
        requires left { IsWell (declared_of self.now.names.now) (names_of (map known_of with.known.now))
            below (tree_of junction.left.now) }
        requires right { IsWell (declared_of self.now.names.now) (names_of (map known_of with.known.now))
            below (tree_of junction.right.now) }
        requires whole { length with.known.now ≤ length with.cores.now }
        ensures { IfOk result (λ p. IsAdded (λ b. IsByRule (declared_of self.now.names.now)
            (origin_of self.now.origin) (map known_of with.entry.known.now)
            (map expression_of with.entry.cores.now) (junction_of junction.entry) taken.old b
            (expression_of p) taken.new) before.old.items before.new.items) }
    {
        let p = self.made(below, with, junction.left, taken, before)?;
        let number = following(*taken)?;
        let mut inner = number;
        let mut inside = Vec::new(self.alloc);
        let q = self.made(below, with, junction.right, &mut inner, &mut inside)?;
        let plain = is_plain(&inside, &q);
        if plain {
            let e = at_once(self.alloc, junction.kind, p, q)?;
            return Ok(e);
        }
        *taken = inner;
        let left = holding(number, junction.left);
        let whole = holding_junction(number, junction);
        let turn = Turn {
            origin: self.origin,
            kind: junction.kind,
            left,
            whole,
        };
        turn.take(self.alloc, p, inside, q, before)?;
        Ok(Core::private(whole))
    }
}
