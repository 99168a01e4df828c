// What is known of expressions.

ghost use Rattle.std.specs.Prelude.{◌≡◌, ◌<◌, ℕ, IfOk, map, unwrap_or};
ghost use Rattle.lrc_named_tree.specs.View.{named_of, expression_of, expressions_of};
ghost use Rattle.lrc_named_names.specs.Names.{meaning_of, place_of};
ghost use Rattle.std.specs.Str.{bytes_eq};
ghost use Rattle.lrc_named_names.specs.View.{declared_of};
ghost use Rattle.lrc_named_constants.specs.View.{known_of};
ghost use Rattle.lrc_named_constants.specs.Combine.{called, is_varying};
ghost use Rattle.lrc_named_constants.specs.Constant.{IsConstancy, AreConstancies, bound, known_as, names_of, parameter_of, constancy_of_meaning};
ghost use Rattle.lrc_named_constants.specs.Well.{IsWell, AreWell, IsSound, Takes, count};
ghost use Rattle.lrc_named_tree.specs.Tree.{call};

use crate::combine::{both, either, join};
use crate::constancy::{Constancy, Known};
use lrc_named_names::names::{Meaning, Names};
use lrc_named_tree::tree::{Expression, Name};
use lrc_program::Operator;
use std::alloc::{AllocError, Global};

// Whether a parameter has this name.
fn is_named(known: Known<'_>, name: &[u8]) -> bool
    ensures { result ≡ bytes_eq (known_of known.entry).name name.now }
{
    known.name == name
}

/// Returns the place of a name among the parameters; of one that is none, how many these are.
pub fn parameter_place(known: &[Known<'_>], name: &[u8]) -> usize
    ensures { result ≡ parameter_of (map known_of known.now) name.now }
{
    for (i, parameter) in known.iter().enumerate() {
        if is_named(*parameter, name) {
            return i;
        }
    }
    known.len()
}

/// Returns what is known of the parameter of this name, if it is one.
pub fn known_parameter(known: &[Known<'_>], name: &[u8]) -> Option<Constancy>
    ensures { result ≡ known_as (map known_of known.now) name.now }
{
    match known.get(parameter_place(known, name)) {
        Some(parameter) => Some(parameter.constancy),
        None => None,
    }
}

/// Returns parameters with what is known of their arguments.
pub fn bind<'p>(
    alloc: Global,
    parameters: &[Name<'p>],
    constancies: &[Constancy],
) -> Result<Vec<Known<'p>>, AllocError>
    ensures { IfOk result (λ known. map known_of known.items
        ≡ bound (map named_of parameters.now) constancies.now) }
{
    let mut known = Vec::new(alloc);
    for i in 0..parameters.len().min(constancies.len()) {
        known.push(Known {
            name: parameters[i].bytes,
            constancy: constancies[i],
        })?;
    }
    Ok(known)
}

fn is_varying(constancy: Constancy) -> bool
    ensures { result ≡ is_varying constancy }
{
    matches!(constancy, Constancy::Varies)
}

// What is known of a call, by what is known of its arguments and of the body with them.
fn call_with(arguments: &[Constancy], body: Constancy) -> Constancy
    ensures { result ≡ called arguments.now body }
{
    for argument in arguments {
        if is_varying(*argument) {
            return Constancy::Varies;
        }
    }
    body
}

/// What is constant, by what is declared.
#[derive(Clone, Copy)]
pub struct Constants<'t, 'n, 'p> {
    pub alloc: Global,
    pub names: &'t Names<'n, 'p>,
}

impl<'t, 'n, 'p> Constants<'t, 'n, 'p> {
    /// Returns what is known of an expression before a run, where this is known of the parameters, and whatever it calls is
    /// among the first `below` of what is declared. It fails only if memory runs out.
    #[cycle(constancy)]
    pub fn constancy(
        &self,
        below: usize,
        known: &[Known<'p>],
        expression: &Expression<'p>,
    ) -> Result<Constancy, AllocError>
        requires table { IsSound (declared_of self.now.names.now) }
        requires well { IsWell (declared_of self.now.names.now) (names_of (map known_of known.now)) below
            (expression_of expression.now) }
        ensures { IfOk result (λ w. IsConstancy (declared_of self.now.names.now) (map known_of known.now)
            (expression_of expression.now) w) }
    {
        match expression {
            Expression::Number(_, n) => Ok(Constancy::Value(*n)),
            Expression::Me(_) => Ok(Constancy::Varies),
            Expression::Nodes(_) => Ok(Constancy::Varies),
            Expression::Element(name, _, _) => {
                let w = self.constancy_of_name(known, *name);
                Ok(w)
            }
            Expression::Call(name, arguments, _) => {
                let w = self.constancy_of_call(below, known, *name, arguments)?;
                Ok(w)
            }
            Expression::Group(_, inside, _) => {
                let w = self.constancy(below, known, inside)?;
                Ok(w)
            }
            Expression::Not(_, operand) => {
                let w = self.constancy(below, known, operand)?;
                Ok(join(Operator::Equal, w, Constancy::Value(0)))
            }
            Expression::Binary(left, operator, right) => {
                let l = self.constancy(below, known, left)?;
                let r = self.constancy(below, known, right)?;
                Ok(join(*operator, l, r))
            }
            Expression::And(left, right) => {
                let l = self.constancy(below, known, left)?;
                let r = self.constancy(below, known, right)?;
                Ok(both(l, r))
            }
            Expression::Or(left, right) => {
                let l = self.constancy(below, known, left)?;
                let r = self.constancy(below, known, right)?;
                Ok(either(l, r))
            }
        }
    }

    /// Returns what is known of each of these expressions. It fails only if memory runs out.
    #[cycle(constancy)]
    pub fn constancies(
        &self,
        below: usize,
        known: &[Known<'p>],
        expressions: &[Expression<'p>],
    ) -> Result<Vec<Constancy>, AllocError>
        requires table { IsSound (declared_of self.now.names.now) }
        requires well { AreWell (declared_of self.now.names.now) (names_of (map known_of known.now)) below
            (expressions_of expressions.now) }
        ensures { IfOk result (λ ws. AreConstancies (declared_of self.now.names.now) (map known_of known.now)
            (expressions_of expressions.now) ws.items) }
    {
        let mut all = Vec::new(self.alloc);
        for expression in expressions {
            let one = self.constancy(below, known, expression)?;
            all.push(one)?;
        }
        Ok(all)
    }

    // What is known of a call: the body is looked at with what is known of the arguments.
    #[cycle(constancy)]
    fn constancy_of_call(
        &self,
        below: usize,
        known: &[Known<'p>],
        name: Name<'p>,
        arguments: &[Expression<'p>],
    ) -> Result<Constancy, AllocError>
        requires table { IsSound (declared_of self.now.names.now) }
        requires before { place_of (declared_of self.now.names.now) name.bytes.now < below }
        requires function { Takes (meaning_of (declared_of self.now.names.now) name.bytes.now)
            (count (expressions_of arguments.now)) }
        requires well { AreWell (declared_of self.now.names.now) (names_of (map known_of known.now)) below
            (expressions_of arguments.now) }
        ensures { IfOk result (λ w. (close : ℕ) → IsConstancy (declared_of self.now.names.now) (map known_of known.now)
            (call (named_of name.entry) (expressions_of arguments.now) close) w) }
    {
        let place = self.names.place(name.bytes);
        let (parameters, body) = self.names.function(place);
        let constancies = self.constancies(below, known, arguments)?;
        let inner = bind(self.alloc, parameters, &constancies)?;
        let whole = self.constancy(place, &inner, body)?;
        Ok(call_with(&constancies, whole))
    }

    // What is known of a name without arguments that is no parameter.
    fn constancy_of_declared(&self, name: &[u8]) -> Constancy
        ensures { result ≡ constancy_of_meaning (meaning_of (declared_of self.now.names.now) name.now) }
    {
        match self.names.meaning(self.names.place(name)) {
            Some(Meaning::Constant(n)) => Constancy::Value(*n),
            _ => Constancy::Varies,
        }
    }

    // What is known of a name without arguments.
    fn constancy_of_name(&self, known: &[Known<'p>], name: Name<'p>) -> Constancy
        ensures { result ≡ unwrap_or (known_as (map known_of known.now) name.entry.bytes.now)
            (constancy_of_meaning (meaning_of (declared_of self.now.names.now) name.entry.bytes.now)) }
    {
        match known_parameter(known, name.bytes) {
            Some(constancy) => constancy,
            None => self.constancy_of_declared(name.bytes),
        }
    }
}
