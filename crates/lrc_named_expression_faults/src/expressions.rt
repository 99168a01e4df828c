// The faults of expressions.

ghost use Rattle.std.specs.Prelude.{◌≡◌, IfOk, List, Some, length, map, slice_get, true};
ghost use Rattle.lrc_named_tree.specs.Tree as tree;
ghost use Rattle.lrc_named_tree.specs.View.{expression_of, expressions_of, named_of};
ghost use Rattle.lrc_named_names.specs.Names.{function, meaning_of};
ghost use Rattle.lrc_named_names.specs.View.{declared_of};
ghost use Rattle.lrc_named_constants.specs.Constant.{names_of};
ghost use Rattle.lrc_named_constants.specs.View.{known_of};
ghost use Rattle.lrc_named_constants.specs.Well.{IsSound, IsWell, bytes_of};
ghost use Rattle.lrc_named_expression_faults.specs.Expressions.{AreSome, AreWrongArguments, AreWrongIndices, IsWrongUse, IsBeyond, IsInCall, IsInElement, IsInExpression, IsInIndex, IsInIndices, IsValueOf};
ghost use Rattle.lrc_named_expression_faults.specs.Extent.{AreExtents, Varies, before};
ghost use Rattle.lrc_named_expression_faults.specs.Fault.{IsFirstOf, IsNone, fault_at};
ghost use Rattle.lrc_named_expression_faults.specs.Scope.{declared, sense_of};
ghost use Rattle.lrc_named_expression_faults.specs.View.{scope_of, sense_seen};
ghost use Rattle.lrc_named_expression_faults.specs.declared.fault.FaultKind.TheVariants.{NotConstant};

use crate::counts::{miscalled, miscounted};
use crate::fault::{Fault, FaultKind, earlier};
use crate::scope::{Scope, Sense};
use lrc_named_constants::Constants;
use lrc_named_constants::constancy::Constancy;
use lrc_named_names::names::Meaning;
use lrc_named_tree::tree::{Expression, Name};
use std::alloc::AllocError;

/// Returns the fault of an item with other numbers of indices than these sizes, if it has it.
pub fn wrong_indices(name: Name<'_>, indices: &[Expression<'_>], sizes: &[u32]) -> Option<Fault>
    ensures { IsFirstOf (λ f. AreWrongIndices (named_of name.entry) (expressions_of indices.now) sizes.now f) result }
{
    match miscounted(name.at, indices, sizes) {
        Some(at) => Some(Fault {
            at,
            kind: FaultKind::WrongIndices,
        }),
        None => None,
    }
}

// The fault of a call with other numbers of arguments than are wanted, if it has it.
fn wrong_arguments(arguments: &[Expression<'_>], close: u32, wanted: usize) -> Option<Fault>
    ensures { IsFirstOf (λ f. AreWrongArguments (expressions_of arguments.now) close wanted f) result }
{
    match miscalled(close, arguments, wanted) {
        Some(at) => Some(Fault {
            at,
            kind: FaultKind::WrongArguments,
        }),
        None => None,
    }
}

/// Returns the fault of a name that can have no index, if it has one.
pub fn indexed(name: Name<'_>, indices: &[Expression<'_>]) -> Option<Fault>
    ensures { IsFirstOf (λ f. AreSome (expressions_of indices.now) × IsWrongUse (named_of name.entry) f) result }
{
    match indices {
        [] => None,
        [_, ..] => Some(Fault::at_token(name.at, FaultKind::WrongUse)),
    }
}

// The size at a place, if there is one.
fn size_at(sizes: &[u32], place: usize) -> Option<u32>
    ensures { result ≡ slice_get sizes.now place }
{
    sizes.get(place).copied()
}

impl<'p> Scope<'_, '_, 'p> {
    /// Returns the value of an expression in which names are used as what they are, if it is constant and has a value. It
    /// fails only if memory runs out.
    pub fn value(&self, expression: &Expression<'p>) -> Result<Option<u64>, AllocError>
        requires table { IsSound (declared_of self.now.names.now) }
        requires well { IsWell (declared_of self.now.names.now) (names_of (map known_of self.now.known.now))
            (length (declared_of self.now.names.now)) (expression_of expression.now) }
        ensures { IfOk result (λ value. IsValueOf (scope_of self.now) (expression_of expression.now) value) }
    {
        let constants = Constants {
            alloc: self.alloc,
            names: self.names,
        };
        let constancy = constants.constancy(self.count(), self.known, expression)?;
        match constancy {
            Constancy::Value(value) => Ok(Some(value)),
            Constancy::Varies => Ok(None),
            Constancy::Undefined => Ok(None),
        }
    }

    // The fault of an index without others whose value is not below the size, if it has it.
    fn beyond(&self, index: &Expression<'p>, size: u32) -> Result<Option<Fault>, AllocError>
        requires table { IsSound (declared_of self.now.names.now) }
        requires clean { IsNone (λ f. IsInExpression (scope_of self.now) (expression_of index.now) f) }
        ensures { IfOk result (λ found. IsFirstOf (λ f. IsBeyond
            (λ g. IsInExpression (scope_of self.now) (expression_of index.now) g)
            (scope_of self.now) (expression_of index.now) size f) found) }
    {
        match self.value(index)? {
            Some(value) => {
                if value < u64::from(size) {
                    Ok(None)
                } else {
                    let first = index.first();
                    Ok(Some(Fault::at_token(first, FaultKind::IndexOutOfRange)))
                }
            }
            None => Ok(None),
        }
    }

    // The first fault of an index, by the first one inside it.
    fn in_index(
        &self,
        index: &Expression<'p>,
        size: Option<u32>,
        inside: Option<Fault>,
    ) -> Result<Option<Fault>, AllocError>
        requires table { IsSound (declared_of self.now.names.now) }
        requires inside { IsFirstOf (λ f. IsInExpression (scope_of self.now) (expression_of index.now) f) inside }
        ensures { IfOk result (λ found. IsFirstOf (λ f. IsInIndex
            (λ g. IsInExpression (scope_of self.now) (expression_of index.now) g)
            (scope_of self.now) (expression_of index.now) size f) found) }
    {
        match size {
            None => Ok(inside),
            Some(size) => match inside {
                Some(fault) => Ok(Some(fault)),
                None => self.beyond(index, size),
            },
        }
    }

    // The fault of a name without arguments, if it has one.
    fn in_element(
        &self,
        sense: Sense<'_, '_, 'p>,
        name: Name<'p>,
        indices: &[Expression<'p>],
    ) -> Option<Fault>
        ensures { IsFirstOf (λ f. IsInElement self.now.is_constant (sense_seen sense.entry) (named_of name.entry)
            (expressions_of indices.now) f) result }
    {
        match sense {
            Sense::Unknown => Some(Fault::at_token(name.at, FaultKind::UnknownName)),
            Sense::Parameter => indexed(name, indices),
            Sense::Private => indexed(name, indices),
            Sense::Declared(meaning) => match meaning {
                Meaning::Constant(_) => indexed(name, indices),
                Meaning::Lock(_) => Some(Fault::at_token(name.at, FaultKind::WrongUse)),
                Meaning::Function(_, _) => Some(Fault::at_token(name.at, FaultKind::WrongUse)),
                Meaning::Shared(item) => {
                    let wrong = Fault::at_token(name.at, FaultKind::WrongUse);
                    let own = wrong.only_if(self.is_constant);
                    earlier(own, wrong_indices(name, indices, &item.sizes))
                }
            },
        }
    }

    // The fault of a call where a constant has to stand, of a function that is none, if it has it.
    fn variable(&self, name: Name<'p>) -> Option<Fault>
        requires { AreExtents (declared_of self.now.names.now) self.now.extents.now }
        ensures { (own : List tree.Named) (body : tree.Expression)
            → meaning_of (declared_of self.now.names.now) name.entry.bytes.now ≡ Some (function own body)
            → IsFirstOf (λ f. ((self.now.is_constant ≡ true)
            × Varies (before (declared_of self.now.names.now) name.entry.bytes.now) (bytes_of own) body)
            × (f ≡ fault_at name.entry.at NotConstant)) result }
    {
        if self.is_constant {
            let body = self.body_extent(name.bytes);
            let fault = Fault::at_token(name.at, FaultKind::NotConstant);
            fault.only_if(body.varies)
        } else {
            None
        }
    }

    // The fault of a call of a function with so many parameters, if it has one.
    fn in_function_call(
        &self,
        name: Name<'p>,
        wanted: usize,
        arguments: &[Expression<'p>],
        close: u32,
    ) -> Option<Fault>
        requires { AreExtents (declared_of self.now.names.now) self.now.extents.now }
        ensures { (own : List tree.Named) (body : tree.Expression) → wanted ≡ length own
            → meaning_of (declared_of self.now.names.now) name.entry.bytes.now ≡ Some (function own body)
            → IsFirstOf (λ f. IsInCall (scope_of self.now) (declared (function own body)) (named_of name.entry)
            (expressions_of arguments.now) close f) result }
    {
        let own = self.variable(name);
        earlier(own, wrong_arguments(arguments, close, wanted))
    }

    // The fault of a name with arguments, if it has one.
    fn in_call(&self, name: Name<'p>, arguments: &[Expression<'p>], close: u32) -> Option<Fault>
        requires { AreExtents (declared_of self.now.names.now) self.now.extents.now }
        ensures { IsFirstOf (λ f. IsInCall (scope_of self.now) (sense_of (scope_of self.now) name.entry.bytes.now)
            (named_of name.entry) (expressions_of arguments.now) close f) result }
    {
        match self.sense(name.bytes) {
            Sense::Unknown => Some(Fault::at_token(name.at, FaultKind::UnknownName)),
            Sense::Parameter => Some(Fault::at_token(name.at, FaultKind::WrongUse)),
            Sense::Private => Some(Fault::at_token(name.at, FaultKind::WrongUse)),
            Sense::Declared(meaning) => match meaning {
                Meaning::Constant(_) => Some(Fault::at_token(name.at, FaultKind::WrongUse)),
                Meaning::Shared(_) => Some(Fault::at_token(name.at, FaultKind::WrongUse)),
                Meaning::Lock(_) => Some(Fault::at_token(name.at, FaultKind::WrongUse)),
                Meaning::Function(parameters, _) => {
                    self.in_function_call(name, parameters.len(), arguments, close)
                }
            },
        }
    }

    /// Returns the first fault of an expression, if it has one. It fails only if memory runs out.
    #[cycle(expression)]
    pub fn expression(&self, expression: &Expression<'p>) -> Result<Option<Fault>, AllocError>
        requires table { IsSound (declared_of self.now.names.now) }
        requires extents { AreExtents (declared_of self.now.names.now) self.now.extents.now }
        ensures { IfOk result (λ found. IsFirstOf
            (λ f. IsInExpression (scope_of self.now) (expression_of expression.now) f) found) }
    {
        match expression {
            Expression::Number(_, _) => Ok(None),
            Expression::Me(at) => {
                let fault = Fault::at_token(*at, FaultKind::NotConstant);
                Ok(fault.only_if(self.is_constant))
            }
            Expression::Nodes(at) => {
                let fault = Fault::at_token(*at, FaultKind::NotConstant);
                Ok(fault.only_if(self.is_constant))
            }
            Expression::Element(name, indices, _) => {
                let sense = self.sense(name.bytes);
                let own = self.in_element(sense, *name, indices);
                let inside = self.indices(indices, sense.shared_sizes())?;
                Ok(earlier(own, inside))
            }
            Expression::Call(name, arguments, close) => {
                let own = self.in_call(*name, arguments, *close);
                let inside = self.indices(arguments, &[])?;
                Ok(earlier(own, inside))
            }
            Expression::Group(_, inside, _) => {
                let found = self.expression(inside)?;
                Ok(found)
            }
            Expression::Not(_, operand) => {
                let found = self.expression(operand)?;
                Ok(found)
            }
            Expression::Binary(left, _, right) => {
                let one = self.expression(left)?;
                let other = self.expression(right)?;
                Ok(earlier(one, other))
            }
            Expression::And(left, right) => {
                let one = self.expression(left)?;
                let other = self.expression(right)?;
                Ok(earlier(one, other))
            }
            Expression::Or(left, right) => {
                let one = self.expression(left)?;
                let other = self.expression(right)?;
                Ok(earlier(one, other))
            }
        }
    }

    /// Returns the first fault of these indices, of which each has to be below its size, if there is one for it; or of
    /// arguments, with no sizes. It fails only if memory runs out.
    #[cycle(expression)]
    pub fn indices(
        &self,
        indices: &[Expression<'p>],
        sizes: &[u32],
    ) -> Result<Option<Fault>, AllocError>
        requires table { IsSound (declared_of self.now.names.now) }
        requires extents { AreExtents (declared_of self.now.names.now) self.now.extents.now }
        ensures { IfOk result (λ found. IsFirstOf
            (λ f. IsInIndices (scope_of self.now) (expressions_of indices.now) sizes.now f) found) }
    {
        let mut first = None;
        for i in (0..indices.len()).rev() {
            let index = &indices[i];
            let inside = self.expression(index)?;
            let one = self.in_index(index, size_at(sizes, i), inside)?;
            first = earlier(one, first);
        }
        Ok(first)
    }
}
