// The faults of declarations.

ghost use Rattle.std.specs.Prelude.{◌≡◌, ◌||◌, IfOk, [], map, nat_lt};
ghost use Rattle.lrc_named_tree.specs.Tree.{constant, function, node_count};
ghost use Rattle.lrc_named_tree.specs.View.{declaration_of, expression_of, named_of};
ghost use Rattle.lrc_named_names.specs.View.{declared_of};
ghost use Rattle.lrc_named_constants.specs.View.{known_of};
ghost use Rattle.lrc_named_expression_faults.specs.Fault.{IsFirstOf};
ghost use Rattle.lrc_named_faults.specs.Declarations.{IsInDeclaration, body_scope, constant_scope, varying};
ghost use Rattle.lrc_named_faults.specs.Found.{IsFunctionFound, IsNamedConstantFound, IsTaken};
ghost use Rattle.lrc_named_faults.specs.Layout.{IsLaidOut};
ghost use Rattle.lrc_named_faults.specs.Values.{IsBodyFound, IsConstantFound};

use crate::items::Kind;
use crate::layout::Layout;
use crate::values::{Found, body, constant_value, in_name, in_parameters, told};
use lrc_named_constants::constancy::{Constancy, Known};
use lrc_named_expression_faults::extent::Extent;
use lrc_named_expression_faults::fault::{Fault, FaultKind, Limit, earlier};
use lrc_named_expression_faults::scope::Scope;
use lrc_named_expression_faults::spelled::Spelled;
use lrc_named_names::names::Meaning;
use lrc_named_tree::tree::{Declaration, Expression, Name};
use std::alloc::{AllocError, Global};

// Whether a program cannot have so many nodes.
fn is_no_count(count: u64) -> bool
    ensures { result ≡ (nat_lt count 1 || nat_lt 16 count) }
{
    count < 1 || count > 16
}

// The fault of a number of nodes, where one may stand before it.
fn in_node_count(before: Option<u64>, at: u32, count: u64) -> Option<Fault>
    ensures { IsFirstOf (λ f. IsInDeclaration before [] (node_count at count) f) result }
{
    let twice = Fault::at_token(at, FaultKind::DeclaredTwice);
    let wrong = Fault {
        at: u64::from(at) + 1,
        kind: FaultKind::OverLimit(Limit::NodeCount),
    };
    let second = twice.only_if(before.is_some());
    let over = wrong.only_if(is_no_count(count));
    earlier(second, over)
}

// The parameters of a function, of which nothing is known.
fn varying<'p>(alloc: Global, parameters: &[Name<'p>]) -> Result<Vec<Known<'p>>, AllocError>
    ensures { IfOk result (λ known. map known_of known.items ≡ varying (map named_of parameters.now)) }
{
    let mut known = Vec::new(alloc);
    for parameter in parameters {
        known.push(Known {
            name: parameter.bytes,
            constancy: Constancy::Varies,
        })?;
    }
    Ok(known)
}

// The extent of what has no body.
fn nothing() -> Extent {
    Extent {
        varies: false,
        weight: 0,
    }
}

impl<'n, 'p> Layout<'n, 'p> {
    // The value of a constant that is declared next, or its first fault.
    fn constant_value(
        &self,
        alloc: Global,
        value: &Expression<'p>,
    ) -> Result<Found<u64>, AllocError>
        requires { IsLaidOut self.now }
        ensures { IfOk result (λ found. IsConstantFound (constant_scope (declared_of self.now.names))
            (expression_of value.now) found) }
    {
        let none = Spelled::none(alloc);
        let scope = Scope {
            alloc,
            names: &self.names,
            extents: &self.extents,
            known: &[],
            parameters: &none,
            assigned: &none,
            is_constant: true,
        };
        constant_value(&scope, value)
    }

    // The value of a constant that is declared next, or its first fault, those of its name among them.
    fn constant(
        &self,
        alloc: Global,
        name: Name<'p>,
        value: &Expression<'p>,
    ) -> Result<Found<u64>, AllocError>
        requires { IsLaidOut self.now }
        ensures { IfOk result (λ found. IsNamedConstantFound (declared_of self.now.names) (named_of name.entry)
            (expression_of value.now) found) }
    {
        let own = in_name(&self.names, false, name);
        let found = self.constant_value(alloc, value)?;
        match found {
            Found::Bad(fault) => Ok(Found::Bad(told(own, fault))),
            Found::Good(value) => match own {
                Some(fault) => Ok(Found::Bad(fault)),
                None => Ok(Found::Good(value)),
            },
        }
    }

    // What stands in the body of a function with these parameters that is declared next, or its first fault.
    fn body(
        &self,
        alloc: Global,
        parameters: &[Name<'p>],
        expression: &Expression<'p>,
    ) -> Result<Found<Extent>, AllocError>
        requires { IsLaidOut self.now }
        ensures { IfOk result (λ found. IsBodyFound (body_scope (declared_of self.now.names)
            (map named_of parameters.now)) (expression_of expression.now) found) }
    {
        let known = varying(alloc, parameters)?;
        let spelled = Spelled::of(alloc, parameters)?;
        let none = Spelled::none(alloc);
        let scope = Scope {
            alloc,
            names: &self.names,
            extents: &self.extents,
            known: &known,
            parameters: &spelled,
            assigned: &none,
            is_constant: false,
        };
        body(&scope, expression)
    }

    // The same, the faults of its name and its parameters among them.
    fn function(
        &self,
        alloc: Global,
        name: Name<'p>,
        parameters: &[Name<'p>],
        expression: &Expression<'p>,
    ) -> Result<Found<Extent>, AllocError>
        requires { IsLaidOut self.now }
        ensures { IfOk result (λ found. IsFunctionFound (declared_of self.now.names) (named_of name.entry)
            (map named_of parameters.now) (expression_of expression.now) found) }
    {
        let first = in_name(&self.names, false, name);
        let spelled = Spelled::of(alloc, parameters)?;
        let others = in_parameters(&self.names, name, &spelled);
        let own = earlier(first, others);
        let found = self.body(alloc, parameters, expression)?;
        match found {
            Found::Bad(fault) => Ok(Found::Bad(told(own, fault))),
            Found::Good(extent) => match own {
                Some(fault) => Ok(Found::Bad(fault)),
                None => Ok(Found::Good(extent)),
            },
        }
    }

    // Declares a constant, or returns its first fault.
    fn declare_constant(
        &mut self,
        alloc: Global,
        at: u32,
        name: Name<'p>,
        value: &Expression<'p>,
    ) -> Result<Option<Fault>, AllocError>
        requires { IsLaidOut self.old }
        ensures { IfOk result (λ found. IsTaken self.old self.new
            (constant at (named_of name.entry) (expression_of value.now)) found) }
    {
        match self.constant(alloc, name, value)? {
            Found::Bad(fault) => Ok(Some(fault)),
            Found::Good(value) => {
                self.declare(name, Meaning::Constant(value), nothing())?;
                Ok(None)
            }
        }
    }

    // Declares a function, or returns its first fault.
    fn declare_function(
        &mut self,
        alloc: Global,
        at: u32,
        name: Name<'p>,
        parameters: &'n [Name<'p>],
        expression: &'n Expression<'p>,
    ) -> Result<Option<Fault>, AllocError>
        requires { IsLaidOut self.old }
        ensures { IfOk result (λ found. IsTaken self.old self.new
            (function at (named_of name.entry) (map named_of parameters.now) (expression_of expression.now)) found) }
    {
        match self.function(alloc, name, parameters, expression)? {
            Found::Bad(fault) => Ok(Some(fault)),
            Found::Good(extent) => {
                self.declare(name, Meaning::Function(parameters, expression), extent)?;
                Ok(None)
            }
        }
    }

    // Counts the nodes, or returns the fault of their number.
    fn count_nodes(&mut self, at: u32, count: u64) -> Option<Fault>
        requires { IsLaidOut self.old }
        ensures { IsTaken self.old self.new (node_count at count) result }
    {
        let fault = in_node_count(self.nodes, at, count);
        self.nodes = Some(count);
        fault
    }

    // Declares what a declaration declares, or returns its first fault.
    pub(crate) fn declaration(
        &mut self,
        alloc: Global,
        declaration: &'n Declaration<'p>,
    ) -> Result<Option<Fault>, AllocError>
        requires { IsLaidOut self.old }
        ensures { IfOk result (λ found. IsTaken self.old self.new (declaration_of declaration.now) found) }
    {
        match declaration {
            Declaration::Nodes(at, count) => Ok(self.count_nodes(*at, *count)),
            Declaration::Const(at, name, value) => self.declare_constant(alloc, *at, *name, value),
            Declaration::Shared(_, items) => self.items(alloc, Kind::Words, items),
            Declaration::Lock(_, items) => self.items(alloc, Kind::Locks, items),
            Declaration::Function(at, name, parameters, expression) => {
                self.declare_function(alloc, *at, *name, parameters, expression)
            }
        }
    }
}
