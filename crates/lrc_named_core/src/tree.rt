// The trees of a core. A token is given by its index among the tokens of the named program's text, from 0.

ghost use Rattle.std.specs.Prelude.{◌≡◌};
ghost use Rattle.lrc_named_core.specs.Tree.{has_division, has_name};
ghost use Rattle.lrc_named_core.specs.Shape.{tree_of};

use lrc_program::Operator;
use std::rc::Rc;

/// A private name.
#[derive(Clone, Copy)]
pub enum Private<'p> {
    /// A private name of the named program: the bytes that spell it.
    Named(&'p [u8]),
    /// `_1`, `_2`, ..: a name of the translation's own. Its number, and with which token of the text that expression
    /// begins and ends whose value the name holds.
    Own(u32, u32, u32),
}

/// How an expression of the core is built. The sides of an operator are shared by its copies.
#[derive(Drop)]
pub enum Tree<'p> {
    Number(u64),
    Private(Private<'p>),
    Me,
    Nodes,
    Binary(Rc<Tree<'p>>, Operator, Rc<Tree<'p>>),
}

/// An expression of the core. It may stand for many more operators than it has parts, so that what the translation asks of
/// it is kept beside it.
#[derive(Drop)]
pub struct Expression<'p> {
    pub tree: Tree<'p>,
    /// Whether it has a division or a remainder.
    pub divides: bool,
    /// Whether it has a private name, also one of the translation's own.
    pub names: bool,
    ghost divides_is: { divides ≡ has_division (tree_of tree) },
    ghost names_is: { names ≡ has_name (tree_of tree) },
}

/// What a trap of a statement says of the named program, besides the core's words.
#[derive(Clone, Copy)]
pub enum Trap<'p> {
    /// Nothing.
    Plain,
    /// An assertion does not hold.
    Assertion,
    /// An index of the item of this name is out of range.
    Index(&'p [u8]),
}

/// What a statement of the core comes from.
#[derive(Clone, Copy)]
pub struct Origin<'p> {
    /// With which token the statement begins that it comes from: of an `else if`, its `if`.
    pub statement: u32,
    /// The token on whose line the statement lies.
    pub line: u32,
    pub trap: Trap<'p>,
}

/// A statement of the core, with what it comes from.
#[derive(Drop)]
pub enum Statement<'p> {
    /// `name = value;`
    Assign(Origin<'p>, Private<'p>, Expression<'p>),
    /// `name = [word];`
    Read(Origin<'p>, Private<'p>, Expression<'p>),
    /// `[word] = value;`
    Write(Origin<'p>, Expression<'p>, Expression<'p>),
    /// `acquire lock;`
    Acquire(Origin<'p>, Expression<'p>),
    /// `release lock;`
    Release(Origin<'p>, Expression<'p>),
    /// `barrier;`
    Barrier(Origin<'p>),
    /// `print value;`
    Print(Origin<'p>, Expression<'p>),
    /// `if condition { .. } else { .. }`; without `else` the second list is empty
    If(Origin<'p>, Expression<'p>, Vec<Statement<'p>>, Vec<Statement<'p>>),
    /// `while condition { .. }`
    While(Origin<'p>, Expression<'p>, Vec<Statement<'p>>),
}
