// The trees of a named program. A token is given by its index among the tokens of the text, from 0.

use lrc_program::Operator;

/// A name, where it stands.
#[derive(Clone, Copy)]
pub struct Name<'t> {
    /// Which token it is.
    pub at: u32,
    /// The bytes that spell it.
    pub bytes: &'t [u8],
}

/// An expression.
#[derive(Drop)]
pub enum Expression<'t> {
    /// A number: which token it is, and its value.
    Number(u32, u64),
    /// `me`
    Me(u32),
    /// `nodes`
    Nodes(u32),
    /// `name[index]..`: a name, its indices, of which there may be none, and which token comes last
    Element(Name<'t>, Vec<Expression<'t>>, u32),
    /// `name(argument, ..)`: a name, its arguments, and which token the `)` is
    Call(Name<'t>, Vec<Expression<'t>>, u32),
    /// `(inside)`: which token the `(` is, what stands in the parentheses, and which token the `)` is
    Group(u32, Box<Expression<'t>>, u32),
    /// `not operand`: which token the `not` is, and what it negates
    Not(u32, Box<Expression<'t>>),
    /// The left side, an operator of the core and the right side.
    Binary(Box<Expression<'t>>, Operator, Box<Expression<'t>>),
    /// `left and right`
    And(Box<Expression<'t>>, Box<Expression<'t>>),
    /// `left or right`
    Or(Box<Expression<'t>>, Box<Expression<'t>>),
}

/// A shared word, an element of an array, or a lock: a name and its indices, of which there may be none. In a
/// declaration the sizes stand in place of the indices.
#[derive(Drop)]
pub struct Place<'t> {
    pub name: Name<'t>,
    pub indices: Vec<Expression<'t>>,
}

/// How a statement sets a place.
#[derive(Clone, Copy)]
pub enum Update {
    /// `=`: to the value
    Set,
    /// `+=`: to what it was, and the value
    Add,
    /// `-=`: to what it was, less the value
    Subtract,
}

/// An `else if`: its condition, and the block that it guards.
#[cycle(statement)]
#[derive(Drop)]
pub struct Arm<'t> {
    /// Which token its `if` is.
    pub at: u32,
    pub condition: Expression<'t>,
    pub block: Vec<Statement<'t>>,
}

/// A statement. The first number is which token it begins with.
#[cycle(statement)]
#[derive(Drop)]
pub enum Statement<'t> {
    /// `place = value;`, `place += value;` or `place -= value;`
    Assign(Place<'t>, Update, Expression<'t>),
    /// `acquire place;`
    Acquire(u32, Place<'t>),
    /// `release place;`
    Release(u32, Place<'t>),
    /// `with place { .. }`: at last, which token the `}` is
    With(u32, Place<'t>, Vec<Statement<'t>>, u32),
    /// `barrier;`
    Barrier(u32),
    /// `print value, ..;`
    Print(u32, Vec<Expression<'t>>),
    /// `assert condition;`
    Assert(u32, Expression<'t>),
    /// `if condition { .. } else if condition { .. } else { .. }`: the first condition and its block, each `else if` in
    /// order, and the last block, which is empty where no `else` stands alone
    If(u32, Expression<'t>, Vec<Statement<'t>>, Vec<Arm<'t>>, Vec<Statement<'t>>),
    /// `while condition { .. }`
    While(u32, Expression<'t>, Vec<Statement<'t>>),
    /// `for name in first..end { .. }`
    For(u32, Name<'t>, Expression<'t>, Expression<'t>, Vec<Statement<'t>>),
}

/// A declaration. The first number is which token it begins with.
#[derive(Drop)]
pub enum Declaration<'t> {
    /// `nodes number;`
    Nodes(u32, u64),
    /// `const name = value;`
    Const(u32, Name<'t>, Expression<'t>),
    /// `shared name[size].., ..;`
    Shared(u32, Vec<Place<'t>>),
    /// `lock name[size].., ..;`
    Lock(u32, Vec<Place<'t>>),
    /// `fn name(parameter, ..) = body;`
    Function(u32, Name<'t>, Vec<Name<'t>>, Expression<'t>),
}

/// A named program: its declarations, of which there is at least one, and its statements.
#[derive(Drop)]
pub struct NamedProgram<'t> {
    pub declarations: Vec<Declaration<'t>>,
    pub statements: Vec<Statement<'t>>,
}
