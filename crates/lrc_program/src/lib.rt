//! The syntax trees of the programs that run on the shared memory: operators, expressions, statements, and programs
//! within the limits of the language.
#![tactic(auto)]

ghost use Rattle.std.specs.Prelude.{◌≡◌, ◌≤◌};
ghost use Rattle.lrc_program.specs.declared.TheConstants.{MOST_WORDS};
ghost use Rattle.lrc_program.specs.Sizes.{names_in, depth_of, most_operators};
ghost use Rattle.lrc_program.specs.Statements.{block_of};

/// The largest number of words of a program's shared memory.
pub const MOST_WORDS: u32 = 65_536;

/// An operator. Values are u64, and sums, differences and products wrap. A comparison gives 1 or 0.
#[derive(Clone, Copy, PartialEq, Eq)]
pub enum Operator {
    Add,
    Subtract,
    Multiply,
    Divide,
    Remainder,
    Equal,
    NotEqual,
    Less,
    LessOrEqual,
    Greater,
    GreaterOrEqual,
}

/// An expression. A private name is given by its number in the text: 0 for the first name, 1 for the next different
/// one, and so on up to 31.
#[derive(Drop)]
pub enum Expression {
    /// A number in the text.
    Number(u64),
    /// A private name.
    Private(u8),
    /// The number of the node that runs the program.
    Me,
    /// How many nodes run the program.
    Nodes,
    /// The left side, the operator and the right side. The left side is evaluated first.
    Binary(Box<Expression>, Operator, Box<Expression>),
}

/// A statement.
#[derive(Drop)]
pub enum Statement {
    /// `name = value;`
    Assign(u8, Expression),
    /// `name = [word];`, a shared read
    Read(u8, Expression),
    /// `[word] = value;`, a shared write
    Write(Expression, Expression),
    /// `acquire lock;`
    Acquire(Expression),
    /// `release lock;`
    Release(Expression),
    /// `barrier;`
    Barrier,
    /// `print value;`
    Print(Expression),
    /// `if condition { .. } else { .. }`; without `else` the second list is empty
    If(Expression, Vec<Statement>, Vec<Statement>),
    /// `while condition { .. }`
    While(Expression, Vec<Statement>),
}

/// A program: its number of words of shared memory, its number of locks, and its statements. Every value of this type
/// is within the limits of the language, so a walk through its trees nests no deeper than they allow.
#[derive(Drop)]
pub struct Program {
    pub words: u32,
    pub locks: u8,
    pub statements: Vec<Statement>,
    /// It has 1 to 65,536 words.
    pub ghost some_words: { 1 ≤ words },
    pub ghost few_words: { words ≤ MOST_WORDS },
    /// It has at most 64 locks.
    pub ghost few_locks: { locks ≤ 64 },
    /// Each private name has a number below 32.
    pub ghost few_names: { names_in (block_of statements.items) ≤ 32 },
    /// Blocks nest at most 32 deep.
    pub ghost shallow: { depth_of (block_of statements.items) ≤ 32 },
    /// No expression has more than 256 operators, so none nests deeper than that.
    pub ghost short: { most_operators (block_of statements.items) ≤ 256 },
}

impl Program {
    /// Returns the number of words of the shared memory, 1 to 65,536.
    pub fn words(&self) -> u32
        ensures { result ≡ self.now.words }
    {
        self.words
    }

    /// Returns the number of locks, 0 to 64.
    pub fn locks(&self) -> u8
        ensures { result ≡ self.now.locks }
    {
        self.locks
    }
}

/// The limit on words is 65,536.
pub fn the_most_words()
    ensures { MOST_WORDS ≡ 65536 }
{}
