// Tokens: what a text is made of, once blanks and comments are left out.

/// A reserved word: no name may be one.
#[derive(Clone, Copy)]
pub enum Keyword {
    Words,
    Locks,
    Acquire,
    Release,
    Barrier,
    Print,
    If,
    Else,
    While,
    Me,
    Nodes,
    Const,
    Shared,
    Lock,
    Fn,
    For,
    In,
    With,
    Assert,
    And,
    Or,
    Not,
}

/// A sign.
#[derive(Clone, Copy, PartialEq, Eq)]
pub enum Sign {
    /// `;`
    Semicolon,
    /// `=`
    Assign,
    /// `[`
    OpenBracket,
    /// `]`
    CloseBracket,
    /// `{`
    OpenBrace,
    /// `}`
    CloseBrace,
    /// `(`
    OpenParenthesis,
    /// `)`
    CloseParenthesis,
    /// `+`
    Plus,
    /// `-`
    Minus,
    /// `*`
    Star,
    /// `/`
    Slash,
    /// `%`
    Percent,
    /// `==`
    Equal,
    /// `!=`
    NotEqual,
    /// `<`
    Less,
    /// `<=`
    LessOrEqual,
    /// `>`
    Greater,
    /// `>=`
    GreaterOrEqual,
    /// `,`
    Comma,
    /// `..`
    Range,
    /// `+=`
    AddAssign,
    /// `-=`
    SubtractAssign,
}

/// A token of a text. A name is given by the bytes that spell it.
#[derive(Clone, Copy)]
pub enum Token<'t> {
    Number(u64),
    Name(&'t [u8]),
    Keyword(Keyword),
    Sign(Sign),
    /// The end of the text.
    End,
}

/// A lexeme: a token of a text, or bytes that are no token.
#[derive(Clone, Copy)]
pub enum Lexeme<'t> {
    Token(Token<'t>),
    /// A byte that begins no token.
    BadByte,
    /// Digits whose value is over 2^64 - 1, or that a letter or `_` directly follows.
    BadNumber,
}

/// A place in a text.
#[derive(Clone, Copy)]
pub struct Place {
    /// The line, counted from 1 by line feeds.
    pub line: u32,
    /// The column, counted from 1 in bytes.
    pub column: u32,
    /// How many bytes of the text come before it.
    pub offset: u32,
}

/// A lexeme of a text, and where its first byte is.
#[derive(Clone, Copy)]
pub struct Located<'t> {
    pub place: Place,
    pub lexeme: Lexeme<'t>,
}
