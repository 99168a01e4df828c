// Tokens: what a text is made of, once spaces and comments are left out.

/// A reserved word: no private name may be one.
#[derive(Clone, Copy)]
pub enum Keyword {
    Words,
    Locks,
    Acquire,
    Release,
    Barrier,
    Print,
    If,
    Else,
    While,
    Me,
    Nodes,
}

/// A sign.
#[derive(Clone, Copy, PartialEq, Eq)]
pub enum Sign {
    /// `;`
    Semicolon,
    /// `=`
    Assign,
    /// `[`
    OpenBracket,
    /// `]`
    CloseBracket,
    /// `{`
    OpenBrace,
    /// `}`
    CloseBrace,
    /// `(`
    OpenParenthesis,
    /// `)`
    CloseParenthesis,
    /// `+`
    Plus,
    /// `-`
    Minus,
    /// `*`
    Star,
    /// `/`
    Slash,
    /// `%`
    Percent,
    /// `==`
    Equal,
    /// `!=`
    NotEqual,
    /// `<`
    Less,
    /// `<=`
    LessOrEqual,
    /// `>`
    Greater,
    /// `>=`
    GreaterOrEqual,
}

/// A token of a text. A name is given by the bytes that spell it.
#[derive(Clone, Copy)]
pub enum Token<'t> {
    Number(u64),
    Name(&'t [u8]),
    Keyword(Keyword),
    Sign(Sign),
    /// The end of the text.
    End,
}

/// A lexeme: a token of a text, or bytes that are no token.
#[derive(Clone, Copy)]
pub enum Lexeme<'t> {
    Token(Token<'t>),
    /// A byte that begins no token.
    BadByte,
    /// Digits whose value is over 2^64 - 1, or that a letter or `_` directly follows.
    BadNumber,
}

/// A lexeme, and the line of its first byte. Lines are counted from 1, by line feeds.
#[derive(Clone, Copy)]
pub struct Placed<'t> {
    pub line: u32,
    pub lexeme: Lexeme<'t>,
}
