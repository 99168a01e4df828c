// Which texts are named programs.

ghost use Rattle.std.specs.Prelude.{◌↔◌, map, IsTrue};
ghost use Rattle.lrc_named_parse.specs.Faults.{BeginsNamed, FirstBeginsNamed};
ghost use Rattle.lrc_named_tokens.specs.View.{lexeme_of, located_of};

use lrc_named_tokens::token::{Keyword, Lexeme, Located, Token};

/// Returns whether a text with these lexemes is read as a named program, and not as one of the core: whether its first
/// token is `nodes`, `const`, `shared`, `lock` or `fn`.
pub fn is_named(lexemes: &[Located<'_>]) -> bool
    ensures { IsTrue result ↔ FirstBeginsNamed (map located_of lexemes.now) }
{
    match lexemes.first() {
        Some(first) => begins_named(first.lexeme),
        None => false,
    }
}

fn begins_named(lexeme: Lexeme<'_>) -> bool
    ensures { IsTrue result ↔ BeginsNamed (lexeme_of lexeme.entry) }
{
    matches!(
        lexeme,
        Lexeme::Token(Token::Keyword(
            Keyword::Nodes | Keyword::Const | Keyword::Shared | Keyword::Lock | Keyword::Fn
        ))
    )
}
