// Hints for a token that no program has where it stands: a function for each, tried in this order.

ghost use Rattle.std.specs.Prelude.{◌≡◌, Some};
ghost use Rattle.std.specs.Option.{option_map};
ghost use Rattle.lrc_lang.specs.Parser.Located.{located_of};
ghost use Rattle.lrc_lint_fault.specs.Hint.{hint_words, words_of};
ghost use Rattle.lrc_lint_fault.specs.HintTable.{array_row, begins_comment, behind_else_row, block_row, bracket_rows, call_row, comment_row};
ghost use Rattle.lrc_lint_fault.specs.HintTable.{comparisons_row, ends_comment_sign, ends_statement, expression_rows, first_row, is_at_once_behind_slash};
ghost use Rattle.lrc_lint_fault.specs.HintTable.{is_behind_else, is_comment_byte, is_declaration, is_keyword_as_name, is_lock_word, is_not_closed};
ghost use Rattle.lrc_lint_fault.specs.HintTable.{is_other_comparison, is_shared_read, is_some_name, keyword_as_name_row, keyword_rows, keyword_set_row};
ghost use Rattle.lrc_lint_fault.specs.HintTable.{missing_row, name_before, name_rows, negative_row, no_brace_row, not_closed_row, one_comparison_row};
ghost use Rattle.lrc_lint_fault.specs.HintTable.{open_brace_row, opening_name, seen_of, semicolon_row, set_in_brackets_row, shared_read_row, shared_rows};
ghost use Rattle.lrc_lint_fault.specs.HintTable.{shared_write_row, statement_rows, stray_else_row, unexpected_rows};

use crate::bad_byte::{byte_at, header};
use crate::brackets::Brackets;
use crate::fault::{Fault, is_sign, spelling};
use crate::hint::Hint;
use lrc_lang::lexer::spelling_of;
use lrc_lang::positions::Located;
use lrc_lang::token::{Keyword, Sign};

/// Returns the first hint that applies to an unexpected token.
pub fn unexpected_hint<'t>(fault: &Fault<'t>) -> Option<Hint<'t>>
    ensures { words_of result ≡ first_row (unexpected_rows (seen_of fault.now)) }
{
    comment(fault)
        .or(header(fault))
        .or(first_behind_name(fault, fault.opening_name()))
        .or(first_of_keywords(fault))
        .or(first_of_statements(fault))
        .or(first_of_shared(fault))
        .or(first_of_expressions(fault))
        .or(first_of_brackets(fault))
}

fn comment<'t>(fault: &Fault<'t>) -> Option<Hint<'t>>
    ensures { words_of result ≡ comment_row (seen_of fault.now) }
{
    Hint::Comment.only_if(begins_comment(fault) || ends_comment_sign(fault))
}

// `/`, and behind it at once `/` or `*`.
fn begins_comment(fault: &Fault<'_>) -> bool
    ensures { result ≡ begins_comment (seen_of fault.now) }
{
    fault.is(Sign::Slash) && is_comment_byte(byte_at(fault.text, fault.found.offset as usize + 1))
}

/// Returns whether a comment is begun or ended elsewhere by `/` and this byte.
pub fn is_comment_byte(byte: Option<u8>) -> bool
    ensures { result ≡ is_comment_byte byte }
{
    match byte {
        Some(byte) => byte == b'/' || byte == b'*',
        None => false,
    }
}

// `/` or `*`, and before it at once `/`.
fn ends_comment_sign(fault: &Fault<'_>) -> bool
    ensures { result ≡ ends_comment_sign (seen_of fault.now) }
{
    (fault.is(Sign::Slash) || fault.is(Sign::Star)) && is_at_once_behind_slash(fault)
}

fn is_at_once_behind_slash(fault: &Fault<'_>) -> bool
    ensures { result ≡ is_at_once_behind_slash (seen_of fault.now).previous
        (seen_of fault.now).found }
{
    match fault.previous {
        Some(previous) => {
            is_sign(previous.lexeme, Sign::Slash)
                && fault.found.offset.saturating_sub(previous.offset) == 1
        }
        None => false,
    }
}

// Behind a name that begins a statement.
fn first_behind_name<'t>(fault: &Fault<'t>, opening: Option<&'t [u8]>) -> Option<Hint<'t>>
    ensures { words_of result ≡ first_row (name_rows (seen_of fault.now)
        (option_map (λ name. name.now) opening.entry)) }
{
    let name = opening?;
    Some(hint_behind_name(fault, name))
}

fn hint_behind_name<'t>(fault: &Fault<'t>, name: &'t [u8]) -> Hint<'t>
    ensures { Some (hint_words result)
        ≡ first_row (name_rows (seen_of fault.now) (Some name.now)) }
{
    if name == b"for".as_slice() {
        Hint::For
    } else if is_declaration(name) {
        Hint::Declaration
    } else if is_lock_word(name) {
        Hint::Lock
    } else if fault.is(Sign::OpenBracket) {
        Hint::Arrays
    } else if fault.is_operator() {
        Hint::Compound(name, fault.spelling())
    } else {
        Hint::NoKeyword(name)
    }
}

// The word with which a declaration begins elsewhere.
fn is_declaration(word: &[u8]) -> bool
    ensures { result ≡ is_declaration word.now }
{
    word == b"let".as_slice()
        || word == b"var".as_slice()
        || word == b"const".as_slice()
        || word == b"int".as_slice()
}

fn is_lock_word(word: &[u8]) -> bool
    ensures { result ≡ is_lock_word word.now }
{
    word == b"lock".as_slice() || word == b"unlock".as_slice()
}

fn first_of_keywords<'t>(fault: &Fault<'t>) -> Option<Hint<'t>>
    ensures { words_of result ≡ first_row (keyword_rows (seen_of fault.now)) }
{
    behind_else(fault)
        .or(stray_else(fault))
        .or(keyword_as_name(fault))
        .or(keyword_set(fault))
}

fn behind_else<'t>(fault: &Fault<'t>) -> Option<Hint<'t>>
    ensures { words_of result ≡ behind_else_row (seen_of fault.now) }
{
    Hint::BehindElse.only_if(is_behind_else(fault.keyword_before()))
}

fn is_behind_else(before: Option<Keyword>) -> bool
    ensures { result ≡ is_behind_else before }
{
    matches!(before, Some(Keyword::Else))
}

fn stray_else<'t>(fault: &Fault<'t>) -> Option<Hint<'t>>
    ensures { words_of result ≡ stray_else_row (seen_of fault.now) }
{
    Hint::Else.only_if(fault.is_else())
}

fn keyword_as_name<'t>(fault: &Fault<'t>) -> Option<Hint<'t>>
    ensures { words_of result ≡ keyword_as_name_row (seen_of fault.now) }
{
    Hint::Keyword(fault.spelling()).only_if(is_keyword_as_name(fault))
}

fn is_keyword_as_name(fault: &Fault<'_>) -> bool
    ensures { result ≡ is_keyword_as_name (seen_of fault.now) }
{
    fault.is_keyword()
        && (fault.may_begin_statement()
            || (fault.may_begin_operand() && fault.is_on_line_of_previous()))
}

fn keyword_set<'t>(fault: &Fault<'t>) -> Option<Hint<'t>>
    ensures { words_of result ≡ keyword_set_row (seen_of fault.now) }
{
    let keyword = fault.keyword_before()?;
    Hint::Keyword(spelling_of(keyword)).only_if(fault.is(Sign::Assign) && fault.may_begin_operand())
}

// Where a statement may stand.
fn first_of_statements<'t>(fault: &Fault<'t>) -> Option<Hint<'t>>
    ensures { words_of result ≡ first_row (statement_rows (seen_of fault.now)) }
{
    semicolon(fault).or(no_brace(fault)).or(open_brace(fault))
}

fn semicolon<'t>(fault: &Fault<'t>) -> Option<Hint<'t>>
    ensures { words_of result ≡ semicolon_row (seen_of fault.now) }
{
    Hint::Semicolon.only_if(fault.is(Sign::Semicolon) && fault.may_begin_statement())
}

fn no_brace<'t>(fault: &Fault<'t>) -> Option<Hint<'t>>
    ensures { words_of result ≡ no_brace_row (seen_of fault.now) }
{
    Hint::NoBrace.only_if(fault.is(Sign::CloseBrace) && fault.may_begin_statement())
}

fn open_brace<'t>(fault: &Fault<'t>) -> Option<Hint<'t>>
    ensures { words_of result ≡ open_brace_row (seen_of fault.now) }
{
    Brackets::Braces.last_open_if(fault.is_end() && fault.may_begin_statement(), fault.before)
}

fn first_of_shared<'t>(fault: &Fault<'t>) -> Option<Hint<'t>>
    ensures { words_of result ≡ first_row (shared_rows (seen_of fault.now)) }
{
    shared_read(fault)
        .or(missing_semicolon(fault))
        .or(shared_write(fault))
}

fn shared_read<'t>(fault: &Fault<'t>) -> Option<Hint<'t>>
    ensures { words_of result ≡ shared_read_row (seen_of fault.now) }
{
    Hint::SharedRead.only_if(is_shared_read(fault))
}

fn is_shared_read(fault: &Fault<'_>) -> bool
    ensures { result ≡ is_shared_read (seen_of fault.now) }
{
    (fault.is(Sign::OpenBracket) && fault.may_begin_operand())
        || ((fault.is_operator() || fault.is_comparison())
            && (fault.is_behind(Sign::CloseBracket) && fault.may_sign(Sign::Semicolon)))
}

fn missing_semicolon<'t>(fault: &Fault<'t>) -> Option<Hint<'t>>
    ensures { words_of result ≡ missing_row (seen_of fault.now) }
{
    let previous = fault.previous?;
    Hint::Missing(spelling(fault.text, previous), previous.line).only_if(
        fault.may_sign(Sign::Semicolon) && ends_statement(fault, previous),
    )
}

// Whether what was found looks like the end of a statement or the beginning of the next.
fn ends_statement(fault: &Fault<'_>, previous: Located<'_>) -> bool
    ensures { result ≡ ends_statement (seen_of fault.now) (located_of previous.entry) }
{
    fault.is_end()
        || (fault.is(Sign::CloseBrace)
            || (fault.is_statement_keyword()
                || ((fault.is_name() || fault.is(Sign::OpenBracket))
                    && previous.line < fault.found.line)))
}

fn shared_write<'t>(fault: &Fault<'t>) -> Option<Hint<'t>>
    ensures { words_of result ≡ shared_write_row (seen_of fault.now) }
{
    Hint::SharedWrite.only_if(fault.is_behind(Sign::CloseBracket) && fault.may_sign(Sign::Assign))
}

fn first_of_expressions<'t>(fault: &Fault<'t>) -> Option<Hint<'t>>
    ensures { words_of result ≡ first_row (expression_rows (seen_of fault.now)) }
{
    set_in_brackets(fault)
        .or(comparisons(fault))
        .or(one_comparison(fault))
        .or(negative(fault))
        .or(call(fault))
        .or(array(fault))
}

fn set_in_brackets<'t>(fault: &Fault<'t>) -> Option<Hint<'t>>
    ensures { words_of result ≡ set_in_brackets_row (seen_of fault.now) }
{
    let applies = fault.is(Sign::Assign) && fault.may_sign(Sign::CloseBracket);
    Brackets::InExpressions.last_open_if(applies, fault.before)
}

fn comparisons<'t>(fault: &Fault<'t>) -> Option<Hint<'t>>
    ensures { words_of result ≡ comparisons_row (seen_of fault.now) }
{
    Hint::Comparisons.only_if(is_other_comparison(fault))
}

fn is_other_comparison(fault: &Fault<'_>) -> bool
    ensures { result ≡ is_other_comparison (seen_of fault.now) }
{
    (fault.is(Sign::Assign) && (fault.may_begin_operand() || fault.may_sign(Sign::Equal)))
        || (fault.is_comparison() && fault.may_begin_operand())
}

fn one_comparison<'t>(fault: &Fault<'t>) -> Option<Hint<'t>>
    ensures { words_of result ≡ one_comparison_row (seen_of fault.now) }
{
    Hint::OneComparison.only_if(fault.is_comparison() && fault.may_go_on())
}

fn negative<'t>(fault: &Fault<'t>) -> Option<Hint<'t>>
    ensures { words_of result ≡ negative_row (seen_of fault.now) }
{
    Hint::Negative.only_if(fault.is(Sign::Minus) && fault.may_begin_operand())
}

// Whether a name is right before the fault.
fn is_behind_name(fault: &Fault<'_>) -> bool
    ensures { result ≡ is_some_name (name_before (seen_of fault.now).previous) }
{
    fault.name_before().is_some()
}

fn call<'t>(fault: &Fault<'t>) -> Option<Hint<'t>>
    ensures { words_of result ≡ call_row (seen_of fault.now) }
{
    Hint::Calls.only_if(fault.is(Sign::OpenParenthesis) && is_behind_name(fault))
}

fn array<'t>(fault: &Fault<'t>) -> Option<Hint<'t>>
    ensures { words_of result ≡ array_row (seen_of fault.now) }
{
    Hint::Arrays.only_if(fault.is(Sign::OpenBracket) && is_behind_name(fault))
}

fn first_of_brackets<'t>(fault: &Fault<'t>) -> Option<Hint<'t>>
    ensures { words_of result ≡ first_row (bracket_rows (seen_of fault.now)) }
{
    not_closed(fault).or(block(fault))
}

fn not_closed<'t>(fault: &Fault<'t>) -> Option<Hint<'t>>
    ensures { words_of result ≡ not_closed_row (seen_of fault.now) }
{
    Brackets::InExpressions.last_open_if(is_not_closed(fault), fault.before)
}

fn is_not_closed(fault: &Fault<'_>) -> bool
    ensures { result ≡ is_not_closed (seen_of fault.now) }
{
    (fault.is_any_sign() || fault.is_end())
        && (fault.may_sign(Sign::CloseParenthesis) || fault.may_sign(Sign::CloseBracket))
}

fn block<'t>(fault: &Fault<'t>) -> Option<Hint<'t>>
    ensures { words_of result ≡ block_row (seen_of fault.now) }
{
    Hint::Block.only_if(fault.may_sign(Sign::OpenBrace))
}
