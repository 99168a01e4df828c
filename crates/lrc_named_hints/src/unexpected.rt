// Hints for a token that no named program has where it stands: a function for each, tried in this order.

ghost use Rattle.std.specs.Prelude.{◌≡◌};
ghost use Rattle.lrc_lint_fault.specs.HintTable.{first_row, is_comment_byte};
ghost use Rattle.lrc_named_tokens.specs.View.{located_of};
ghost use Rattle.lrc_named_hints.specs.Hint.{words_of};
ghost use Rattle.lrc_named_hints.specs.HintTable.{begins_comment, behind_else_row, block_row, bracket_rows, comment_row, comparisons_row, compound_row};
ghost use Rattle.lrc_named_hints.specs.HintTable.{declaration_row, each_index_row, else_if_row, ends_comment_sign, ends_statement, expression_rows};
ghost use Rattle.lrc_named_hints.specs.HintTable.{function_row, habit_rows, is_at_once_behind_slash, is_declaration, is_keyword_as_name, is_not_closed};
ghost use Rattle.lrc_named_hints.specs.HintTable.{is_other_comparison, is_other_lock, is_other_loop, is_value_of_item, keyword_as_name_row};
ghost use Rattle.lrc_named_hints.specs.HintTable.{keyword_rows, keyword_set_row, late_row, lock_name_row, lock_row, loop_row, missing_row, name_rows};
ghost use Rattle.lrc_named_hints.specs.HintTable.{negative_row, no_brace_row, no_keyword_row, no_value_row, not_closed_row, not_row};
ghost use Rattle.lrc_named_hints.specs.HintTable.{one_comparison_row, open_brace_row, seen_of, semicolon_row, separator_rows, set_in_brackets_row};
ghost use Rattle.lrc_named_hints.specs.HintTable.{shared_name_row, statement_rows, stray_else_row, unexpected_rows, update_row};

use crate::brackets::last_open_if;
use crate::fault::{Fault, declares_lock, is_behind_else, is_for, is_sign, spelling, takes_lock};
use crate::hint::Hint;
use lrc_lint_fault::bad_byte::byte_at;
use lrc_lint_fault::brackets::Brackets;
use lrc_lint_fault::hint::Hint as CoreHint;
use lrc_lint_fault::unexpected::is_comment_byte;
use lrc_named_expected::kind::keyword_text;
use lrc_named_may::kind::Kind;
use lrc_named_tokens::token::{Keyword, Located, Sign};

/// Returns the first hint that applies to an unexpected token.
pub fn unexpected_hint<'t>(fault: &Fault<'t>) -> Option<Hint<'t>>
    ensures { words_of result ≡ first_row (unexpected_rows (seen_of fault.now)) }
{
    first_of_habits(fault)
        .or(first_of_names(fault))
        .or(first_of_keywords(fault))
        .or(first_of_statements(fault))
        .or(first_of_separators(fault))
        .or(first_of_expressions(fault))
        .or(first_of_brackets(fault))
}

fn first_of_habits<'t>(fault: &Fault<'t>) -> Option<Hint<'t>>
    ensures { words_of result ≡ first_row (habit_rows (seen_of fault.now)) }
{
    comment(fault)
        .or(other_loop(fault))
        .or(lock_name(fault))
        .or(function(fault))
}

fn comment<'t>(fault: &Fault<'t>) -> Option<Hint<'t>>
    ensures { words_of result ≡ comment_row (seen_of fault.now) }
{
    Hint::Core(CoreHint::Comment).only_if(begins_comment(fault) || ends_comment_sign(fault))
}

// `/`, and behind it at once `/` or `*`.
fn begins_comment(fault: &Fault<'_>) -> bool
    ensures { result ≡ begins_comment (seen_of fault.now) }
{
    fault.is(Sign::Slash)
        && is_comment_byte(byte_at(fault.text, fault.found.place.offset as usize + 1))
}

// `/` or `*`, and before it at once `/`.
fn ends_comment_sign(fault: &Fault<'_>) -> bool
    ensures { result ≡ ends_comment_sign (seen_of fault.now) }
{
    (fault.is(Sign::Slash) || fault.is(Sign::Star)) && is_at_once_behind_slash(fault)
}

fn is_at_once_behind_slash(fault: &Fault<'_>) -> bool
    ensures { result ≡ is_at_once_behind_slash (seen_of fault.now).previous
        (seen_of fault.now).found }
{
    match fault.previous {
        Some(previous) => {
            is_sign(previous.lexeme, Sign::Slash)
                && fault
                    .found
                    .place
                    .offset
                    .saturating_sub(previous.place.offset)
                    == 1
        }
        None => false,
    }
}

fn other_loop<'t>(fault: &Fault<'t>) -> Option<Hint<'t>>
    ensures { words_of result ≡ loop_row (seen_of fault.now) }
{
    Hint::Loop.only_if(is_other_loop(fault))
}

// A loop as it is elsewhere.
fn is_other_loop(fault: &Fault<'_>) -> bool
    ensures { result ≡ is_other_loop (seen_of fault.now) }
{
    fault.may(Kind::Keyword(Keyword::In))
        || (fault.may_sign(Sign::Range)
            || (is_for(fault.keyword_before()) && fault.is(Sign::OpenParenthesis)))
}

fn lock_name<'t>(fault: &Fault<'t>) -> Option<Hint<'t>>
    ensures { words_of result ≡ lock_name_row (seen_of fault.now) }
{
    Hint::LockName.only_if(fault.is(Sign::OpenParenthesis) && takes_lock(fault.keyword_before()))
}

fn function<'t>(fault: &Fault<'t>) -> Option<Hint<'t>>
    ensures { words_of result ≡ function_row (seen_of fault.now) }
{
    Hint::Function.only_if(fault.is_behind(Sign::CloseParenthesis) && fault.may_sign(Sign::Assign))
}

fn first_of_names<'t>(fault: &Fault<'t>) -> Option<Hint<'t>>
    ensures { words_of result ≡ first_row (name_rows (seen_of fault.now)) }
{
    declaration(fault)
        .or(lock(fault))
        .or(else_if(fault))
        .or(update(fault))
        .or(compound(fault))
        .or(no_keyword(fault))
}

fn declaration<'t>(fault: &Fault<'t>) -> Option<Hint<'t>>
    ensures { words_of result ≡ declaration_row (seen_of fault.now) }
{
    Hint::Core(CoreHint::Declaration).only_if(is_declaration(fault))
}

// A declaration as it is elsewhere.
fn is_declaration(fault: &Fault<'_>) -> bool
    ensures { result ≡ is_declaration (seen_of fault.now) }
{
    fault.opens_with(b"let") || (fault.opens_with(b"var") || fault.opens_with(b"int"))
}

fn lock<'t>(fault: &Fault<'t>) -> Option<Hint<'t>>
    ensures { words_of result ≡ lock_row (seen_of fault.now) }
{
    Hint::Core(CoreHint::Lock).only_if(is_other_lock(fault))
}

// A lock that is given back or taken as elsewhere.
fn is_other_lock(fault: &Fault<'_>) -> bool
    ensures { result ≡ is_other_lock (seen_of fault.now) }
{
    fault.opens_with(b"unlock")
        || (fault.is(Sign::OpenParenthesis) && declares_lock(fault.keyword_before()))
}

fn else_if<'t>(fault: &Fault<'t>) -> Option<Hint<'t>>
    ensures { words_of result ≡ else_if_row (seen_of fault.now) }
{
    Hint::ElseIf.only_if(fault.opens_with(b"elif"))
}

fn update<'t>(fault: &Fault<'t>) -> Option<Hint<'t>>
    ensures { words_of result ≡ update_row (seen_of fault.now) }
{
    let name = fault.opening_name()?;
    Hint::Update(name, fault.spelling()).only_if(fault.joins_terms())
}

fn compound<'t>(fault: &Fault<'t>) -> Option<Hint<'t>>
    ensures { words_of result ≡ compound_row (seen_of fault.now) }
{
    let name = fault.opening_name()?;
    Hint::Core(CoreHint::Compound(name, fault.spelling())).only_if(fault.joins_factors())
}

fn no_keyword<'t>(fault: &Fault<'t>) -> Option<Hint<'t>>
    ensures { words_of result ≡ no_keyword_row (seen_of fault.now) }
{
    let name = fault.opening_name()?;
    Some(Hint::NoKeyword(name))
}

fn first_of_keywords<'t>(fault: &Fault<'t>) -> Option<Hint<'t>>
    ensures { words_of result ≡ first_row (keyword_rows (seen_of fault.now)) }
{
    behind_else(fault)
        .or(stray_else(fault))
        .or(late(fault))
        .or(inner_not(fault))
        .or(keyword_as_name(fault))
        .or(keyword_set(fault))
}

fn behind_else<'t>(fault: &Fault<'t>) -> Option<Hint<'t>>
    ensures { words_of result ≡ behind_else_row (seen_of fault.now) }
{
    Hint::BehindElse.only_if(is_behind_else(fault.keyword_before()))
}

fn stray_else<'t>(fault: &Fault<'t>) -> Option<Hint<'t>>
    ensures { words_of result ≡ stray_else_row (seen_of fault.now) }
{
    Hint::Core(CoreHint::Else).only_if(fault.is_else())
}

fn late<'t>(fault: &Fault<'t>) -> Option<Hint<'t>>
    ensures { words_of result ≡ late_row (seen_of fault.now) }
{
    Hint::Declarations.only_if(fault.is_declaration_keyword() && fault.may_begin_statement())
}

fn inner_not<'t>(fault: &Fault<'t>) -> Option<Hint<'t>>
    ensures { words_of result ≡ not_row (seen_of fault.now) }
{
    Hint::NotInBrackets.only_if(fault.is_not() && fault.may_begin_operand())
}

fn keyword_as_name<'t>(fault: &Fault<'t>) -> Option<Hint<'t>>
    ensures { words_of result ≡ keyword_as_name_row (seen_of fault.now) }
{
    Hint::Core(CoreHint::Keyword(fault.spelling())).only_if(is_keyword_as_name(fault))
}

// A keyword where a name may stand: where an operand may, one on a later line begins something else.
fn is_keyword_as_name(fault: &Fault<'_>) -> bool
    ensures { result ≡ is_keyword_as_name (seen_of fault.now) }
{
    fault.is_keyword()
        && (fault.may_name() && (!fault.may_begin_operand() || fault.is_on_line_of_previous()))
}

fn keyword_set<'t>(fault: &Fault<'t>) -> Option<Hint<'t>>
    ensures { words_of result ≡ keyword_set_row (seen_of fault.now) }
{
    let keyword = fault.keyword_before()?;
    Hint::Core(CoreHint::Keyword(keyword_text(keyword))).only_if(
        fault.is(Sign::Assign) && fault.may_name(),
    )
}

fn first_of_statements<'t>(fault: &Fault<'t>) -> Option<Hint<'t>>
    ensures { words_of result ≡ first_row (statement_rows (seen_of fault.now)) }
{
    semicolon(fault)
        .or(no_brace(fault))
        .or(open_brace(fault))
        .or(shared_name(fault))
}

fn semicolon<'t>(fault: &Fault<'t>) -> Option<Hint<'t>>
    ensures { words_of result ≡ semicolon_row (seen_of fault.now) }
{
    Hint::Core(CoreHint::Semicolon).only_if(
        fault.is(Sign::Semicolon) && fault.may_begin_statement(),
    )
}

fn no_brace<'t>(fault: &Fault<'t>) -> Option<Hint<'t>>
    ensures { words_of result ≡ no_brace_row (seen_of fault.now) }
{
    Hint::Core(CoreHint::NoBrace).only_if(fault.is(Sign::CloseBrace) && fault.may_begin_statement())
}

fn open_brace<'t>(fault: &Fault<'t>) -> Option<Hint<'t>>
    ensures { words_of result ≡ open_brace_row (seen_of fault.now) }
{
    last_open_if(
        fault.is_end() && fault.may_begin_statement(),
        Brackets::Braces,
        fault.before,
    )
}

fn shared_name<'t>(fault: &Fault<'t>) -> Option<Hint<'t>>
    ensures { words_of result ≡ shared_name_row (seen_of fault.now) }
{
    Hint::SharedName.only_if(
        fault.is(Sign::OpenBracket) && (fault.may_begin_operand() || fault.may_begin_statement()),
    )
}

fn first_of_separators<'t>(fault: &Fault<'t>) -> Option<Hint<'t>>
    ensures { words_of result ≡ first_row (separator_rows (seen_of fault.now)) }
{
    missing_semicolon(fault)
        .or(no_value(fault))
        .or(each_index(fault))
}

fn missing_semicolon<'t>(fault: &Fault<'t>) -> Option<Hint<'t>>
    ensures { words_of result ≡ missing_row (seen_of fault.now) }
{
    let previous = fault.previous?;
    Hint::Core(CoreHint::Missing(spelling(fault.text, previous), previous.place.line)).only_if(
        fault.may_sign(Sign::Semicolon) && ends_statement(fault, previous),
    )
}

// Whether what was found looks like the end of a statement or of a declaration, or the beginning of the next.
fn ends_statement(fault: &Fault<'_>, previous: Located<'_>) -> bool
    ensures { result ≡ ends_statement (seen_of fault.now) (located_of previous.entry) }
{
    fault.is_end()
        || (fault.is(Sign::CloseBrace)
            || (fault.is_statement_keyword()
                || (fault.is_declaration_keyword()
                    || (fault.is_name() && previous.place.line < fault.found.place.line))))
}

fn no_value<'t>(fault: &Fault<'t>) -> Option<Hint<'t>>
    ensures { words_of result ≡ no_value_row (seen_of fault.now) }
{
    Hint::NoValue.only_if(is_value_of_item(fault))
}

// A value behind an item.
fn is_value_of_item(fault: &Fault<'_>) -> bool
    ensures { result ≡ is_value_of_item (seen_of fault.now) }
{
    fault.is(Sign::Assign)
        && (fault.may_sign(Sign::Comma) && (fault.may_sign(Sign::Semicolon) && !fault.may_go_on()))
}

fn each_index<'t>(fault: &Fault<'t>) -> Option<Hint<'t>>
    ensures { words_of result ≡ each_index_row (seen_of fault.now) }
{
    Hint::EachIndex.only_if(fault.is(Sign::Comma) && fault.may_sign(Sign::CloseBracket))
}

fn first_of_expressions<'t>(fault: &Fault<'t>) -> Option<Hint<'t>>
    ensures { words_of result ≡ first_row (expression_rows (seen_of fault.now)) }
{
    set_in_brackets(fault)
        .or(comparisons(fault))
        .or(one_comparison(fault))
        .or(negative(fault))
}

fn set_in_brackets<'t>(fault: &Fault<'t>) -> Option<Hint<'t>>
    ensures { words_of result ≡ set_in_brackets_row (seen_of fault.now) }
{
    let applies = fault.is(Sign::Assign) && fault.may_sign(Sign::CloseBracket);
    last_open_if(applies, Brackets::InExpressions, fault.before)
}

fn comparisons<'t>(fault: &Fault<'t>) -> Option<Hint<'t>>
    ensures { words_of result ≡ comparisons_row (seen_of fault.now) }
{
    Hint::Core(CoreHint::Comparisons).only_if(is_other_comparison(fault))
}

// A comparison as it is elsewhere.
fn is_other_comparison(fault: &Fault<'_>) -> bool
    ensures { result ≡ is_other_comparison (seen_of fault.now) }
{
    (fault.is(Sign::Assign) && (fault.may_begin_operand() || fault.may_sign(Sign::Equal)))
        || (fault.is_comparison() && fault.may_begin_operand())
}

fn one_comparison<'t>(fault: &Fault<'t>) -> Option<Hint<'t>>
    ensures { words_of result ≡ one_comparison_row (seen_of fault.now) }
{
    Hint::OneComparison.only_if(fault.is_comparison() && fault.may_go_on())
}

fn negative<'t>(fault: &Fault<'t>) -> Option<Hint<'t>>
    ensures { words_of result ≡ negative_row (seen_of fault.now) }
{
    Hint::Core(CoreHint::Negative).only_if(fault.is(Sign::Minus) && fault.may_begin_operand())
}

fn first_of_brackets<'t>(fault: &Fault<'t>) -> Option<Hint<'t>>
    ensures { words_of result ≡ first_row (bracket_rows (seen_of fault.now)) }
{
    not_closed(fault).or(block(fault))
}

fn not_closed<'t>(fault: &Fault<'t>) -> Option<Hint<'t>>
    ensures { words_of result ≡ not_closed_row (seen_of fault.now) }
{
    last_open_if(is_not_closed(fault), Brackets::InExpressions, fault.before)
}

// Where a bracket may be closed, and is not.
fn is_not_closed(fault: &Fault<'_>) -> bool
    ensures { result ≡ is_not_closed (seen_of fault.now) }
{
    (fault.is_any_sign() || fault.is_end())
        && (fault.may_sign(Sign::CloseParenthesis) || fault.may_sign(Sign::CloseBracket))
}

fn block<'t>(fault: &Fault<'t>) -> Option<Hint<'t>>
    ensures { words_of result ≡ block_row (seen_of fault.now) }
{
    Hint::Block.only_if(fault.may_sign(Sign::OpenBrace))
}
