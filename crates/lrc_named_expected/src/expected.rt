// What may stand in a place, in words.

ghost use Rattle.std.specs.Prelude.{◌≡◌, ◌++◌, IfOk, OnOk, map};
ghost use Rattle.std.specs.List.{flat_map};
ghost use Rattle.lrc_named_expected.specs.Kind.{comparison_kinds, declaration_kinds, operand_kinds, operator_kinds, statement_kinds};
ghost use Rattle.lrc_named_expected.specs.Expected.{expected_text, group_phrase, is_said, phrases_of, says, single_phrase};

use crate::kind::{has, has_all, phrase};
use lrc_lint_lines::push_joined;
use lrc_named_may::kind::{Kind, all_kinds};
use lrc_named_tokens::token::{Keyword, Sign};
use std::alloc::{AllocError, Global};

const DECLARATION: &[Kind] = &[
    Kind::Keyword(Keyword::Nodes),
    Kind::Keyword(Keyword::Const),
    Kind::Keyword(Keyword::Shared),
    Kind::Keyword(Keyword::Lock),
    Kind::Keyword(Keyword::Fn),
];

const STATEMENT: &[Kind] = &[
    Kind::Name,
    Kind::Keyword(Keyword::Acquire),
    Kind::Keyword(Keyword::Release),
    Kind::Keyword(Keyword::With),
    Kind::Keyword(Keyword::Barrier),
    Kind::Keyword(Keyword::Print),
    Kind::Keyword(Keyword::Assert),
    Kind::Keyword(Keyword::If),
    Kind::Keyword(Keyword::While),
    Kind::Keyword(Keyword::For),
];

const OPERAND: &[Kind] = &[
    Kind::Name,
    Kind::Number,
    Kind::Keyword(Keyword::Me),
    Kind::Keyword(Keyword::Nodes),
    Kind::Sign(Sign::OpenParenthesis),
];

const OPERATOR: &[Kind] = &[
    Kind::Sign(Sign::Plus),
    Kind::Sign(Sign::Minus),
    Kind::Sign(Sign::Star),
    Kind::Sign(Sign::Slash),
    Kind::Sign(Sign::Percent),
];

const COMPARISON: &[Kind] = &[
    Kind::Sign(Sign::Equal),
    Kind::Sign(Sign::NotEqual),
    Kind::Sign(Sign::Less),
    Kind::Sign(Sign::LessOrEqual),
    Kind::Sign(Sign::Greater),
    Kind::Sign(Sign::GreaterOrEqual),
];

/// Returns the kinds of tokens that may begin a declaration.
pub fn declaration_kinds() -> &'static [Kind]
    ensures { result.now ≡ declaration_kinds }
{
    DECLARATION
}

/// Returns the kinds of tokens that may begin a statement.
pub fn statement_kinds() -> &'static [Kind]
    ensures { result.now ≡ statement_kinds }
{
    STATEMENT
}

/// Returns the kinds of tokens that may begin an operand.
pub fn operand_kinds() -> &'static [Kind]
    ensures { result.now ≡ operand_kinds }
{
    OPERAND
}

/// Returns the signs of sums and products.
pub fn operator_kinds() -> &'static [Kind]
    ensures { result.now ≡ operator_kinds }
{
    OPERATOR
}

/// Returns the signs of comparisons.
pub fn comparison_kinds() -> &'static [Kind]
    ensures { result.now ≡ comparison_kinds }
{
    COMPARISON
}

/// Adds the line that lists the kinds of tokens that may stand at a place. If all members of a group are among them,
/// the group's name replaces them: `a declaration`, `a statement`, `an operand`, `an operator`, `a comparison`.
pub fn push_expected(out: &mut Vec<u8>, alloc: Global, kinds: &[Kind]) -> Result<(), AllocError>
    ensures { OnOk result (out.new.items ≡ out.old.items ++ expected_text kinds.now) }
{
    let phrases = phrases_of(alloc, kinds)?;
    out.extend_from_slice(b"  here may stand: ")?;
    push_joined(out, &phrases)?;
    out.extend_from_slice(b"\n")
}

fn phrases_of<'t>(alloc: Global, kinds: &[Kind]) -> Result<Vec<&'t [u8]>, AllocError>
    ensures { IfOk result (λ phrases. map (λ phrase. phrase.now) phrases.items
        ≡ phrases_of kinds.now) }
{
    let mut phrases = Vec::new(alloc);
    add_group(&mut phrases, kinds, b"a declaration", declaration_kinds())?;
    add_group(&mut phrases, kinds, b"a statement", statement_kinds())?;
    add_group(&mut phrases, kinds, b"an operand", operand_kinds())?;
    add_group(&mut phrases, kinds, b"an operator", operator_kinds())?;
    add_group(&mut phrases, kinds, b"a comparison", comparison_kinds())?;
    add_singles(&mut phrases, kinds, all_kinds())?;
    Ok(phrases)
}

fn add_group<'t>(
    phrases: &mut Vec<&'t [u8]>,
    kinds: &[Kind],
    name: &'t [u8],
    members: &[Kind],
) -> Result<(), AllocError>
    ensures { OnOk result (map (λ phrase. phrase.now) phrases.new.items
        ≡ map (λ phrase. phrase.now) phrases.old.items
        ++ group_phrase kinds.now name.entry.now members.now) }
{
    if has_all(kinds, members) {
        phrases.push(name)?;
    }
    Ok(())
}

fn add_singles<'t>(
    phrases: &mut Vec<&'t [u8]>,
    kinds: &[Kind],
    all: &[Kind],
) -> Result<(), AllocError>
    ensures { OnOk result (map (λ phrase. phrase.now) phrases.new.items
        ≡ map (λ phrase. phrase.now) phrases.old.items
        ++ flat_map (single_phrase kinds.now) all.now) }
{
    for kind in all {
        add_single(phrases, kinds, *kind)?;
    }
    Ok(())
}

fn add_single<'t>(phrases: &mut Vec<&'t [u8]>, kinds: &[Kind], kind: Kind) -> Result<(), AllocError>
    ensures { OnOk result (map (λ phrase. phrase.now) phrases.new.items
        ≡ map (λ phrase. phrase.now) phrases.old.items ++ single_phrase kinds.now kind) }
{
    if has(kinds, kind) && !is_said(kinds, kind) {
        phrases.push(phrase(kind))?;
    }
    Ok(())
}

// Whether a group says that this kind may stand.
fn is_said(kinds: &[Kind], kind: Kind) -> bool
    ensures { result ≡ is_said kinds.now kind }
{
    says(kinds, declaration_kinds(), kind)
        || says(kinds, statement_kinds(), kind)
        || says(kinds, operand_kinds(), kind)
        || says(kinds, operator_kinds(), kind)
        || says(kinds, comparison_kinds(), kind)
}

fn says(kinds: &[Kind], members: &[Kind], kind: Kind) -> bool
    ensures { result ≡ says kinds.now members.now kind }
{
    has_all(kinds, members) && has(members, kind)
}
