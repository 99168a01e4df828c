// What may stand in a place, in words.

ghost use Rattle.std.specs.Prelude.{◌≡◌, ◌++◌, IfOk, OnOk, codes, map};
ghost use Rattle.std.specs.List.{flat_map};
ghost use Rattle.lrc_lang.specs.Kind.{all_kinds};
ghost use Rattle.lrc_lint_lines.specs.Kind.{comparison_kinds, operand_kinds, operator_kinds, statement_kinds};
ghost use Rattle.lrc_lint_lines.specs.Expected.{expected_text, group_phrase, is_said, joined, phrases_of, says, single_phrase};

use crate::kind::{has, has_all, phrase};
use lrc_lang::kind::{Kind, all_kinds};
use lrc_lang::token::{Keyword, Sign};
use std::alloc::{AllocError, Global};

/// The kinds of tokens that may begin a statement.
const STATEMENT: &[Kind] = &[
    Kind::Name,
    Kind::Sign(Sign::OpenBracket),
    Kind::Keyword(Keyword::Acquire),
    Kind::Keyword(Keyword::Release),
    Kind::Keyword(Keyword::Barrier),
    Kind::Keyword(Keyword::Print),
    Kind::Keyword(Keyword::If),
    Kind::Keyword(Keyword::While),
];

/// The kinds of tokens that may begin an operand.
const OPERAND: &[Kind] = &[
    Kind::Name,
    Kind::Number,
    Kind::Keyword(Keyword::Me),
    Kind::Keyword(Keyword::Nodes),
    Kind::Sign(Sign::OpenParenthesis),
];

const OPERATOR: &[Kind] = &[
    Kind::Sign(Sign::Plus),
    Kind::Sign(Sign::Minus),
    Kind::Sign(Sign::Star),
    Kind::Sign(Sign::Slash),
    Kind::Sign(Sign::Percent),
];

const COMPARISON: &[Kind] = &[
    Kind::Sign(Sign::Equal),
    Kind::Sign(Sign::NotEqual),
    Kind::Sign(Sign::Less),
    Kind::Sign(Sign::LessOrEqual),
    Kind::Sign(Sign::Greater),
    Kind::Sign(Sign::GreaterOrEqual),
];

/// Returns the kinds of tokens that may begin a statement.
pub fn statement_kinds() -> &'static [Kind]
    ensures { result.now ≡ statement_kinds }
{
    STATEMENT
}

/// Returns the kinds of tokens that may begin an operand.
pub fn operand_kinds() -> &'static [Kind]
    ensures { result.now ≡ operand_kinds }
{
    OPERAND
}

/// Returns the signs of sums and products.
pub fn operator_kinds() -> &'static [Kind]
    ensures { result.now ≡ operator_kinds }
{
    OPERATOR
}

/// Returns the signs of comparisons.
pub fn comparison_kinds() -> &'static [Kind]
    ensures { result.now ≡ comparison_kinds }
{
    COMPARISON
}

/// Adds the line that lists the kinds of tokens that may stand at a place. If all members of a group are among them,
/// the group's name replaces them: `a statement`, `an operand`, `an operator`, `a comparison`.
pub fn push_expected(out: &mut Vec<u8>, alloc: Global, kinds: &[Kind]) -> Result<(), AllocError>
    ensures { OnOk result (out.new.items ≡ out.old.items ++ expected_text kinds.now) }
{
    let phrases = phrases_of(alloc, kinds)?;
    out.extend_from_slice(b"  here may stand: ")?;
    push_joined(out, &phrases)?;
    out.extend_from_slice(b"\n")
}

fn phrases_of<'t>(alloc: Global, kinds: &[Kind]) -> Result<Vec<&'t [u8]>, AllocError>
    ensures { IfOk result (λ phrases. map (λ phrase. phrase.now) phrases.items
        ≡ phrases_of kinds.now) }
{
    let mut phrases = Vec::new(alloc);
    add_group(&mut phrases, kinds, b"a statement", statement_kinds())?;
    add_group(&mut phrases, kinds, b"an operand", operand_kinds())?;
    add_group(&mut phrases, kinds, b"an operator", operator_kinds())?;
    add_group(&mut phrases, kinds, b"a comparison", comparison_kinds())?;
    add_singles(&mut phrases, kinds, all_kinds())?;
    Ok(phrases)
}

fn add_group<'t>(
    phrases: &mut Vec<&'t [u8]>,
    kinds: &[Kind],
    name: &'t [u8],
    members: &[Kind],
) -> Result<(), AllocError>
    ensures { OnOk result (map (λ phrase. phrase.now) phrases.new.items
        ≡ map (λ phrase. phrase.now) phrases.old.items
        ++ group_phrase kinds.now name.entry.now members.now) }
{
    if has_all(kinds, members) {
        phrases.push(name)?;
    }
    Ok(())
}

fn add_singles<'t>(
    phrases: &mut Vec<&'t [u8]>,
    kinds: &[Kind],
    all: &[Kind],
) -> Result<(), AllocError>
    ensures { OnOk result (map (λ phrase. phrase.now) phrases.new.items
        ≡ map (λ phrase. phrase.now) phrases.old.items
        ++ flat_map (single_phrase kinds.now) all.now) }
{
    for kind in all {
        add_single(phrases, kinds, *kind)?;
    }
    Ok(())
}

fn add_single<'t>(phrases: &mut Vec<&'t [u8]>, kinds: &[Kind], kind: Kind) -> Result<(), AllocError>
    ensures { OnOk result (map (λ phrase. phrase.now) phrases.new.items
        ≡ map (λ phrase. phrase.now) phrases.old.items ++ single_phrase kinds.now kind) }
{
    if has(kinds, kind) && !is_said(kinds, kind) {
        phrases.push(phrase(kind))?;
    }
    Ok(())
}

// Whether a group says that this kind may stand.
fn is_said(kinds: &[Kind], kind: Kind) -> bool
    ensures { result ≡ is_said kinds.now kind }
{
    says(kinds, statement_kinds(), kind)
        || says(kinds, operand_kinds(), kind)
        || says(kinds, operator_kinds(), kind)
        || says(kinds, comparison_kinds(), kind)
}

fn says(kinds: &[Kind], members: &[Kind], kind: Kind) -> bool
    ensures { result ≡ says kinds.now members.now kind }
{
    has_all(kinds, members) && has(members, kind)
}

/// Adds phrases with a comma and a blank between them.
pub fn push_joined(out: &mut Vec<u8>, phrases: &[&[u8]]) -> Result<(), AllocError>
    ensures { OnOk result (out.new.items
        ≡ out.old.items ++ joined (map (λ phrase. phrase.now) phrases.now)) }
{
    match phrases {
        [] => Ok(()),
        [first, others @ ..] => {
            out.extend_from_slice(first)?;
            push_others(out, others)
        }
    }
}

fn push_others(out: &mut Vec<u8>, phrases: &[&[u8]]) -> Result<(), AllocError>
    ensures { OnOk result (out.new.items
        ≡ out.old.items ++ flat_map (λ phrase. codes ", " ++ phrase)
        (map (λ phrase. phrase.now) phrases.now)) }
{
    for phrase in phrases {
        push_other(out, phrase)?;
    }
    Ok(())
}

fn push_other(out: &mut Vec<u8>, phrase: &[u8]) -> Result<(), AllocError>
    ensures { OnOk result (out.new.items ≡ out.old.items ++ (codes ", " ++ phrase.now)) }
{
    out.extend_from_slice(b", ")?;
    out.extend_from_slice(phrase)
}
