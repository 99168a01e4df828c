// The options of a command, one by one, as clap read them.

ghost use Rattle.std.specs.Prelude.{◌≡◌, IfErr, IfOk, IsSomeAnd, Some, codes, option_map};
ghost use Rattle.std.specs.Int.{IsOutOfRange};
ghost use Rattle.std.specs.List.{list_any};
ghost use Rattle.clap.specs.Facts.{explicit_source};
ghost use Rattle.clap.specs.Takes.{is_given};
ghost use Rattle.clap.specs.Words.{all_of, first_of, found_of, rows_of};
ghost use Rattle.lrc_cli_args.specs.Options.{HasBadPage, HasValue, IsBareNumber, IsFlag, IsFlagOption, IsNumberOption, IsPageSize};
ghost use Rattle.lrc_cli_args.specs.Options.{collect_in, given_number, most_in, nodes_in, option_number, outcome_in, some_number_in, steps_in, texts_of, tries_in};
ghost use Rattle.lrc_cli_args.specs.declared.misfit.Misfit.TheVariants as unfit;
ghost use Rattle.lrc_page.specs.declared.size.Size.{Size};

use crate::choice::{Collect, Most, Nodes, OutcomeNumber, Steps, Tries};
use crate::misfit::Misfit;
use clap::ArgMatches;
use clap::parser::ValueSource;
use lrc_page::Size;

/// Returns the value of an option or argument.
pub(crate) fn text_of<'w>(options: &ArgMatches<'w>, name: &str) -> &'w str
    requires { HasValue name.now (rows_of (found_of options.now)) }
    ensures { first_of name.now (rows_of (found_of options.now)) ≡ Some result.now }
{
    options.get_str(name).unwrap()
}

/// Returns the value of an option or argument that may be absent.
pub(crate) fn some_text_of<'w>(options: &ArgMatches<'w>, name: &str) -> Option<&'w str>
    ensures { option_map (λ text. text.now) result
        ≡ first_of name.now (rows_of (found_of options.now)) }
{
    options.get_str(name)
}

/// Returns the values of an option that takes several and may be absent.
pub(crate) fn some_texts_of<'q, 'w>(
    options: &'q ArgMatches<'w>,
    name: &str,
) -> Option<&'q [&'w str]>
    ensures { option_map texts_of result ≡ all_of name.now (rows_of (found_of options.now)) }
{
    options.get_strs(name)
}

/// Returns whether the words name a flag.
pub(crate) fn is_named(options: &ArgMatches<'_>, name: &str) -> bool
    requires { IsFlagOption name.now (rows_of (found_of options.now)) }
    ensures { IsFlag name.now result (rows_of (found_of options.now)) }
{
    options.get_flag(name)
}

/// Returns whether the words give an option or argument a value. A default does not count.
pub(crate) fn is_given(options: &ArgMatches<'_>, name: &str) -> bool
    ensures { result ≡ is_given name.now (rows_of (found_of options.now)) }
{
    options.contains_id(name) && is_explicit(options.value_source(name))
}

// Whether a value is from the words.
fn is_explicit(source: Option<ValueSource>) -> bool
    ensures { result ≡ explicit_source source }
{
    match source {
        Some(ValueSource::DefaultValue) => false,
        Some(ValueSource::CommandLine) | None => true,
    }
}

/// Returns whether the words give one of these options or arguments a value.
pub(crate) fn is_any_given(options: &ArgMatches<'_>, names: &[&str]) -> bool
    ensures { result ≡ list_any (λ name. is_given name.now (rows_of (found_of options.now)))
        names.now }
{
    names.iter().any(|name| is_given(options, name))
}

/// Returns the number that the words give an option, if they give one.
pub(crate) fn given_number_of(options: &ArgMatches<'_>, name: &str) -> Option<u64>
    requires { IsBareNumber name.now (rows_of (found_of options.now)) }
    ensures { result ≡ given_number name.now (rows_of (found_of options.now)) }
{
    if is_given(options, name) {
        some_number_of(options, name)
    } else {
        None
    }
}

/// Returns the number of nodes, if one is given. It fails with `Misfit::Number` if the number is not 1 to 16.
pub(crate) fn some_nodes(count: Option<u64>) -> Result<Option<Nodes>, Misfit>
    ensures ok { IfOk result (λ nodes. count ≡ option_map (λ nodes. nodes.count) nodes) }
    ensures err { IfErr result (λ misfit. (misfit ≡ unfit.Number)
        × IsSomeAnd count (IsOutOfRange 1 16)) }
{
    match count {
        Some(count) => Ok(Some(so_many_nodes(count)?)),
        None => Ok(None),
    }
}

/// Returns the number of an option that always has one.
pub(crate) fn number_of(options: &ArgMatches<'_>, name: &str) -> u64
    requires { IsNumberOption name.now (rows_of (found_of options.now)) }
    ensures { result ≡ option_number name.now (rows_of (found_of options.now)) }
{
    options.get_one::<u64>(name).unwrap()
}

/// Returns the number of an option that may be absent.
pub(crate) fn some_number_of(options: &ArgMatches<'_>, name: &str) -> Option<u64>
    requires { IsBareNumber name.now (rows_of (found_of options.now)) }
    ensures { result ≡ some_number_in name.now (rows_of (found_of options.now)) }
{
    options.get_one::<u64>(name)
}

pub(crate) fn nodes_of(options: &ArgMatches<'_>) -> Result<Nodes, Misfit>
    requires { IsNumberOption (codes "nodes") (rows_of (found_of options.now)) }
    ensures ok { IfOk result (λ nodes. nodes_in (rows_of (found_of options.now)) ≡ nodes.count) }
    ensures err { IfErr result (λ misfit. (misfit ≡ unfit.Number)
        × IsOutOfRange 1 16 (nodes_in (rows_of (found_of options.now)))) }
{
    so_many_nodes(number_of(options, "nodes"))
}

/// Returns the number of nodes. It fails with `Misfit::Number` if the number is not 1 to 16.
pub(crate) fn so_many_nodes(count: u64) -> Result<Nodes, Misfit>
    ensures ok { IfOk result (λ nodes. count ≡ nodes.count) }
    ensures err { IfErr result (λ misfit. (misfit ≡ unfit.Number) × IsOutOfRange 1 16 count) }
{
    let Ok(count) = u32::try_from(count) else {
        return Err(Misfit::Number);
    };
    match Nodes::new(count) {
        Some(nodes) => Ok(nodes),
        None => Err(Misfit::Number),
    }
}

pub(crate) fn steps_of(options: &ArgMatches<'_>) -> Result<Steps, Misfit>
    requires { IsNumberOption (codes "steps") (rows_of (found_of options.now)) }
    ensures ok { IfOk result (λ steps. steps_in (rows_of (found_of options.now)) ≡ steps.count) }
    ensures err { IfErr result (λ misfit. (misfit ≡ unfit.Number)
        × IsOutOfRange 1 1000000 (steps_in (rows_of (found_of options.now)))) }
{
    let Ok(count) = u32::try_from(number_of(options, "steps")) else {
        return Err(Misfit::Number);
    };
    match Steps::new(count) {
        Some(steps) => Ok(steps),
        None => Err(Misfit::Number),
    }
}

pub(crate) fn collect_of(options: &ArgMatches<'_>) -> Result<Collect, Misfit>
    requires { IsNumberOption (codes "collect") (rows_of (found_of options.now)) }
    ensures ok { IfOk result (λ collect. collect_in (rows_of (found_of options.now))
        ≡ collect.count) }
    ensures err { IfErr result (λ misfit. (misfit ≡ unfit.Number)
        × IsOutOfRange 0 1000000 (collect_in (rows_of (found_of options.now)))) }
{
    let count = number_of(options, "collect");
    match u32::try_from(count) {
        Ok(count) if count <= 1_000_000 => Ok(Collect { count }),
        _ => Err(Misfit::Number),
    }
}

pub(crate) fn most_of(options: &ArgMatches<'_>) -> Result<Most, Misfit>
    requires { IsNumberOption (codes "most") (rows_of (found_of options.now)) }
    ensures ok { IfOk result (λ most. most_in (rows_of (found_of options.now)) ≡ most.count) }
    ensures err { IfErr result (λ misfit. (misfit ≡ unfit.Number)
        × IsOutOfRange 1 100000000 (most_in (rows_of (found_of options.now)))) }
{
    let count = number_of(options, "most");
    match u32::try_from(count) {
        Ok(count) if 1 <= count && count <= 100_000_000 => Ok(Most { count }),
        _ => Err(Misfit::Number),
    }
}

/// Returns the number of runs to play in random orders, if it is given. It fails with `Misfit::Number` if the number
/// is not 1 to 1,000,000.
pub(crate) fn tries_of(options: &ArgMatches<'_>) -> Result<Option<Tries>, Misfit>
    requires { IsBareNumber (codes "tries") (rows_of (found_of options.now)) }
    ensures ok { IfOk result (λ tries. tries_in (rows_of (found_of options.now))
        ≡ option_map (λ tries. tries.count) tries) }
    ensures err { IfErr result (λ misfit. (misfit ≡ unfit.Number)
        × IsSomeAnd (tries_in (rows_of (found_of options.now))) (IsOutOfRange 1 1000000)) }
{
    match some_number_of(options, "tries") {
        None => Ok(None),
        Some(count) => Ok(Some(so_many_tries(count)?)),
    }
}

// The number of runs, if it is in range.
fn so_many_tries(count: u64) -> Result<Tries, Misfit>
    ensures ok { IfOk result (λ tries. count ≡ tries.count) }
    ensures err { IfErr result (λ misfit. (misfit ≡ unfit.Number) × IsOutOfRange 1 1000000 count) }
{
    match u32::try_from(count) {
        Ok(count) if 1 <= count && count <= 1_000_000 => Ok(Tries { count }),
        _ => Err(Misfit::Number),
    }
}

/// Returns the number of the outcome that is asked for, if one is. It fails with `Misfit::Number` if the number is 0.
pub(crate) fn outcome_of(options: &ArgMatches<'_>) -> Result<Option<OutcomeNumber>, Misfit>
    requires { IsBareNumber (codes "outcome") (rows_of (found_of options.now)) }
    ensures ok { IfOk result (λ outcome. outcome_in (rows_of (found_of options.now))
        ≡ option_map (λ outcome. outcome.number) outcome) }
    ensures err { IfErr result (λ misfit. (misfit ≡ unfit.Number)
        × (outcome_in (rows_of (found_of options.now)) ≡ Some 0)) }
{
    match some_number_of(options, "outcome") {
        None => Ok(None),
        Some(0) => Err(Misfit::Number),
        Some(number) => Ok(Some(OutcomeNumber { number })),
    }
}

pub(crate) fn size_of(options: &ArgMatches<'_>) -> Result<Size, Misfit>
    requires { HasValue (codes "page") (rows_of (found_of options.now)) }
    ensures ok { IfOk result (IsPageSize (first_of (codes "page")
        (rows_of (found_of options.now)))) }
    ensures err { IfErr result (λ misfit. (misfit ≡ unfit.Page)
        × HasBadPage (rows_of (found_of options.now))) }
{
    size_named(text_of(options, "page"))
}

fn size_named(word: &str) -> Result<Size, Misfit>
    ensures ok { IfOk result (IsPageSize (Some word.now)) }
    ensures err { IfErr result (λ misfit. (misfit ≡ unfit.Page)
        × ((size : Size) → ¬ IsPageSize (Some word.now) size)) }
{
    if word == "64" {
        Ok(Size::Words64)
    } else if word == "256" {
        Ok(Size::Words256)
    } else {
        Err(Misfit::Page)
    }
}
