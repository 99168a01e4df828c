// The title of a chart.

ghost use Rattle.std.specs.Prelude.{◌≡◌, ◌++◌, [], IfOk, OnOk, codes, if◌then◌else◌, option_map};
ghost use Rattle.lrc_chart_title.specs.Title.{charting_text, option_text, options_text, page_size_text, picker_text, some_option_text};
ghost use Rattle.lrc_chart_title.specs.Title.{then_text, title_text, title_text_of_acts, way_text};

use crate::word::{push_front, push_last, push_value};
use lrc_cli_args::choice::{ChartedActs, Charting, Nodes, RunChoice, RunOptions, Then, Way};
use lrc_envelope::Picker;
use lrc_page::Size;
use lrc_text::push_number;
use std::alloc::{AllocError, Global};

const DEFAULT_STEPS: u64 = 1_000_000;

const DEFAULT_COLLECT: u64 = 0;

const DEFAULT_SEED: u64 = 0;

/// Returns the title for a chart of a run: a shell command line that makes it. A file whose name begins with `-` stands
/// behind `--`. A chart for a terminal has the same title as the SVG document.
pub fn title_of(
    alloc: Global,
    run: &RunChoice<'_>,
    charting: &Charting,
) -> Result<Vec<u8>, AllocError>
    ensures { IfOk result (λ title. title.items ≡ title_text run.now charting.now) }
{
    let mut title = Vec::new(alloc);
    let file = run.options.file.as_bytes();
    title.extend_from_slice(b"treadmarks chart")?;
    push_front(&mut title, file)?;
    push_options(&mut title, &run.options)?;
    push_way(&mut title, &run.way)?;
    push_charting(&mut title, charting)?;
    push_last(&mut title, file)?;
    Ok(title)
}

/// Returns the title for a chart of acts from a file: a shell command line that makes it.
pub fn title_of_acts(
    alloc: Global,
    acts: &ChartedActs<'_>,
    charting: &Charting,
) -> Result<Vec<u8>, AllocError>
    ensures { IfOk result (λ title. title.items ≡ title_text_of_acts acts.now charting.now) }
{
    let mut title = Vec::new(alloc);
    title.extend_from_slice(b"treadmarks chart")?;
    push_value(&mut title, b" --acts", acts.file.as_bytes())?;
    push_some_nodes(&mut title, acts.nodes)?;
    push_charting(&mut title, charting)?;
    Ok(title)
}

// Adds the number of nodes, where it is given.
fn push_some_nodes(text: &mut Vec<u8>, nodes: Option<Nodes>) -> Result<(), AllocError>
    ensures { OnOk result (text.new.items ≡ text.old.items
        ++ some_option_text (codes " --nodes ") (option_map (λ nodes. nodes.count) nodes)) }
{
    match nodes {
        Some(nodes) => push_number(text, b" --nodes ", u64::from(nodes.count)),
        None => Ok(()),
    }
}

// Adds the options that say what of it is shown.
fn push_charting(text: &mut Vec<u8>, charting: &Charting) -> Result<(), AllocError>
    ensures { OnOk result (text.new.items ≡ text.old.items ++ charting_text charting.now) }
{
    push_some_number(text, b" --from ", charting.from)?;
    push_some_number(text, b" --to ", charting.to)?;
    push_if(text, b" --hide quiet", charting.hides_quiet)?;
    push_if(text, b" --source", charting.source)
}

// Adds an option, where it is asked for.
fn push_if(text: &mut Vec<u8>, option: &[u8], is_asked: bool) -> Result<(), AllocError>
    ensures { OnOk result (text.new.items
        ≡ text.old.items ++ (if is_asked then option.now else [])) }
{
    if is_asked {
        text.extend_from_slice(option)?;
    }
    Ok(())
}

// Adds the options that all runs have in common.
fn push_options(text: &mut Vec<u8>, options: &RunOptions<'_>) -> Result<(), AllocError>
    ensures { OnOk result (text.new.items ≡ text.old.items ++ options_text options.now) }
{
    push_unless(
        text,
        b" --nodes ",
        u64::from(options.default_nodes.count),
        u64::from(options.nodes.count),
    )?;
    push_unless(
        text,
        b" --steps ",
        DEFAULT_STEPS,
        u64::from(options.steps.count),
    )?;
    push_unless(
        text,
        b" --collect ",
        DEFAULT_COLLECT,
        u64::from(options.collect.count),
    )?;
    push_size(text, options.size)
}

fn push_size(text: &mut Vec<u8>, size: Size) -> Result<(), AllocError>
    ensures { OnOk result (text.new.items ≡ text.old.items ++ page_size_text size) }
{
    match size {
        Size::Words64 => Ok(()),
        Size::Words256 => text.extend_from_slice(b" --page 256"),
    }
}

// Adds the options that say how a run goes on.
fn push_way(text: &mut Vec<u8>, way: &Way<'_>) -> Result<(), AllocError>
    ensures { OnOk result (text.new.items ≡ text.old.items ++ way_text way.now) }
{
    match *way {
        Way::Events(path) => push_value(text, b" --events", path.as_bytes()),
        Way::Followed(path, next) => {
            push_value(text, b" --events", path.as_bytes())?;
            push_then(text, next)
        }
        Way::Rounds(picker) => push_order(text, picker),
        Way::Random(seed) => push_random(text, seed),
        Way::Threads(picker) => {
            push_order(text, picker)?;
            text.extend_from_slice(b" --threads")
        }
    }
}

// Adds the option that says how a run goes on behind its events.
fn push_then(text: &mut Vec<u8>, next: Then) -> Result<(), AllocError>
    ensures { OnOk result (text.new.items ≡ text.old.items ++ then_text next) }
{
    match next {
        Then::Rounds(Picker::Oldest) => text.extend_from_slice(b" --then oldest"),
        Then::Rounds(Picker::Newest) => text.extend_from_slice(b" --then newest"),
        Then::Rounds(Picker::Twice) => text.extend_from_slice(b" --then twice"),
        Then::Random(seed) => push_then_random(text, seed),
    }
}

fn push_then_random(text: &mut Vec<u8>, seed: u64) -> Result<(), AllocError>
    ensures { OnOk result (text.new.items ≡ text.old.items ++ then_text (Then.Random seed)) }
{
    text.extend_from_slice(b" --then random")?;
    push_unless(text, b" --seed ", DEFAULT_SEED, seed)
}

fn push_order(text: &mut Vec<u8>, picker: Picker) -> Result<(), AllocError>
    ensures { OnOk result (text.new.items ≡ text.old.items ++ picker_text picker) }
{
    match picker {
        Picker::Oldest => Ok(()),
        Picker::Newest => text.extend_from_slice(b" --order newest"),
        Picker::Twice => text.extend_from_slice(b" --order twice"),
    }
}

fn push_random(text: &mut Vec<u8>, seed: u64) -> Result<(), AllocError>
    ensures { OnOk result (text.new.items ≡ text.old.items ++ way_text (Way.Random seed)) }
{
    text.extend_from_slice(b" --order random")?;
    push_unless(text, b" --seed ", DEFAULT_SEED, seed)
}

// Adds an option and its number, but for the number that it has without words.
fn push_unless(
    text: &mut Vec<u8>,
    option: &[u8],
    default: u64,
    number: u64,
) -> Result<(), AllocError>
    ensures { OnOk result (text.new.items
        ≡ text.old.items ++ option_text option.now default number) }
{
    if number == default {
        return Ok(());
    }
    push_number(text, option, number)
}

// Adds an option and its number, where there is one.
fn push_some_number(
    text: &mut Vec<u8>,
    option: &[u8],
    number: Option<u64>,
) -> Result<(), AllocError>
    ensures { OnOk result (text.new.items ≡ text.old.items ++ some_option_text option.now number) }
{
    match number {
        Some(number) => push_number(text, option, number),
        None => Ok(()),
    }
}
