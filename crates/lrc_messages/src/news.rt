// Times and intervals in words.

ghost use Rattle.std.specs.Prelude.{◌≡◌, ◌++◌, OnErr, OnOk, codes, decimal};
ghost use Rattle.lrc_text.specs.Front.{BeginsWith};
ghost use Rattle.lrc_acts_text.specs.Json.{with_commas};
ghost use Rattle.lrc_store.specs.Interval.{index_of};
ghost use Rattle.lrc_messages.specs.Lists.{before, separated, separated_or_dash};
ghost use Rattle.lrc_messages.specs.MessageText.{collect_text, interval_text, news_text, time_text};

use crate::lists::{push_before, push_pages};
use lrc_acts_text::push_entries;
use lrc_envelope::News;
use lrc_page::Pages;
use lrc_store::{Interval, Intervals};
use lrc_text::push_number;
use lrc_time::Time;
use std::alloc::AllocError;

/// Adds the entries of a vector time.
pub(crate) fn push_time(text: &mut Vec<u8>, time: &Time) -> Result<(), AllocError>
    ensures ok { OnOk result (text.new.items ≡ text.old.items ++ time_text time.now) }
    ensures err { OnErr result (BeginsWith text.new.items text.old.items) }
{
    text.extend_from_slice(b" time ")?;
    push_entries(text, time)
}

// Adds the node of an interval, and its number among those of that node.
fn push_interval_name(text: &mut Vec<u8>, interval: &Interval) -> Result<(), AllocError>
    ensures ok { OnOk result (text.new.items
        ≡ text.old.items ++ (decimal interval.now.node ++ codes "."
        ++ decimal (index_of interval.now))) }
    ensures err { OnErr result (BeginsWith text.new.items text.old.items) }
{
    push_number(text, b"", u64::from(interval.node))?;
    push_number(text, b".", u64::from(interval.index()))
}

// Adds the numbers of pages in brackets.
fn push_bracketed(text: &mut Vec<u8>, pages: &Pages) -> Result<(), AllocError>
    ensures ok { OnOk result (text.new.items
        ≡ text.old.items ++ (codes "[" ++ with_commas pages.now ++ codes "]")) }
    ensures err { OnErr result (BeginsWith text.new.items text.old.items) }
{
    text.extend_from_slice(b"[")?;
    push_pages(text, pages)?;
    text.extend_from_slice(b"]")
}

fn push_interval(text: &mut Vec<u8>, place: usize, interval: &Interval) -> Result<(), AllocError>
    ensures ok { OnOk result (text.new.items
        ≡ text.old.items ++ before place (codes " ") ++ interval_text interval.now) }
    ensures err { OnErr result (BeginsWith text.new.items text.old.items) }
{
    push_before(text, place, b" ")?;
    push_interval_name(text, interval)?;
    push_bracketed(text, &interval.pages)
}

fn push_intervals(text: &mut Vec<u8>, intervals: &Intervals) -> Result<(), AllocError>
    ensures ok { OnOk result (text.new.items
        ≡ text.old.items ++ separated (codes " ") interval_text intervals.now) }
    ensures err { OnErr result (BeginsWith text.new.items text.old.items) }
{
    for place in 0..intervals.len() {
        push_interval(text, place, intervals.at(place))?;
    }
    Ok(())
}

fn push_intervals_or_dash(text: &mut Vec<u8>, intervals: &Intervals) -> Result<(), AllocError>
    ensures ok { OnOk result (text.new.items
        ≡ text.old.items ++ separated_or_dash (codes " ") interval_text intervals.now) }
    ensures err { OnErr result (BeginsWith text.new.items text.old.items) }
{
    if intervals.is_empty() {
        text.extend_from_slice(b"-")
    } else {
        push_intervals(text, intervals)
    }
}

/// Adds a vector time and intervals with their write notices.
pub(crate) fn push_news(text: &mut Vec<u8>, news: &News) -> Result<(), AllocError>
    ensures ok { OnOk result (text.new.items
        ≡ text.old.items ++ news_text news.now.time news.now.intervals) }
    ensures err { OnErr result (BeginsWith text.new.items text.old.items) }
{
    push_time(text, &news.time)?;
    text.extend_from_slice(b" news ")?;
    push_intervals_or_dash(text, &news.intervals)
}

/// Adds that the message asks for a collection or announces one, if `collects` is true.
pub(crate) fn push_collect(text: &mut Vec<u8>, collects: bool) -> Result<(), AllocError>
    ensures ok { OnOk result (text.new.items ≡ text.old.items ++ collect_text collects) }
    ensures err { OnErr result (BeginsWith text.new.items text.old.items) }
{
    if collects {
        text.extend_from_slice(b" collect")
    } else {
        Ok(())
    }
}
