// What an act knows, in words.

ghost use Rattle.std.specs.Prelude.{◌≡◌, ◌<◌, ◌++◌, OnOk};
ghost use Rattle.std.specs.List.{list_any};
ghost use Rattle.lrc_trace.specs.Interval.{closes};
ghost use Rattle.lrc_why_text.specs.Knowing.{all_news_text, already_line, brings, closed_text, first_interval, interval_line, interval_text, learned_line, learned_text, may_bring, news_lines, news_text, nothing_line, span_text, told_text};

use lrc_text::push_number;
use lrc_trace::act::Deed;
use lrc_why::reasons::{Brought, News};
use lrc_why_lines::lists::{push_joined, push_nodes_line};
use lrc_why_lines::look::{act_at, interval_at, node_at};
use lrc_why_lines::pages::push_pages;
use lrc_why_lines::places::{push_chain, push_since};
use lrc_why_lines::shown::Shown;
use std::alloc::AllocError;

fn closes(deed: Deed) -> bool
    ensures { result ≡ closes deed }
{
    matches!(deed, Deed::Acquire(_) | Deed::Release(_) | Deed::Arrive)
}

#[tactic(auto, unfolding(crate::specs::Knowing::closed_text))]
fn closed_words(closes: bool) -> &'static [u8]
    ensures { result.now ≡ closed_text closes }
{
    if closes {
        b", closed by this act, time "
    } else {
        b", time "
    }
}

#[tactic(auto, unfolding(crate::specs::Knowing::interval_line))]
fn push_interval_line(
    text: &mut Vec<u8>,
    shown: Shown<'_, '_>,
    position: usize,
    time: &[usize],
) -> Result<(), AllocError>
    ensures { OnOk result (text.new.items
        ≡ text.old.items ++ interval_line shown.entry position time.now) }
{
    push_number(text, b"  interval ", interval_at(shown, position))?;
    push_number(text, b" of node ", node_at(shown, position))?;
    text.extend_from_slice(closed_words(closes(act_at(shown, position).deed)))?;
    push_joined(text, b",", time)?;
    text.extend_from_slice(b"\n")
}

#[tactic(auto, unfolding(crate::specs::Knowing::interval_text))]
/// Adds the line on the interval of the act at a position. If the act closes the interval, the pages that the interval
/// writes follow.
pub(crate) fn push_interval(
    text: &mut Vec<u8>,
    shown: Shown<'_, '_>,
    size: u32,
    position: usize,
    time: &[usize],
    words: &[u32],
) -> Result<(), AllocError>
    requires { 0 < size }
    ensures { OnOk result (text.new.items
        ≡ text.old.items ++ interval_text shown.entry size position time.now words.now) }
{
    push_interval_line(text, shown, position, time)?;
    push_pages(text, shown.labels, size, words)
}

#[tactic(auto, unfolding(crate::specs::Knowing::already_line))]
fn push_already(
    text: &mut Vec<u8>,
    shown: Shown<'_, '_>,
    node: usize,
    news: &News,
) -> Result<(), AllocError>
    ensures { OnOk result (text.new.items
        ≡ text.old.items ++ already_line shown.entry node news.now) }
{
    push_number(text, b"  knows node ", node as u64)?;
    push_number(text, b" up to interval ", interval_at(shown, news.last))?;
    text.extend_from_slice(b", ")?;
    push_since(text, shown, &news.since)?;
    text.extend_from_slice(b"\n")
}

#[tactic(auto, unfolding(crate::specs::Knowing::span_text))]
fn push_span(text: &mut Vec<u8>, first: u64, last: u64) -> Result<(), AllocError>
    ensures { OnOk result (text.new.items ≡ text.old.items ++ span_text first last) }
{
    if first == last {
        return push_number(text, b"  learns interval ", first);
    }
    push_number(text, b"  learns intervals ", first)?;
    push_number(text, b" to ", last)
}

// The interval of the first of these acts.
fn first_interval(shown: Shown<'_, '_>, acts: &[usize]) -> u64
    ensures { result ≡ first_interval shown.entry acts.now }
{
    match acts {
        [] => 0,
        [first, ..] => interval_at(shown, *first),
    }
}

#[tactic(auto, unfolding(crate::specs::Knowing::learned_line))]
fn push_learned_line(
    text: &mut Vec<u8>,
    shown: Shown<'_, '_>,
    node: usize,
    news: &News,
    brought: &Brought,
) -> Result<(), AllocError>
    ensures { OnOk result (text.new.items
        ≡ text.old.items ++ learned_line shown.entry node news.now brought.now) }
{
    push_span(
        text,
        first_interval(shown, &brought.acts),
        interval_at(shown, news.last),
    )?;
    push_number(text, b" of node ", node as u64)?;
    push_chain(text, &news.since.chain)?;
    text.extend_from_slice(b"\n")
}

#[tactic(auto, unfolding(crate::specs::Knowing::learned_text))]
fn push_learned(
    text: &mut Vec<u8>,
    shown: Shown<'_, '_>,
    size: u32,
    node: usize,
    news: &News,
    brought: &Brought,
) -> Result<(), AllocError>
    requires { 0 < size }
    ensures { OnOk result (text.new.items
        ≡ text.old.items ++ learned_text shown.entry size node news.now brought.now) }
{
    push_learned_line(text, shown, node, news, brought)?;
    push_pages(text, shown.labels, size, &brought.words)
}

#[tactic(auto, unfolding(crate::specs::Knowing::told_text))]
fn push_told(
    text: &mut Vec<u8>,
    shown: Shown<'_, '_>,
    size: u32,
    node: usize,
    news: &News,
) -> Result<(), AllocError>
    requires { 0 < size }
    ensures { OnOk result (text.new.items
        ≡ text.old.items ++ told_text shown.entry size node news.now news.now.brought) }
{
    match &news.brought {
        Some(brought) => push_learned(text, shown, size, node, news, brought),
        None => push_already(text, shown, node, news),
    }
}

#[tactic(auto, unfolding(crate::specs::Knowing::news_text))]
fn push_news(
    text: &mut Vec<u8>,
    shown: Shown<'_, '_>,
    size: u32,
    node: usize,
    news: &Option<News>,
) -> Result<(), AllocError>
    requires { 0 < size }
    ensures { OnOk result (text.new.items
        ≡ text.old.items ++ news_text shown.entry size node news.now) }
{
    match news {
        Some(news) => push_told(text, shown, size, node, news),
        None => Ok(()),
    }
}

fn push_news_lines(
    text: &mut Vec<u8>,
    shown: Shown<'_, '_>,
    size: u32,
    news: &[Option<News>],
) -> Result<(), AllocError>
    requires { 0 < size }
    ensures { OnOk result (text.new.items
        ≡ text.old.items ++ news_lines shown.entry size news.now) }
{
    for node in 0..news.len() {
        push_news(text, shown, size, node, &news[node])?;
    }
    Ok(())
}

// Whether something is learned of a node.
fn brings(news: &Option<News>) -> bool
    ensures { result ≡ brings news.now }
{
    match news {
        Some(news) => news.brought.is_some(),
        None => false,
    }
}

fn may_bring(deed: Deed) -> bool
    ensures { result ≡ may_bring deed }
{
    matches!(deed, Deed::Acquire(_) | Deed::Depart)
}

// Whether something is learned of some node.
fn some_brings(news: &[Option<News>]) -> bool
    ensures { result ≡ list_any brings news.now }
{
    news.iter().any(|news| brings(news))
}

#[tactic(auto, unfolding(crate::specs::Knowing::nothing_line))]
fn push_nothing(text: &mut Vec<u8>, deed: Deed, news: &[Option<News>]) -> Result<(), AllocError>
    ensures { OnOk result (text.new.items ≡ text.old.items ++ nothing_line deed news.now) }
{
    if news.len() > 1 && (may_bring(deed) && !some_brings(news)) {
        return text.extend_from_slice(b"  learns nothing\n");
    }
    Ok(())
}

#[tactic(auto, unfolding(crate::specs::Knowing::all_news_text))]
/// Adds the lines that tell what an act with this deed knows of the other nodes.
pub(crate) fn push_all_news(
    text: &mut Vec<u8>,
    shown: Shown<'_, '_>,
    size: u32,
    deed: Deed,
    news: &[Option<News>],
    unknown: &[u8],
) -> Result<(), AllocError>
    requires { 0 < size }
    ensures { OnOk result (text.new.items
        ≡ text.old.items ++ all_news_text shown.entry size deed news.now unknown.now) }
{
    push_news_lines(text, shown, size, news)?;
    push_nodes_line(text, b"  knows nothing of ", unknown)?;
    push_nothing(text, deed, news)
}
