// Races by groups: those whose first pairs are of the same lines and kinds.

ghost use Rattle.std.specs.Prelude.{◌≡◌, ◌<◌, ◌++◌, count_by, map, unwrap_or, All, IfOk, OnOk};
ghost use Rattle.std.specs.BTreeMap.{get};
ghost use Rattle.lrc_explain.specs.declared.site.Site.{Site as SiteRecord};
ghost use Rattle.lrc_explain.specs.Groups.{count_words, group_if, group_text, groups_text, is_of_site, IsWithin};
ghost use Rattle.lrc_explain.specs.Groups.{access_kind_text, later_line_words, line_words, pair_text, site_line, word_words};
ghost use Rattle.lrc_judge.specs.declared.TheConstants.{NODES};
ghost use Rattle.lrc_labels.specs.Reading.{label_seen};
ghost use Rattle.lrc_explain.specs.Before.{IsBeforeActs};
ghost use Rattle.lrc_explain.specs.Site.{site_cmp};

use crate::access::push_access;
use crate::before::Before;
use crate::site::{Site, act_at, site_of};
use lrc_judge::first_pairs::Pair;
use lrc_judge::races::word_of;
use lrc_labels::label::Label;
use lrc_labels::push_numbered_word;
use lrc_text::push_number;
use lrc_trace::act::Act;
use std::alloc::{AllocError, Global};
use std::collections::BTreeMap;

// How many there are of a site.
fn count_at(counts: &BTreeMap<Site, u64>, site: Site) -> u64
    ensures { result ≡ unwrap_or (get site_cmp counts.now site) 0 }
{
    match counts.get(&site) {
        Some(count) => *count,
        None => 0,
    }
}

// How many of the pairs are of each site.
fn counts_of(
    alloc: Global,
    acts: &[Act],
    lines: &[u32],
    pairs: &[Pair],
) -> Result<BTreeMap<Site, u64>, AllocError>
    ensures { IfOk result (λ counts. (site : SiteRecord) → unwrap_or (get site_cmp counts site) 0
        ≡ count_by (is_of_site acts.now lines.now site) pairs.now) }
{
    let mut counts = BTreeMap::new(alloc);
    for at in 0..pairs.len() {
        let site = site_of(acts, lines, pairs[at]);
        let count = count_at(&counts, site);
        let next = count + 1;
        counts.insert(site, next)?;
    }
    Ok(counts)
}

fn kind_of(writes: bool) -> &'static [u8]
    ensures { result.now ≡ access_kind_text writes }
{
    if writes { b" write" } else { b" read" }
}

fn push_line(text: &mut Vec<u8>, number: u64) -> Result<(), AllocError>
    ensures { OnOk result (text.new.items ≡ text.old.items ++ line_words number) }
{
    push_number(text, b"race line ", number)
}

fn push_later_line(text: &mut Vec<u8>, number: u64) -> Result<(), AllocError>
    ensures { OnOk result (text.new.items ≡ text.old.items ++ later_line_words number) }
{
    push_number(text, b", line ", number)
}

fn push_count(text: &mut Vec<u8>, number: u64) -> Result<(), AllocError>
    ensures { OnOk result (text.new.items ≡ text.old.items ++ count_words number) }
{
    push_number(text, b": ", number)
}

fn push_word(text: &mut Vec<u8>, labels: &[Label<'_>], word: u32) -> Result<(), AllocError>
    ensures { OnOk result (text.new.items
        ≡ text.old.items ++ word_words (map label_seen labels.now) word) }
{
    push_numbered_word(text, labels, b"  word ", word)
}

fn push_site(text: &mut Vec<u8>, site: Site, count: u64) -> Result<(), AllocError>
    ensures { OnOk result (text.new.items ≡ text.old.items ++ site_line site count) }
{
    push_line(text, u64::from(site.line))?;
    text.extend_from_slice(kind_of(site.writes))?;
    push_later_line(text, u64::from(site.later_line))?;
    text.extend_from_slice(kind_of(site.later_writes))?;
    push_count(text, count)?;
    text.extend_from_slice(b"\n")
}

fn push_pair(
    text: &mut Vec<u8>,
    labels: &[Label<'_>],
    acts: &[Act],
    before: &Before,
    pair: Pair,
) -> Result<(), AllocError>
    requires within { IsWithin acts.now pair }
    requires before { IsBeforeActs acts.now before.now }
    ensures { OnOk result (text.new.items
        ≡ text.old.items ++ pair_text (map label_seen labels.now) acts.now pair) }
{
    let word = word_of(act_at(acts, pair.later).deed);
    push_word(text, labels, word)?;
    text.extend_from_slice(b": ")?;
    push_access(text, acts, before, pair.earlier)?;
    text.extend_from_slice(b", ")?;
    push_access(text, acts, before, pair.later)?;
    text.extend_from_slice(b"\n")
}

// Adds the two lines of a group of so many races, of which this is the least pair.
fn push_group(
    text: &mut Vec<u8>,
    labels: &[Label<'_>],
    acts: &[Act],
    before: &Before,
    lines: &[u32],
    pair: Pair,
    count: u64,
) -> Result<(), AllocError>
    requires within { IsWithin acts.now pair }
    requires before { IsBeforeActs acts.now before.now }
    ensures { OnOk result (text.new.items
        ≡ text.old.items ++ group_text (map label_seen labels.now) acts.now lines.now pair count) }
{
    push_site(text, site_of(acts, lines, pair), count)?;
    push_pair(text, labels, acts, before, pair)
}

// The same, if there is such a number.
fn push_group_if(
    text: &mut Vec<u8>,
    labels: &[Label<'_>],
    acts: &[Act],
    before: &Before,
    lines: &[u32],
    pair: Pair,
    count: Option<u64>,
) -> Result<(), AllocError>
    requires within { IsWithin acts.now pair }
    requires before { IsBeforeActs acts.now before.now }
    ensures { OnOk result (text.new.items
        ≡ text.old.items ++ group_if (map label_seen labels.now) acts.now lines.now pair count) }
{
    match count {
        Some(count) => push_group(text, labels, acts, before, lines, pair, count),
        None => Ok(()),
    }
}

/// Returns the groups of these pairs, in the order of their first pairs. Each group is told with its number of pairs
/// and its first pair, whose word has its label.
pub(crate) fn groups_part(
    alloc: Global,
    labels: &[Label<'_>],
    acts: &[Act],
    lines: &[u32],
    pairs: &[Pair],
) -> Result<Vec<u8>, AllocError>
    requires nodes { All (λ act. act.node < NODES) acts.now }
    requires within { All (IsWithin acts.now) pairs.now }
    ensures { IfOk result (λ part. part.items
        ≡ groups_text (map label_seen labels.now) acts.now lines.now pairs.now) }
{
    let before = Before::of(alloc, acts)?;
    let mut counts = counts_of(alloc, acts, lines, pairs)?;
    let mut text = Vec::new(alloc);
    for at in 0..pairs.len() {
        let pair = pairs[at];
        let site = site_of(acts, lines, pair);
        let count = counts.remove(&site);
        push_group_if(&mut text, labels, acts, &before, lines, pair, count)?;
    }
    Ok(text)
}
