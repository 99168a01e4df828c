// Reading a report.
ghost use Rattle.std.specs.Prelude.{◌≡◌, ℕ, ◌↔◌, List, [], ◌∷◌, ◌++◌, IfErr, IfOk, IsTrue, MatchBool, MatchOption, OnOk, Err, Ok};
ghost use Rattle.lrc_races_lines.specs.Line.{IsBody, IsBlank};
ghost use Rattle.lrc_races_score.specs.Claims.{Statement, statement_of};
ghost use Rattle.lrc_races_score.specs.Report.{SaysNothing, Says, ReadsReport};
ghost use Rattle.lrc_races_score.specs.declared.report.ReportFault.TheVariants.{NoMemory};

use crate::claim::Claim;
use crate::reading::read_claim;
use std::alloc::{AllocError, AllocFailed, Global};

/// The longest report, in bytes.
pub const MOST_BYTES: usize = 67_108_864;

/// A claim, and where it stands.
#[derive(Clone, Copy)]
pub struct LinedClaim<'a> {
    /// The number of its line, counted from 1.
    pub line: u64,
    /// The claim.
    pub claim: Claim<'a>,
}

/// The claims of a report, in order.
#[derive(Drop)]
pub struct Report<'a> {
    /// The claims.
    pub claims: Vec<LinedClaim<'a>>,
}

/// Why a text is no report.
#[derive(Clone, Copy, Debug, PartialEq, Eq)]
pub enum ReportFault {
    /// The text is longer than [`MOST_BYTES`].
    TooLong,
    /// The line with this number, counted from 1, is no claim.
    BadClaim(u64),
    /// Memory ran out.
    NoMemory,
}

impl<T: Drop> From<AllocFailed<T>> for ReportFault {
    ghost from_gives = { λ _ fault. fault ≡ NoMemory };

    fn from(_error: AllocFailed<T>) -> ReportFault {
        ReportFault::NoMemory
    }
}

impl From<AllocError> for ReportFault {
    ghost from_gives = { λ _ fault. fault ≡ NoMemory };

    fn from(_error: AllocError) -> ReportFault {
        ReportFault::NoMemory
    }
}

// What stands before this byte, where it is the last.
fn without_last(text: &[u8], byte: u8) -> Option<&[u8]>
    ensures { MatchOption result ((front : List ℕ) → text.now ≡ front ++ byte ∷ [] → ⊥)
        (λ front. text.now ≡ front.now ++ byte ∷ []) }
{
    let (last, front) = text.split_last()?;
    if *last == byte { Some(front) } else { None }
}

// What of a line is no carriage return at its end.
fn body_of(line: &[u8]) -> &[u8]
    ensures { IsBody line.now result.now }
{
    match without_last(line, b'\r') {
        Some(body) => body,
        None => line,
    }
}

fn is_blank(body: &[u8]) -> bool
    ensures { IsTrue result ↔ IsBlank body.now }
{
    match body.split_first() {
        Some((first, _behind)) => *first == b'#',
        None => true,
    }
}

// Whether a line says nothing.
fn says_nothing(line: &[u8]) -> bool
    ensures { MatchBool result (SaysNothing line.now) (¬ SaysNothing line.now) }
{
    is_blank(body_of(line))
}

// The claim on a line.
fn claim_on(line: &[u8]) -> Option<Claim<'_>>
    ensures { MatchOption result ((claim : Statement) → ¬ Says line.now claim)
        (λ claim. Says line.now (statement_of claim)) }
{
    read_claim(body_of(line))
}

// Adds a claim.
fn push_claim<'a>(report: &mut Report<'a>, claim: Claim<'a>, line: u64) -> Result<(), AllocError>
    ensures { OnOk result (report.new.claims.items
        ≡ report.old.claims.items ++ (record { line = line; claim = claim.entry }) ∷ []) }
{
    report.claims.push(LinedClaim { line, claim })?;
    Ok(())
}

/// Reads the claims of a report, one on each line; an empty line and a comment, which begins with #, say nothing. One
/// carriage return at the end of a line is no part of it. The call fails with `TooLong` for a text of more than
/// 67,108,864 bytes, and with `BadClaim` at the first line that is no claim.
pub fn report_of(alloc: Global, text: &[u8]) -> Result<Report<'_>, ReportFault>
    ensures ok { IfOk result (λ report. ReadsReport text.now (Ok report)) }
    ensures err { IfErr result (λ fault. ReadsReport text.now (Err fault)) }
{
    if text.len() > MOST_BYTES {
        return Err(ReportFault::TooLong);
    }
    let mut report = Report {
        claims: Vec::new(alloc),
    };
    let mut number = 0;
    for line in text.split(|byte| *byte == b'\n') {
        number += 1;
        if says_nothing(line) {
            continue;
        }
        match claim_on(line) {
            Some(claim) => push_claim(&mut report, claim, number)?,
            None => return Err(ReportFault::BadClaim(number)),
        }
    }
    Ok(report)
}
