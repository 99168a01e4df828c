// How many claims of a sort there are.
ghost use Rattle.std.specs.Prelude.{◌≡◌, length};
ghost use Rattle.lrc_races_scored.specs.Sorts.{claims_of, false_of, is_false_of, is_scored, is_true, is_true_of, true_of};

use crate::sort::Sort;
use lrc_races_claims::verdict::Verdict;
use lrc_races_score::report::LinedClaim;

/// How many claims of a sort there are.
#[derive(Clone, Copy, PartialEq, Eq)]
pub struct Tally {
    /// All of them.
    pub claims: u64,
    /// Those that are true.
    pub right: u64,
    /// Those that are false.
    pub wrong: u64,
}

/// Returns how many claims of a report are of a sort.
fn count(sort: Sort, claims: &[LinedClaim<'_>]) -> u64
    ensures { result ≡ claims_of sort claims.now }
{
    let mut count = 0;
    for lined in claims {
        count += u64::from(sort.has(lined.claim));
    }
    count
}

/// Returns whether a claim is true.
pub fn is_right(verdict: Verdict) -> bool
    ensures { result ≡ is_true verdict }
{
    match verdict {
        Verdict::True => true,
        Verdict::False(_) => false,
    }
}

// Whether a claim is of a sort and true.
fn is_right_of(sort: Sort, lined: LinedClaim<'_>, verdict: Verdict) -> bool
    ensures { result ≡ is_true_of sort (lined.entry, verdict) }
{
    sort.has(lined.claim) && is_right(verdict)
}

// Whether a claim is of a sort and false.
fn is_wrong_of(sort: Sort, lined: LinedClaim<'_>, verdict: Verdict) -> bool
    ensures { result ≡ is_false_of sort (lined.entry, verdict) }
{
    sort.has(lined.claim) && !is_right(verdict)
}

// How many claims of a sort are true.
fn count_right(sort: Sort, claims: &[LinedClaim<'_>], verdicts: &[Verdict]) -> u64
    requires { length verdicts.now ≡ length claims.now }
    ensures { result ≡ true_of sort claims.now verdicts.now }
{
    let mut count = 0;
    for (place, lined) in claims.iter().enumerate() {
        count += u64::from(is_right_of(sort, *lined, verdicts[place]));
    }
    count
}

// How many claims of a sort are false.
fn count_wrong(sort: Sort, claims: &[LinedClaim<'_>], verdicts: &[Verdict]) -> u64
    requires { length verdicts.now ≡ length claims.now }
    ensures { result ≡ false_of sort claims.now verdicts.now }
{
    let mut count = 0;
    for (place, lined) in claims.iter().enumerate() {
        count += u64::from(is_wrong_of(sort, *lined, verdicts[place]));
    }
    count
}

/// Returns how many claims of a sort there are, true and false.
pub fn tally_of(sort: Sort, claims: &[LinedClaim<'_>], verdicts: &[Verdict]) -> Tally
    requires { length verdicts.now ≡ length claims.now }
    ensures claims { result.claims ≡ claims_of sort claims.now }
    ensures right { result.right ≡ true_of sort claims.now verdicts.now }
    ensures wrong { result.wrong ≡ false_of sort claims.now verdicts.now }
{
    Tally {
        claims: count(sort, claims),
        right: count_right(sort, claims, verdicts),
        wrong: count_wrong(sort, claims, verdicts),
    }
}

/// Returns whether a sort is scored: some claim of the report is of it. A report without claims counts as one of events.
pub fn is_scored(sort: Sort, claims: &[LinedClaim<'_>]) -> bool
    ensures { result ≡ is_scored sort claims.now }
{
    if claims.is_empty() {
        return sort == Sort::Events;
    }
    count(sort, claims) > 0
}
