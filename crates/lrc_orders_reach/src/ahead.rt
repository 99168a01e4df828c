// What comes of a statement.

ghost use Rattle.std.specs.Prelude.{◌≡◌, ◌<◌, ◌≤◌, ℕ, IfSome, None, true, false};
ghost use Rattle.lrc_program.specs.Sizes.{names_in_expression, names_in_statement};
ghost use Rattle.lrc_program.specs.Statements.{expression_of, statement_of};
ghost use Rattle.lrc_exec.specs.Spots.{IsFlat};
ghost use Rattle.lrc_ranges.specs.Ranges.{IsIn, IsMet};
ghost use Rattle.lrc_orders_reach.specs.Ahead.{Acquires, Assigns, IsAhead, IsBlocked, IsOn, IsOnWith, IsParted, IsPartWhere, ReadsAny};
ghost use Rattle.lrc_orders_reach.specs.Standing.{IsPut, IsStep};

use crate::standing::Standing;
use lrc_exec::spot::Flat;
use lrc_program::{Expression, Statement};
use lrc_ranges::evaluate::range_of;
use lrc_ranges::narrow::narrow;
use lrc_ranges::range::Range;

/// The node that is followed in the code, and the locks that it cannot acquire.
#[derive(Clone, Copy)]
pub struct Follower<'c> {
    pub flat: Flat<'c>,
    pub me: u8,
    pub blocked: &'c [bool; 64],
}

/// The ranges of the names after a statement: where its condition holds, and where it fails. A statement without a
/// condition goes on as if it held. None: the node does not get there.
#[derive(Clone, Copy)]
pub struct Ahead {
    pub holds: Option<[Range; 32]>,
    pub fails: Option<[Range; 32]>,
}

/// Returns the standings that come of a standing by one act: after it, and where a condition fails. None: the node does
/// not get there, or waits at a barrier.
pub fn ahead_at(
    follower: &Follower<'_>,
    standing: &Standing,
) -> (Option<Standing>, Option<Standing>)
    requires { IsFlat follower.now.flat }
    ensures { IsStep follower.now standing.now result.0 result.1 }
{
    let Some(index) = standing.place.checked_sub(1) else {
        return (None, None);
    };
    let code = follower.flat.code;
    if index >= code.len() {
        return (None, None);
    }
    let instruction = &code[index];
    let ahead = ahead_of(follower, instruction.statement, &standing.names);
    (
        standing_at(instruction.then, ahead.holds),
        standing_at(instruction.otherwise, ahead.fails),
    )
}

// The standing at a place, if a node gets there.
fn standing_at(place: usize, names: Option<[Range; 32]>) -> Option<Standing>
    ensures { IsPut place names result }
{
    match names {
        Some(names) => Some(Standing { place, names }),
        None => None,
    }
}

// The ranges of the names after a statement.
fn ahead_of(follower: &Follower<'_>, statement: &Statement, names: &[Range; 32]) -> Ahead
    requires { names_in_statement (statement_of statement.now) ≤ 32 }
    ensures { IsAhead follower.now names.now statement.now result }
{
    match statement {
        Statement::Assign(name, value) => assigned(follower, *name, value, names),
        Statement::Read(name, _) => with_any(*name, names),
        Statement::Write(..) => on(names),
        Statement::Acquire(lock) => acquired(follower, lock, names),
        Statement::Release(_) => on(names),
        Statement::Barrier => nowhere(),
        Statement::Print(_) => on(names),
        Statement::If(condition, ..) => parts(follower, condition, names),
        Statement::While(condition, _) => parts(follower, condition, names),
    }
}

// On with the same ranges.
fn on(names: &[Range; 32]) -> Ahead
    ensures { IsOn names.now result }
{
    Ahead {
        holds: Some(*names),
        fails: None,
    }
}

// No further.
fn nowhere() -> Ahead
    ensures { result ≡ record { holds = None; fails = None } }
{
    Ahead {
        holds: None,
        fails: None,
    }
}

// On with another range for a name.
fn with_name(name: u8, range: Range, names: &[Range; 32]) -> Ahead
    requires { name < 32 }
    ensures { IsOnWith name range names.now result }
{
    let mut new = *names;
    new[name as usize] = range;
    on(&new)
}

// On with any value for a name.
fn with_any(name: u8, names: &[Range; 32]) -> Ahead
    requires { name < 32 }
    ensures { ReadsAny name names.now result }
{
    let range = Range::any();
    with_name(name, range, names)
}

// On with the range of what an expression gives for a name.
fn assigned(follower: &Follower<'_>, name: u8, value: &Expression, names: &[Range; 32]) -> Ahead
    requires name { name < 32 }
    requires names { names_in_expression (expression_of value.now) ≤ 32 }
    ensures { Assigns follower.now name value.now names.now result }
{
    let range = range_of(value, names, follower.me, follower.flat.nodes);
    with_name(name, range, names)
}

// On with the same ranges, if the lock can be acquired.
fn acquired(follower: &Follower<'_>, lock: &Expression, names: &[Range; 32]) -> Ahead
    requires { names_in_expression (expression_of lock.now) ≤ 32 }
    ensures { Acquires follower.now lock.now names.now result }
{
    if is_blocked(follower, lock, names) {
        return nowhere();
    }
    on(names)
}

// Whether the only lock that the expression can be cannot be acquired.
fn is_blocked(follower: &Follower<'_>, lock: &Expression, names: &[Range; 32]) -> bool
    requires { names_in_expression (expression_of lock.now) ≤ 32 }
    ensures { result ≡ true → IsBlocked follower.now lock.now names.now }
{
    let range = range_of(lock, names, follower.me, follower.flat.nodes);
    match only_lock(range) {
        Some(number) => follower.blocked[number],
        None => false,
    }
}

// The only lock in a range, if there is one, and it is one of the 64 that there may be.
fn only_lock(range: Range) -> Option<usize>
    ensures small { IfSome result (λ number. number < 64) }
    ensures only { IfSome result (λ number. (value : ℕ) → IsIn range value → value ≡ number) }
{
    if range.least < 64 && range.greatest == range.least {
        Some(range.least as usize)
    } else {
        None
    }
}

// Where the condition holds, and where it fails.
fn parts(follower: &Follower<'_>, condition: &Expression, names: &[Range; 32]) -> Ahead
    requires { names_in_expression (expression_of condition.now) ≤ 32 }
    ensures { IsParted follower.now condition.now names.now result }
{
    Ahead {
        holds: part(follower, condition, names, true),
        fails: part(follower, condition, names, false),
    }
}

// The ranges where the condition holds, or where it fails.
fn part(
    follower: &Follower<'_>,
    condition: &Expression,
    names: &[Range; 32],
    holds: bool,
) -> Option<[Range; 32]>
    requires { names_in_expression (expression_of condition.now) ≤ 32 }
    ensures { IsPartWhere follower.now condition.now names.now holds result }
{
    let nodes = follower.flat.nodes;
    if !can_be(range_of(condition, names, follower.me, nodes), holds) {
        return None;
    }
    let mut narrowed = *names;
    narrow(condition, holds, &mut narrowed, follower.me, nodes);
    Some(narrowed)
}

// Whether a condition with a value in this range can hold, or fail.
fn can_be(range: Range, holds: bool) -> bool
    ensures { result ≡ false → (value : ℕ) → IsIn range value → ¬ IsMet holds value }
{
    if holds {
        range.greatest > 0
    } else {
        range.least == 0
    }
}
