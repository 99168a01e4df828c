// Standings at which a thread may be about to make an act that conflicts.

ghost use Rattle.std.specs.Prelude.{◌≡◌, ◌≤◌, false};
ghost use Rattle.lrc_program.specs.Sizes.{names_in_statement, names_in_expression};
ghost use Rattle.lrc_program.specs.Statements.{statement_of, expression_of};
ghost use Rattle.lrc_exec.specs.Spots.{IsFlat};
ghost use Rattle.lrc_orders_away.specs.Away.{AreAway, IsAwayAt, IsAwayBy, IsNever, IsNoAcquire, IsNoRead, IsNoWrite};

use lrc_orders_reach::ahead::Follower;
use lrc_orders_reach::standing::Standing;
use lrc_program::{Expression, Statement};
use lrc_ranges::evaluate::range_of;
use lrc_ranges::range::Range;
use lrc_trace::act::Deed;

/// Returns whether a thread at one of these standings may be about to make an act that conflicts with the deed.
pub fn may_conflict(follower: &Follower<'_>, all: &[Standing], deed: Deed) -> bool
    requires { IsFlat follower.now.flat }
    ensures { result ≡ false → AreAway follower.now all.now deed }
{
    for standing in all {
        if may_conflict_at(follower, standing, deed) {
            return true;
        }
    }
    false
}

// The same of one standing.
fn may_conflict_at(follower: &Follower<'_>, standing: &Standing, deed: Deed) -> bool
    requires { IsFlat follower.now.flat }
    ensures { result ≡ false → IsAwayAt follower.now standing.now deed }
{
    let Some(index) = standing.place.checked_sub(1) else {
        return false;
    };
    let code = follower.flat.code;
    if index >= code.len() {
        return false;
    }
    let instruction = &code[index];
    may_conflict_by(follower, instruction.statement, &standing.names, deed)
}

// The same of a statement that comes next.
fn may_conflict_by(
    follower: &Follower<'_>,
    statement: &Statement,
    names: &[Range; 32],
    deed: Deed,
) -> bool
    requires { names_in_statement (statement_of statement.now) ≤ 32 }
    ensures { result ≡ false → IsAwayBy follower.now names.now deed statement.now }
{
    match statement {
        Statement::Read(_, word) => may_be_written(follower, word, names, deed),
        Statement::Write(word, _) => may_be_accessed(follower, word, names, deed),
        Statement::Acquire(lock) => may_be_acquired(follower, lock, names, deed),
        _ => false,
    }
}

// Whether the deed may be a write of the word that the expression gives.
fn may_be_written(
    follower: &Follower<'_>,
    word: &Expression,
    names: &[Range; 32],
    deed: Deed,
) -> bool
    requires { names_in_expression (expression_of word.now) ≤ 32 }
    ensures { result ≡ false → IsNoWrite follower.now word.now names.now deed }
{
    match deed {
        Deed::Write(written, _) => may_be(follower, word, names, u64::from(written)),
        _ => false,
    }
}

// Whether the deed may be a read or a write of the word that the expression gives.
fn may_be_accessed(
    follower: &Follower<'_>,
    word: &Expression,
    names: &[Range; 32],
    deed: Deed,
) -> bool
    requires { names_in_expression (expression_of word.now) ≤ 32 }
    ensures read { result ≡ false → IsNoRead follower.now word.now names.now deed }
    ensures written { result ≡ false → IsNoWrite follower.now word.now names.now deed }
{
    match deed {
        Deed::Read(accessed, _) => may_be(follower, word, names, u64::from(accessed)),
        Deed::Write(accessed, _) => may_be(follower, word, names, u64::from(accessed)),
        _ => false,
    }
}

// Whether the deed may be an acquire of the lock that the expression gives.
fn may_be_acquired(
    follower: &Follower<'_>,
    lock: &Expression,
    names: &[Range; 32],
    deed: Deed,
) -> bool
    requires { names_in_expression (expression_of lock.now) ≤ 32 }
    ensures { result ≡ false → IsNoAcquire follower.now lock.now names.now deed }
{
    match deed {
        Deed::Acquire(acquired) => may_be(follower, lock, names, u64::from(acquired)),
        _ => false,
    }
}

// Whether an expression may have this value.
fn may_be(follower: &Follower<'_>, expression: &Expression, names: &[Range; 32], value: u64) -> bool
    requires { names_in_expression (expression_of expression.now) ≤ 32 }
    ensures { result ≡ false → IsNever follower.now expression.now names.now value }
{
    range_of(expression, names, follower.me, follower.flat.nodes).has(value)
}
