// Following a node's text up to its next barriers.

ghost use Rattle.std.specs.Prelude.{◌≡◌, IfOk, IfSome, true};
ghost use Rattle.lrc_exec.specs.Spots.{IsFlat};
ghost use Rattle.lrc_orders_reach.specs.Standing.{HasSome, IsClosed, IsClosedAt, IsReach};

use crate::ahead::{Follower, ahead_at};
use crate::standing::Standing;
use lrc_exec::spot::Spot;
use lrc_program::Statement;
use std::alloc::{AllocError, Global};

// So many standings are kept apart; further ones are joined to those of their places.
const MOST_APART: usize = 24;

// After so many joins at a loop, what still grows there has no bound.
const MOST_JOINS: u8 = 4;

// So many standings are followed; a text that needs more is given up.
const MOST_FOLLOWED: usize = 100_000;

// Standings that are being followed: all that were met, how often others were joined to each, and those that are still to
// be followed.
#[derive(Drop)]
struct Following {
    met: Vec<Standing>,
    joins: Vec<u8>,
    waiting: Vec<usize>,
}

/// Follows the text of a node from where it stands, up to its next barriers, through every branch that may be taken,
/// whatever words hold, and past no acquire of a lock that it cannot acquire. Returns standings that have each thread
/// that comes so, or none if too many were met. It fails if memory runs out.
pub fn follow(
    alloc: Global,
    follower: &Follower<'_>,
    spot: &Spot,
) -> Result<Option<Vec<Standing>>, AllocError>
    requires flat { IsFlat follower.now.flat }
    requires me { follower.now.me ≡ spot.now.me }
    ensures { IfOk result (λ found. IfSome found (λ all. IsReach follower.now spot.now all.items)) }
{
    if spot.stopped || spot.arrived {
        return Ok(Some(Vec::new(alloc)));
    }
    let first = Standing::of(spot);
    let all = met_from(alloc, follower, first)?;
    if !has(&all, Some(first)) {
        return Ok(None);
    }
    if !is_closed(follower, &all) {
        return Ok(None);
    }
    Ok(Some(all))
}

// Whether what comes of each of the standings is among them.
fn is_closed(follower: &Follower<'_>, all: &[Standing]) -> bool
    requires { IsFlat follower.now.flat }
    ensures { result ≡ true → IsClosed follower.now all.now }
{
    for standing in all {
        if !is_closed_at(follower, all, standing) {
            return false;
        }
    }
    true
}

// Whether what comes of one of them is among them.
fn is_closed_at(follower: &Follower<'_>, all: &[Standing], standing: &Standing) -> bool
    requires { IsFlat follower.now.flat }
    ensures { result ≡ true → IsClosedAt follower.now all.now standing.now }
{
    let (first, second) = ahead_at(follower, standing);
    if !has(all, first) {
        return false;
    }
    has(all, second)
}

// Whether one of the standings covers this one, if there is one.
fn has(all: &[Standing], standing: Option<Standing>) -> bool
    ensures { result ≡ true → HasSome all.now standing }
{
    let Some(standing) = standing else {
        return true;
    };
    for index in 0..all.len() {
        if all[index].covers(&standing) {
            return true;
        }
    }
    false
}

// The standings that are met from the first one on. (That none is missing is checked afterwards.)
fn met_from(
    alloc: Global,
    follower: &Follower<'_>,
    first: Standing,
) -> Result<Vec<Standing>, AllocError>
    requires { IsFlat follower.now.flat }
{
    let mut following = Following {
        met: Vec::new(alloc),
        joins: Vec::new(alloc),
        waiting: Vec::new(alloc),
    };
    following.add(follower, Some(first))?;
    for _step in 0..MOST_FOLLOWED {
        let Some(next) = following.take() else {
            break;
        };
        let (first, second) = ahead_at(follower, &next);
        following.add(follower, second)?;
        following.add(follower, first)?;
    }
    Ok(following.met)
}

impl Following {
    // A standing that is still to be followed, taken off.
    fn take(&mut self) -> Option<Standing> {
        let place = self.waiting.pop()?;
        self.met.get(place).copied()
    }

    // Adds a standing, if none that was met covers it: by itself, or joined to one of its place where there are many.
    fn add(
        &mut self,
        follower: &Follower<'_>,
        standing: Option<Standing>,
    ) -> Result<(), AllocError> {
        let Some(new) = standing else {
            return Ok(());
        };
        if has(&self.met, standing) {
            return Ok(());
        }
        if self.met.len() >= MOST_APART {
            if let Some(index) = last_at(&self.met, new.place) {
                self.join(follower, index, &new);
                self.waiting.push(index)?;
                return Ok(());
            }
        }
        self.waiting.push(self.met.len())?;
        self.met.push(new)?;
        self.joins.push(0)?;
        Ok(())
    }

    // Joins a standing to one that was met.
    fn join(&mut self, follower: &Follower<'_>, index: usize, new: &Standing) {
        if index >= self.met.len() || index >= self.joins.len() {
            return;
        }
        let widens = if self.joins[index] < MOST_JOINS {
            [false; 32]
        } else {
            names_set_at(follower, new.place)
        };
        self.met[index] = joined(&self.met[index], new, &widens);
        self.joins[index] = self.joins[index].saturating_add(1);
    }
}

// The last standing of a place that was met.
fn last_at(met: &[Standing], place: usize) -> Option<usize> {
    let mut last = None;
    for index in 0..met.len() {
        if met[index].place == place {
            last = Some(index);
        }
    }
    last
}

// Two standings of one place joined; what grows of these names has no bound.
fn joined(first: &Standing, second: &Standing, widens: &[bool; 32]) -> Standing {
    let mut names = first.names;
    for name in 0..32 {
        names[name] = if widens[name] {
            first.names[name].widened(second.names[name])
        } else {
            first.names[name].joined(second.names[name])
        };
    }
    Standing {
        place: first.place,
        names,
    }
}

// The names that the body of the loop at a place sets; none where there is no loop.
fn names_set_at(follower: &Follower<'_>, place: usize) -> [bool; 32] {
    let mut names = [false; 32];
    let Some(index) = place.checked_sub(1) else {
        return names;
    };
    let code = follower.flat.code;
    if index >= code.len() {
        return names;
    }
    let instruction = &code[index];
    add_set_in_loop(instruction.statement, &mut names);
    names
}

// Adds the names that the body of a loop sets; of no other statement any.
fn add_set_in_loop(statement: &Statement, names: &mut [bool; 32]) {
    if let Statement::While(_, body) = statement {
        add_set_all(body, names);
    }
}

// Adds the names that a statement sets.
#[cycle(set)]
fn add_set(statement: &Statement, names: &mut [bool; 32]) {
    match statement {
        Statement::Assign(name, _) => add_name(*name, names),
        Statement::Read(name, _) => add_name(*name, names),
        Statement::If(_, first, second) => {
            add_set_all(first, names);
            add_set_all(second, names);
        }
        Statement::While(_, body) => add_set_all(body, names),
        _ => {}
    }
}

// The same of several statements.
#[cycle(set)]
fn add_set_all(statements: &[Statement], names: &mut [bool; 32]) {
    for place in 0..statements.len() {
        add_set(&statements[place], names);
    }
}

// Adds a name.
fn add_name(name: u8, names: &mut [bool; 32]) {
    if name < 32 {
        names[name as usize] = true;
    }
}
