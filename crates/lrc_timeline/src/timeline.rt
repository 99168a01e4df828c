// The times of a run's acts, in little memory.

ghost use Rattle.std.specs.Prelude.{◌≡◌, ◌<◌, All, length};
ghost use Rattle.std.specs.Option.{ForSome};

use lrc_time::{MOST_NODES, Time};
use std::alloc::{AllocError, Global};

/// The times of the acts of a run, in the order of the acts. A time is kept once for as long as it is its node's: only
/// acts that change it take memory for a time.
#[derive(Drop)]
pub struct Timeline {
    /// The times that are kept.
    kept: Vec<Time>,
    /// For each act, the place of its time among those kept.
    places: Vec<usize>,
    /// For each node, the place of its newest time.
    newest: [Option<usize>; MOST_NODES],
    ghost all_nodes: { length newest ≡ 16 },
    ghost places_are_kept: { All (λ place. place < length kept.items) places.items },
    ghost newest_is_kept: { All (λ last. ForSome last (λ place. place < length kept.items)) newest },
}

impl Timeline {
    ghost use Rattle.std.specs.Prelude.{◌≡◌, ◌<◌, ◌++◌, ◌∷◌, [], IfOk, IfSome, List, OnOk, if◌then◌else◌, is_some, length, option_map, slice_get};
    ghost use Rattle.lrc_timeline.specs.Timeline.{IsKeptAt, IsTimelineOf, KeepsAt, Timed, brought, newest_in, times_in};

    /// Returns the timeline before any act.
    pub fn none(alloc: Global) -> Timeline
        ensures { IsTimelineOf [] result }
    {
        Timeline {
            kept: Vec::new(alloc),
            places: Vec::new(alloc),
            newest: [None; MOST_NODES],
        }
    }

    /// Adds an act of a node below 16, with the node's time just after it. It fails if memory runs out; what the
    /// timeline then has is unspecified.
    pub fn push(&mut self, node: u8, time: &Time) -> Result<(), AllocError>
        requires { node < 16 }
        ensures line { (acts : List Timed) → IsTimelineOf acts self.old → OnOk result
            (IsTimelineOf (acts ++ record { node = node; time = time.now } ∷ []) self.new) }
        ensures times { OnOk result (times_in self.new ≡ times_in self.old ++ time.now ∷ []) }
    {
        let place = self.place_for(node, time)?;
        self.places.push(place)?;
        self.newest[usize::from(node)] = Some(place);
        Ok(())
    }

    /// Returns how many acts there are.
    pub fn len(&self) -> usize
        ensures { result ≡ length (times_in self.now) }
    {
        self.places.len()
    }

    /// Returns the time of the act at a position, if there is one.
    pub fn at(&self, position: usize) -> Option<&Time>
        ensures { option_map (λ time. time.now) result ≡ slice_get (times_in self.now) position }
    {
        match self.places.get(position) {
            Some(place) => Some(&self.kept[*place]),
            None => None,
        }
    }

    /// Returns how many times are kept.
    pub fn kept(&self) -> usize
        ensures { result ≡ length self.now.kept.items }
    {
        self.kept.len()
    }

    // The place of a time: that of the node's newest time if it is the same, and else that of a copy.
    fn place_for(&mut self, node: u8, time: &Time) -> Result<usize, AllocError>
        requires { node < 16 }
        ensures { IfOk result
            (KeepsAt (brought (newest_in self.old node) time.now) time.now self.old self.new) }
    {
        match self.newest_if(node, time) {
            Some(place) => Ok(place),
            None => self.keep(time),
        }
    }

    // The place of the node's newest time, if that is this time.
    fn newest_if(&self, node: u8, time: &Time) -> Option<usize>
        requires { node < 16 }
        ensures place { IfSome result (IsKeptAt self.now.kept.items time.now) }
        ensures brought { brought (newest_in self.now node) time.now
            ≡ (if is_some result then [] else time.now ∷ []) }
    {
        let place = self.newest[usize::from(node)]?;
        if self.kept[place] == *time {
            Some(place)
        } else {
            None
        }
    }

    // Keeps a copy of a time, and returns its place.
    fn keep(&mut self, time: &Time) -> Result<usize, AllocError>
        ensures { IfOk result (KeepsAt (time.now ∷ []) time.now self.old self.new) }
    {
        let place = self.kept.len();
        self.kept.push(time.copy())?;
        Ok(place)
    }
}
