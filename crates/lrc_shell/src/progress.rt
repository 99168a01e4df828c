// What says that a run still goes on, and when.

use std::io::Eprint;
use std::sync::{Condvar, CondvarTimeouts, Mutex, Wait};
use std::time::{Clock, Duration};

/// The notice that a run is still going on. Giving it consumes it, so no run gets it twice.
pub trait Late {
    /// Gives the notice.
    fn tell(self);
}

/// The notice as a line on standard error.
#[derive(Drop)]
pub struct LateLine<'r, R> {
    /// The handle of the system.
    pub rt: &'r R,
}

impl<'r, R: Eprint> Late for LateLine<'r, R> {
    fn tell(self) {
        let _ = eprintln!(self.rt; "treadmarks: still running");
    }
}

/// The seconds that a run may take before the notice.
const SECONDS: u64 = 2;

/// Whether the watched run is over.
#[derive(Drop)]
pub struct Watch {
    over: Mutex<bool>,
    told: Condvar,
}

impl Watch {
    /// Returns a watch for a run that is not over.
    pub fn new() -> Watch {
        Watch {
            over: Mutex::new(false),
            told: Condvar::new(),
        }
    }

    /// Waits until the run is over, but at most two seconds, and returns whether the time ran out first.
    pub fn takes_long(&self, rt: &(impl Wait + Clock)) -> bool {
        let over = self.over.lock(rt);
        let (_over, timeout) = self
            .told
            .wait_timeout_while(rt, over, Duration::from_secs(SECONDS), |over| !*over);
        timeout.timed_out()
    }

    /// Marks the run as over, and wakes whoever waits for that.
    pub fn end(&self, rt: &impl Wait) {
        *self.over.lock(rt) = true;
        self.told.notify_one();
    }
}
