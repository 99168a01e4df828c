// Settled threads and their numbers.

ghost use Rattle.std.specs.Prelude.{◌≡◌, ◌≢◌, [], AllPairs, IfOk, OnErr, OnOk, length, option_copied, slice_get};
ghost use Rattle.lrc_orders_settling.specs.Table.{threads_in, IsNumbered};

use indexmap::IndexSet;
use lrc_exec::spot::Spot;
use std::alloc::{AllocError, Global};

/// A table of settled threads. Each thread is in it once; the threads are numbered 0, 1, 2 and so on, in the order in
/// which they first came.
#[derive(Drop)]
pub struct SettledThreads {
    spots: IndexSet<Spot>,
}

impl SettledThreads {
    /// Makes a table without threads.
    pub fn new(alloc: Global) -> SettledThreads
        ensures { threads_in result ≡ [] }
    {
        SettledThreads {
            spots: IndexSet::new(alloc),
        }
    }

    /// Returns the number of threads.
    pub fn count(&self) -> usize
        ensures { result ≡ length (threads_in self.now) }
    {
        self.spots.len()
    }

    /// Returns the thread with this number, or none if no thread has it.
    pub fn thread(&self, number: usize) -> Option<&Spot>
        ensures { option_copied result ≡ slice_get (threads_in self.now) number }
    {
        self.spots.get_index(number)
    }

    /// Returns the number of a thread: its number if it came before, otherwise the next one, with which the thread is
    /// added. It fails if memory runs out; the table is then unchanged.
    pub fn number(&mut self, thread: &Spot) -> Result<usize, AllocError>
        ensures numbered { IfOk result (λ number. IsNumbered (threads_in self.old) thread.now
            (threads_in self.new) number) }
        ensures distinct { OnOk result (AllPairs (λ x y. x ≢ y) (threads_in self.new)) }
        ensures unchanged { OnErr result (threads_in self.new ≡ threads_in self.old) }
    {
        let next = self.spots.len();
        if let Some((number, _met)) = self.spots.get_full(thread) {
            return Ok(number);
        }
        self.spots.insert(*thread)?;
        Ok(next)
    }
}
