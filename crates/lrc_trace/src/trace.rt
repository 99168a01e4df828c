// Traces: what one node read and wrote, interval by interval.

ghost use Rattle.std.specs.Prelude.{◌≡◌, ◌<◌, ◌↔◌, IsTrue, OnErr, OnOk, []};
ghost use Rattle.lrc_page.specs.declared.TheConstants.{MOST_WORDS};
ghost use Rattle.lrc_trace.specs.Segments.{MayFollow, opened, with_access};

use crate::touched::Touched;
use lrc_page::{Size, offset_of, page_of};
use lrc_time::Time;
use std::alloc::{AllocError, Global};
use std::marker::Model;

/// The accesses that a node made in one interval.
#[derive(Drop)]
pub struct Segment {
    /// How many times the node had departed from a barrier before.
    pub epoch: u32,
    /// The number of the interval among those of its node, from 1.
    pub interval: u32,
    /// The stamp that the interval has, or would have.
    pub time: Time,
    /// The words read.
    pub reads: Touched,
    /// The words written.
    pub writes: Touched,
}

impl Segment {
    // An interval without accesses.
    fn opened(alloc: Global, epoch: u32, interval: u32, time: Time) -> Self
        ensures { result ≡ opened epoch interval time }
    {
        Segment {
            epoch,
            interval,
            time,
            reads: Touched::none(alloc),
            writes: Touched::none(alloc),
        }
    }

    // Whether the interval is after this one, or is this one, with its epoch and its time.
    fn goes_on(&self, epoch: u32, interval: u32, time: &Time) -> bool
        ensures { IsTrue result ↔ MayFollow self.now epoch interval time.now }
    {
        if self.interval != interval {
            return self.interval < interval;
        }
        self.epoch == epoch && self.time == *time
    }

    // Adds an access. An error leaves the segment as it was.
    fn add(&mut self, page: u16, offset: u8, is_write: bool) -> Result<(), AllocError>
        ensures ok { OnOk result (self.new ≡ with_access page offset is_write self.old) }
        ensures err { OnErr result (self.new ≡ self.old) }
    {
        if is_write {
            self.writes.add(page, offset)?;
        } else {
            self.reads.add(page, offset)?;
        }
        Ok(())
    }
}

/// What a node read and wrote: one segment for each interval with an access, with ascending intervals.
#[derive(Drop)]
pub struct Trace {
    node: u8,
    size: Size,
    segments: Vec<Segment>,
}

impl Model for Trace {
    ghost use Rattle.lrc_trace.specs.Segments.{AreSegments};
    ghost use Rattle.lrc_trace.specs.Trace.{TraceRecord};

    ghost Value = { TraceRecord };

    ghost view = { λ trace. record { node = trace.node; size = trace.size; segments = trace.segments.items } };

    ghost invariant = { λ trace. AreSegments trace.segments.items };
}

impl Trace {
    ghost use Rattle.lrc_trace.specs.Segments.{AreSegments};
    ghost use Rattle.lrc_trace.specs.Trace.{MayNote, noted};

    /// Returns the trace of a node that has made no access, for pages of the given size.
    pub fn new(alloc: Global, node: u8, size: Size) -> Self
        ensures { result ≡ record { node = node; size = size; segments = [] } }
    {
        Trace {
            node,
            size,
            segments: Vec::new(alloc),
        }
    }

    /// Returns whether an access of the given interval may be noted. The interval must come after the last one noted,
    /// or be that one, with the same epoch and time.
    pub fn may_note(&self, epoch: u32, interval: u32, time: &Time) -> bool
        ensures { IsTrue result ↔ MayNote self.now.segments epoch interval time.now }
    {
        match self.segments.last() {
            Some(last) => last.goes_on(epoch, interval, time),
            None => true,
        }
    }

    /// Notes an access of an interval. The interval is the last one noted, with the same epoch and time, or a later
    /// one. It fails if memory runs out, and then nothing changes.
    pub fn note(
        &mut self,
        epoch: u32,
        interval: u32,
        time: &Time,
        word: u32,
        is_write: bool,
    ) -> Result<(), AllocError>
        requires within { word < MOST_WORDS }
        requires later { MayNote self.old.segments epoch interval time.now }
        ensures ok { OnOk result (self.new ≡ noted self.old epoch interval time.now word is_write) }
        ensures err { OnErr result (self.new ≡ self.old) }
    {
        let page = page_of(word, self.size);
        let offset = offset_of(word, self.size);
        let count = self.segments.len();
        if count > 0 && self.segments[count - 1].interval == interval {
            self.segments[count - 1].add(page, offset, is_write)?;
            return Ok(());
        }
        let alloc = *self.segments.allocator();
        let mut segment = Segment::opened(alloc, epoch, interval, time.copy());
        segment.add(page, offset, is_write)?;
        self.segments.push(segment)?;
        Ok(())
    }

    /// Returns the node that made the accesses.
    pub fn node(&self) -> u8
        ensures { result ≡ self.now.node }
    {
        self.node
    }

    /// Returns the size of the pages.
    pub fn size(&self) -> Size
        ensures { result ≡ self.now.size }
    {
        self.size
    }

    /// Returns the segments, with ascending intervals.
    pub fn segments(&self) -> &[Segment]
        ensures all { result.now ≡ self.now.segments }
        ensures kept { AreSegments self.now.segments }
    {
        self.segments.as_slice()
    }
}
