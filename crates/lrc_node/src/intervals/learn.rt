// Whether a node can learn news, and how it learns them.

ghost use Rattle.std.specs.Prelude.{◌≡◌, OnOk, length};
ghost use Rattle.lrc_memory.specs.Turns.{CanBeAdded};
ghost use Rattle.lrc_protocol.specs.Turn.{is_learnable, is_news_in_range, learns};

use super::ranges::{fits, leads};
use crate::state::NodeState;
use lrc_envelope::News;
use std::alloc::AllocError;

impl NodeState<'_> {
    /// Returns whether the time and the intervals are in range, and the time covers each stamp.
    pub(crate) fn fits(&self, news: &News) -> bool
        ensures { result ≡ is_news_in_range self.now news.now.time news.now.intervals }
    {
        fits(
            self.nodes,
            self.pages(),
            &news.time,
            news.intervals.as_slice(),
        )
    }

    /// Returns whether the node can learn the news.
    pub(crate) fn can_learn(&self, news: &News) -> bool
        ensures { result ≡ is_learnable self.now news.now.time news.now.intervals }
    {
        self.fits(news)
            && leads(
                self.me,
                self.clock.time(),
                &news.time,
                news.intervals.as_slice(),
            )
    }

    /// Learns the news: stores the intervals, makes the valid copies of the pages that they name invalid, and joins the
    /// times.
    pub(crate) fn learn(&mut self, news: &News) -> Result<(), AllocError>
        requires counted { length news.now.time ≡ self.old.setting.nodes }
        requires intervals { CanBeAdded self.old.memory.store news.now.intervals }
        ensures node { OnOk result (self.new ≡ learns news.now.time news.now.intervals self.old) }
        ensures setting { self.new.setting ≡ self.old.setting }
    {
        self.memory.learn(self.clock.time(), &news.intervals)?;
        self.clock.learn(&news.time);
        Ok(())
    }
}
