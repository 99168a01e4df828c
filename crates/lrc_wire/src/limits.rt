//! The limits on the length of a message.

/// The largest number of runs into which the changes of a page are cut. Between two runs at least one word is
/// unchanged.
pub const MOST_RUNS: u16 = (lrc_page::MOST_PAGE_WORDS / 2) as u16;

/// The largest number of bytes of a message's body.
pub const MOST_BODY_BYTES: usize = 16_777_216;

/// The number of bytes before a message's body.
pub const HEADER_BYTES: usize = 12;
