// Messages of many intervals, pages, changes and numbers, as bytes.

ghost use Rattle.std.specs.Prelude.{◌<◌};

use crate::checks::holds;
use crate::messages::{Case, Long, is_kept, is_met};
use std::alloc::{AllocError, Global};

/// Puts the time in which each of sixteen nodes has closed so many intervals.
fn put_time(body: &mut Vec<u8>, each: u8) -> Result<(), AllocError> {
    body.push(16)?;
    for _node in 0..16u8 {
        body.extend_from_slice(&[0, 0, 0, each])?;
    }
    Ok(())
}

/// Puts an interval of sixteen nodes' time with the first so many pages.
fn put_interval(body: &mut Vec<u8>, place: u16, pages: u16) -> Result<(), AllocError>
    requires { place < 480 }
{
    body.push((place / 30) as u8)?;
    put_time(body, (place % 30) as u8 + 1)?;
    body.extend_from_slice(&pages.to_be_bytes())?;
    for page in 0..pages {
        body.extend_from_slice(&page.to_be_bytes())?;
    }
    Ok(())
}

/// Puts a time, and 480 intervals, thirty of each of sixteen nodes, and each of them with the first so many pages.
fn put_news(body: &mut Vec<u8>, front: &[u8], pages: u16) -> Result<(), AllocError> {
    body.extend_from_slice(front)?;
    put_time(body, 30)?;
    body.extend_from_slice(&[0, 0, 1, 224])?;
    for place in 0..480u16 {
        put_interval(body, place, pages)?;
    }
    Ok(())
}

/// A message with 480 intervals of so many pages: what stands in front of the time, with the header.
#[derive(Clone, Copy)]
struct News<'a> {
    name: &'a str,
    front: &'a [u8],
    pages: u16,
}

/// Whether a message is read, and written as it was.
fn is_news_kept(alloc: Global, news: &News) -> bool {
    let mut bytes = Vec::new(alloc);
    put_news(&mut bytes, news.front, news.pages).is_ok() && is_kept(alloc, &bytes)
}

const NEWS: &[News] = &[
    News {
        name: "grant of 64 pages",
        front: &[2, 3, 0, 1, 0, 0, 0, 0, 0, 1, 111, 198, 63],
        pages: 64,
    },
    News {
        name: "arrival of 64 pages",
        front: &[2, 4, 0, 1, 0, 0, 0, 0, 0, 1, 111, 202, 0, 0, 0, 1, 1],
        pages: 64,
    },
    News {
        name: "departure of 64 pages",
        front: &[
            2, 5, 0, 1, 0, 0, 0, 0, 0, 1, 111, 202, 255, 255, 255, 255, 1,
        ],
        pages: 64,
    },
    News {
        name: "grant of 1024 pages",
        front: &[2, 3, 0, 1, 0, 0, 0, 0, 0, 15, 127, 198, 63],
        pages: 1024,
    },
    News {
        name: "arrival of 1024 pages",
        front: &[2, 4, 0, 1, 0, 0, 0, 0, 0, 15, 127, 202, 0, 0, 0, 1, 1],
        pages: 1024,
    },
    News {
        name: "departure of 1024 pages",
        front: &[
            2, 5, 0, 1, 0, 0, 0, 0, 0, 15, 127, 202, 255, 255, 255, 255, 1,
        ],
        pages: 1024,
    },
];

#[test]
fn hundreds_of_intervals_of_all_pages_are_read_and_written(rt: HostRuntime) {
    for news in NEWS {
        holds(&rt, news.name, is_news_kept(rt.alloc(), news));
    }
}

// A reply in version 1 of what 300 intervals changed in page 63: every word of a page of 64 words, one by one.
const REPLY_1: Long = Long {
    front: &[1, 9, 0, 1, 0, 0, 0, 0, 0, 2, 168, 226, 0, 63, 0, 0, 1, 44],
    groups: Some((300, &[64])),
    items: 64,
    first: 0,
    step: 1,
    is_wide: false,
    before: &[],
    behind: &[8, 7, 6, 5, 4, 3, 2],
    is_at_end: true,
};

// The same in version 2, as one run.
const REPLY_2: Long = Long {
    front: &[2, 9, 0, 1, 0, 0, 0, 0, 0, 2, 97, 102, 0, 63, 0, 0, 1, 44],
    groups: Some((300, &[0, 1, 0, 63])),
    before: &[8, 7, 6, 5, 4, 3, 2],
    behind: &[],
    is_at_end: false,
    ..REPLY_1
};

// The changes of every second word of a page of 256 words, which are 128 runs.
const RUNS: Long = Long {
    front: &[2, 9, 0, 1, 0, 0, 0, 0, 0, 5, 227, 14, 0, 63, 0, 0, 1, 44],
    groups: Some((300, &[0, 128])),
    items: 128,
    step: 2,
    behind: &[0, 8, 7, 6, 5, 4, 3, 2],
    ..REPLY_1
};

const LONG_REQUEST: Long = Long {
    front: &[
        2, 8, 0, 1, 0, 0, 0, 0, 0, 6, 26, 134, 3, 255, 0, 1, 134, 160,
    ],
    groups: None,
    items: 100_000,
    first: 1,
    is_wide: true,
    behind: &[],
    is_at_end: false,
    ..REPLY_1
};

const LAST_PAGE: Long = Long {
    front: &[2, 11, 0, 1, 0, 0, 0, 0, 0, 0, 8, 4, 3, 255, 1, 0],
    groups: None,
    items: 256,
    before: &[8, 7, 6, 5, 4, 3, 2],
    behind: &[],
    is_at_end: false,
    ..REPLY_1
};

const LARGE: &[(&str, Case)] = &[
    ("changes in version 1", Case::Gives(REPLY_1, REPLY_2)),
    ("changes in version 2", Case::KeptLong(REPLY_2)),
    ("changes in 128 runs", Case::KeptLong(RUNS)),
    ("a hundred thousand numbers", Case::KeptLong(LONG_REQUEST)),
    ("the last page", Case::KeptLong(LAST_PAGE)),
];

#[test]
fn large_messages_are_read_and_written(rt: HostRuntime) {
    for (name, case) in LARGE {
        holds(&rt, name, is_met(rt.alloc(), case));
    }
}
