//! Pages of shared memory, and the changes that a node makes to a page. The changes are found by comparing the page
//! with its twin, a copy taken before the first write (Keleher, Cox, Dwarkadas and Zwaenepoel 1994). Here are also sets
//! of pages, and sets of the words of one page.
#![tactic(auto)]

mod changes;
pub mod laws;
mod mask;
mod page;
mod pages;
mod place;
mod size;

pub use changes::{Change, Changes};
pub use mask::Mask;
pub use page::Page;
pub use pages::Pages;
pub use place::{offset_of, page_of, pages_of};
pub use size::Size;

/// The number of words of a page of the larger size.
pub const MOST_PAGE_WORDS: usize = 256;

/// The largest number of words of a shared memory.
pub const MOST_WORDS: u32 = 65_536;

/// The largest number of pages of a shared memory.
pub const MOST_PAGES: u16 = 1024;
