//! The versions of the message grammar.

ghost use Rattle.std.specs.Prelude.{◌≡◌, ◌≤◌};
ghost use Rattle.lrc_page.specs.declared.TheConstants.{MOST_PAGES};
ghost use Rattle.lrc_wire.specs.Versions.{pages_in, version_of};

use lrc_page::MOST_PAGES as PAGES;

/// A version of the grammar, which is the first byte of a message. The versions differ in their largest pages, and in
/// how they write the changes and the values of a page.
#[derive(Clone, Copy)]
pub enum Version {
    /// Page numbers below 64, pages of 64 words, changes one by one. This version is still read, but no longer written.
    One,
    /// Page numbers below 1,024, pages of 64 or 256 words, changes in runs. `encode` writes this version.
    Two,
}

impl Version {
    /// Returns the version with the given number, or `None` if there is none.
    pub(crate) fn numbered(number: u8) -> Option<Version>
        ensures { result ≡ version_of number }
    {
        match number {
            1 => Some(Version::One),
            2 => Some(Version::Two),
            _ => None,
        }
    }

    /// Returns how many pages the messages of this version can name.
    pub(crate) fn pages(self) -> u16
        ensures exact { result ≡ pages_in self }
        ensures few { result ≤ MOST_PAGES }
    {
        match self {
            Version::One => 64,
            Version::Two => PAGES,
        }
    }
}
