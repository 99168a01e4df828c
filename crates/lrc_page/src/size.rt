ghost use Rattle.std.specs.Prelude.{◌≡◌};
ghost use Rattle.lrc_page.specs.Page.{words_of};

/// The number of words of each page. All pages of one shared memory have the same size.
#[derive(Clone, Copy, Debug, PartialEq, Eq)]
pub enum Size {
    /// 64 words, 512 bytes.
    Words64,
    /// 256 words, 2048 bytes.
    Words256,
}

impl Size {
    /// Returns the number of words of a page of this size.
    pub fn words(self) -> u16
        ensures { result ≡ words_of self }
    {
        match self {
            Size::Words64 => 64,
            Size::Words256 => 256,
        }
    }
}
