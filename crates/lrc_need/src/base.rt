// Base copies on their way.

use lrc_page::Page;

/// The base copy of a page, as far as a node needs one.
#[derive(Drop)]
pub enum Base {
    /// The node has a copy already.
    Unneeded,
    /// The base copy is due from this node, the page's keeper.
    Due(u8),
    /// The base copy has arrived.
    Come(Box<Page>),
}
