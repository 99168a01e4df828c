//! Represents pictures as documents of scalable vector graphics (SVG 1.1, W3C 2011): a tree of elements, and its text.
//! If no element names an attribute twice, the text is well-formed, by the law `laws::documents_are_well_formed`.
#![tactic(auto)]

mod element;
pub mod laws;
mod name;
mod text;

pub use element::{Attribute, Content, Document};
pub use name::{Key, Tag};
pub use text::document_part;
