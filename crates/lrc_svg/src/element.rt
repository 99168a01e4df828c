// Elements of a picture.

use crate::name::{Key, Tag};

/// An attribute of an element.
#[derive(Drop)]
pub struct Attribute {
    pub key: Key,
    pub value: Vec<u8>,
}

/// What is inside an element.
#[derive(Drop)]
pub enum Content {
    /// Text. A byte that is not printable ASCII is written as `?`.
    Text(Vec<u8>),
    /// An element, with its attributes, all of different names, and what is inside it.
    Element(Tag, Vec<Attribute>, Vec<Content>),
}

/// A picture: the attributes of its root element, all of different names, and what is inside it.
#[derive(Drop)]
pub struct Document {
    pub attributes: Vec<Attribute>,
    pub inside: Vec<Content>,
}
