//! Draws the picture of a run as an SVG document: a tree of elements. `specs/Shown.antt` defines the elements, their
//! places and their sizes; `specs/Marks.antt` which attributes each kind of element has; `specs/Root.antt` the size of the
//! whole and the letters of its words. Colours, weights and the widths of lines are in the code only.
#![tactic(auto)]

mod arrows;
mod flow;
mod frames;
mod heading;
mod lanes;
mod layout;
mod paint;
mod picture;
mod races;
mod rows;
mod sizes;
mod source;
mod style;
mod ways;

pub use picture::document_of;
