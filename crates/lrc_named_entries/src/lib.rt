//! What a named program declares, name by name: what each name is, how many indices or arguments it takes, and behind which
//! token it is declared; and the parameters of the function that a token belongs to.
#![tactic(auto)]

mod around;
pub mod entry;

pub use around::{first_nodes, parameters_around};
pub use entry::entries_of;
