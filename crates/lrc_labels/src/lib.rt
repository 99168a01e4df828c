//! Labels: comments that give names to the words and locks of a program. `#: word 1 flag` names word 1 `flag`, `#:
//! words 2 5 list` names words 2 to 5 `list[0]` to `list[3]`, and `#: lock 0 mutex` names lock 0 `mutex`. Sizes behind
//! a name make an array by rows: `#: words 0 5 grid 3` names words 0 to 5 `grid[0][0]` to `grid[1][2]`. `locks` does
//! the same for locks.
#![tactic(auto)]

pub mod cut;
mod form;
mod known;
pub mod label;
pub mod laws;
mod line;
mod name;
mod reading;
mod show;
mod sizes;
mod spans;

pub use reading::{has_name, read_labels};
pub use show::{
    push_lock_label, push_lock_member, push_numbered_lock, push_numbered_word, push_word_label,
    push_word_member,
};
