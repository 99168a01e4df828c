//! The nodes of a run on threads: each node lives on a separate thread, and a post carries the messages between them. A
//! thread makes the turns of its node and takes its messages, until nothing is left to do.
//!
//! Decisions:
//!
//! - The threads borrow one flat code. The toolchain gives no clause of a scope whose closure's type names a
//!   lifetime, so the code is behind a trait (`Coded`) whose ghost member names its program.
//! - `Left` says why each node's thread stopped, even after the first that failed, so the fault of the lowest node
//!   is read from it.
//! - A thread that stops because the post was closed has no fault: its log is used, and what is lost shows as
//!   `Mismatch`.
//! - A thread yields once before it sleeps for a message. This saves a quarter of the processor time of threads
//!   that only pass messages on.
#![tactic(auto)]

mod coded;
mod gate;
mod life;
mod mail;
mod member;
mod nodes;
mod spin;
mod stop;
mod thread;
mod worker;

pub use coded::Coded;
pub use gate::{Gate, OpenGate};
pub use life::{Failure, Parts, Past, first_failure, parts_of};
pub use mail::{Line, Mail};
pub use nodes::pasts_of;
pub use stop::Stop;
pub use worker::work;
