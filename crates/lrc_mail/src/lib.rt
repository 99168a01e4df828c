//! The mail of one node: letters (messages without numbers yet), the requests for what pages need, and the numbers of
//! the messages sent and taken. Messages may be repeated and may arrive in any order, so each has a number. The numbers
//! taken from a node are kept as spans: those taken in order cost constant memory. `lrc_need` says what pages need and
//! what the node waits for. A need becomes requests here, because requests are letters (Amza et al. 1996).
#![tactic(auto)]

mod fault;
pub mod laws;
mod letter;
mod mail;
mod numbers;
mod request;

pub use fault::MailFault;
pub use letter::Letter;
pub use mail::Mail;
pub use numbers::{Numbers, Span};
pub use request::{put_requests, requests, requests_for};
