//! Tests of mailboxes and of the post between threads.
#![tactic(auto)]

#[cfg(test)]
mod posts;
