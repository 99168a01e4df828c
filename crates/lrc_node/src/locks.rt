// Locks: a node acquires and releases them, manages some, and hands their tokens on.

mod begin;
mod grant;
mod take;
