// Collections at a barrier: a node brings the pages that it keeps up to date, and discards what all have collected.

mod begin;
mod clean;
mod take;
