// Barriers: a node arrives, and departs once all have arrived, of which node 0 tells it.

mod begin;
mod take;
