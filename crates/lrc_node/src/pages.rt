// Pages: a node accesses them, fetches at a miss what it lacks, and gives others what they ask for.

mod reach;
mod replies;
mod requests;
