// What is asked.

/// The act that is asked about, or the two acts whose order is asked for. Positions count from 0.
#[derive(Clone, Copy)]
pub struct Asked {
    pub act: usize,
    pub and: Option<usize>,
}
