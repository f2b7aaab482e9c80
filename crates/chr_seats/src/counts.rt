//! What a seat has made.

/// How many entries a seat has made.
#[derive(Clone, Copy, Debug, PartialEq, Eq)]
pub struct Counts {
    /// Its posts.
    pub posts: u64,
    /// Its other entries.
    pub others: u64,
}
