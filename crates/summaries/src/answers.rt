//! What a summary answers.

/// What taking a key did.
#[derive(Clone, Copy, Debug, PartialEq, Eq, Hash)]
pub enum Taken {
    /// The key was held, and counts 1 more.
    Raised,
    /// Every count fell by 1; the key is not held.
    Lowered,
    /// The key came in for another.
    Replaced,
}

/// The numbers of a summary: how many keys it holds, entries it has taken, and lowerings there were.
#[derive(Clone, Copy, Debug, PartialEq, Eq, Hash)]
pub struct Facts {
    pub k: u32,
    pub n: u32,
    pub l: u32,
}
