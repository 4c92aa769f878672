//! The calls of a run, and their answers.
use feeding::fault::FeedFault;
use feeding::feed::Fed;
use keys::held::Held;
use keys::refusal::Refusal;
use summaries::answers::{Facts, Taken};

/// What feeding is given: a log, and the lens that it looks through. It is a struct, since code that makes an enum with
/// references right in it, beside a key with a ghost field, gets no proof.
#[derive(Clone, Copy, Debug, PartialEq, Eq, Hash)]
pub struct Feeding<'a, L> {
    pub lens: &'a L,
    pub log: &'a [u8],
}

/// What a release is given: the places of the book that issues its permit and of the book that it is made with, which
/// may be the same; a shared draw; how many of the draws are its own; a threshold; and how many entries of the memory
/// for lists are its own.
#[derive(Clone, Copy, Debug, PartialEq, Eq, Hash)]
pub struct Releasing {
    pub issuer: usize,
    pub book: usize,
    pub shared: i32,
    pub draws: usize,
    pub threshold: u32,
    pub entries: usize,
}

/// A call with what it is given. A page names how many lines are its own.
#[derive(Clone, Copy, Debug, PartialEq, Eq, Hash)]
pub enum Call<'a, K, L> {
    Take(K),
    Feed(Feeding<'a, L>),
    Count(K),
    Place(usize),
    Facts,
    Page { limit: u32, lines: usize },
    Release(Releasing),
}

/// What a call answered.
#[derive(Clone, Copy, Debug, PartialEq, Eq, Hash)]
pub enum Answer<K> {
    Take(Result<Taken, Refusal>),
    Feed(Result<Fed, FeedFault>),
    Count(Option<u32>),
    Place(Option<(Held<K>, u32)>),
    Facts(Facts),
    Page(Result<usize, Refusal>),
    /// `None` if one of the two books is not there. Refused with 10 if no permit was issued, else as the release was.
    Release(Option<Result<usize, Refusal>>),
}
