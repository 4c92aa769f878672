//! The memory that the calls of a run share.
use pages::line::Line;
use release::entry::Entry;

/// Pages are written to `lines`, the draws of releases are read from `draws` and zeroed there, and lists are written to
/// `lists`. Of each, the calls of a run have parts that follow one another.
#[derive(Debug, Drop)]
pub struct Buffers<'a, K> {
    pub lines: &'a mut [Line<K>],
    pub draws: &'a mut [i32],
    pub lists: &'a mut [Entry<K>],
}

/// A place in each of the three.
#[derive(Clone, Copy, Debug, PartialEq, Eq)]
pub(crate) struct Places {
    pub(crate) lines: usize,
    pub(crate) draws: usize,
    pub(crate) lists: usize,
}
