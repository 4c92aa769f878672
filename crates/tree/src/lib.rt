//! One ordered tree in cells that the caller lends, for every kind of key: a search tree whose nodes lie in the cells
//! and link to one another by the cells' numbers. A key never moves from one cell to another. Rests on keys.
#![tactic(auto)]

pub mod cell;
mod changing;
mod insertion;
pub mod refusal;
mod removal;
mod search;
pub mod tree;
mod walking;
