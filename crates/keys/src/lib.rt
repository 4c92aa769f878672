//! Kinds of keys, each a total order with its laws: event kinds, address prefixes, flight words, numbers, pairs of
//! kinds, and held keys (a real key or a numbered dummy). The numbers of all refusals stand here too, since every
//! crate above returns them. Rests on std alone.
#![tactic(auto)]

pub mod event;
pub mod held;
pub mod kind;
pub mod number;
pub mod pair;
pub mod prefix;
pub mod refusal;
pub mod word;
