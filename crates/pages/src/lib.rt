//! A page of a summary: the keys that may have reached a limit, each with two bounds of its number of entries. Rests on
//! keys, model and summaries.
#![tactic(auto)]

pub mod line;
pub mod page;
