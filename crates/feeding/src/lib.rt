//! Feeding: the records of a log are read in turn, and the keys that a lens gives of them go to a summary. Rests on
//! keys, records, model, summaries and lenses.
#![tactic(auto)]

pub mod fault;
pub mod feed;
