//! The tally, a summary that counts the first k event kinds. Rests on keys, model and summaries.
#![tactic(auto)]

pub mod tally;
