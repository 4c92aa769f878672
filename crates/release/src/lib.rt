//! Permits and the books that issue them, draws, and the list of a summary with noise added. A permit is spent by one
//! release or handed back. Rests on keys, model and summaries.
#![tactic(auto)]

pub mod book;
mod draws;
pub mod entry;
mod list;
pub mod permit;
pub mod release;
