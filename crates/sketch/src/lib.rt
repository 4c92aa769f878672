//! The sketch: the summary of Misra and Gries in the variant of Lebeda and Tětek, over two ordered trees in cells that
//! the caller lends. Rests on keys, model, tree and summaries.
#![tactic(auto)]

pub mod making;
mod orders;
pub mod sketch;
mod taking;
