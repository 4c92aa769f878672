//! Work: any list of calls of a summary, one after another, with the law over such runs. Rests on keys, records, model,
//! summaries, lenses, feeding, pages and release.
#![tactic(auto)]

pub mod buffers;
pub mod call;
pub mod one;
mod release_by;
pub mod run;
