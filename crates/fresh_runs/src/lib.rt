//! Summaries made and worked from no entries, so that the law over runs asks nothing. Rests on all that `work` rests on,
//! and on tree, sketch and tally.
#![tactic(auto)]

mod fresh;
pub mod sketch_run;
pub mod tally_run;
