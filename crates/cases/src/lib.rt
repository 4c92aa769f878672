//! Tests of what no table shows: records that a caller made up, whole texts, cells that were lent, permits used again after
//! a refusal, runs of calls, and the calls of a console. Rests on all crates that it tests.
//!
//! Programs with stored output have the many cases: `key_table`, `record_table`, `tree_table`, `summary_table` and
//! `release_table`; `walkthrough` makes every call once.
#![tactic(auto)]

#[cfg(test)]
mod cells;
#[cfg(test)]
mod console_calls;
#[cfg(test)]
mod permits;
#[cfg(test)]
mod runs;
#[cfg(test)]
mod texts;
#[cfg(test)]
mod written_records;
