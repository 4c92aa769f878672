//! The record of a console's log: its reader, its writer, and the records of a log, one after another. specs/ says
//! what they answer. Rests on keys for the refusals and for which bytes make a flight word.
#![tactic(auto)]

pub mod fault;
mod fields;
pub mod log;
mod map;
mod number;
pub mod reader;
pub mod record;
pub mod writer;
