//! Lenses: what of a record is looked at. A lens gives a key or none, from the record's fields alone. Rests on keys and
//! records.
#![tactic(auto)]

pub mod flight;
pub mod kind;
pub mod lens;
pub mod pair;
pub mod prefix;
