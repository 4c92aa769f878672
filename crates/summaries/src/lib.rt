//! What every summary can be asked: the trait `Summary`, whose promises specs/ states by content and plan. Rests on keys
//! and model.
#![tactic(auto)]

pub mod answers;
pub mod summary;
