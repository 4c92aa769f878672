//! The worked cases of records, keys, contents, neighbours, a page and a list, as one theorem about the definitions.
//! Rests on keys, records, model and lenses.
#![tactic(auto)]

ghost use Rattle.worked.specs.Cases.{AllWorkedCases};

/// All worked cases. The function does nothing; its contract is the theorem.
pub fn worked_cases()
    ensures { AllWorkedCases }
{}
