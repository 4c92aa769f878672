//! What a summary is, before any code: content, plan, the four laws, neighbours, the rules of the sketch and the
//! tally, the page rule, the listing rule and the handing over of draws. The functions do nothing; each has a theorem
//! for its contract. Rests on keys.
#![tactic(auto)]

ghost use Rattle.model.specs.Handing.{HandingOver, RunsHandOver};
ghost use Rattle.model.specs.Listing.{ListingRule};
ghost use Rattle.model.specs.Sketches.{SketchLaws};
ghost use Rattle.model.specs.Taking.{RuleOfTaking};
ghost use Rattle.model.specs.Tallies.{TallyLaws};
ghost use Rattle.model.specs.Worked.{WorkedCases};

/// The sketch's rule of taking, in words: what becomes of each key; and no other content fits the words.
pub fn rule_of_taking<K>()
    ensures { RuleOfTaking K }
{}

/// A sketch admits every key, holds only dummies when fresh, and keeps the four laws: for every kind and every k.
pub fn sketch_laws<K>()
    ensures { SketchLaws K }
{}

/// A tally of at most 64 kinds keeps the four laws, and counts each kind exactly.
pub fn tally_laws()
    ensures { TallyLaws }
{}

/// The listing rule, in words: which keys stand in a list, with which values; and no other list fits the words.
pub fn listing_rule<K>()
    ensures { ListingRule K }
{}

/// Of two neighbours, in either role, a list of the first also comes from the second: by every way to hand over draws,
/// with at most one number changed by 1. So it is for the contents of any plan that keeps the laws.
pub fn handing_over<K>()
    ensures neighbours { HandingOver K }
    ensures runs { RunsHandOver K }
{}

/// The worked cases: contents, neighbours, a page and a list.
pub fn worked_cases()
    ensures { WorkedCases }
{}
