//! Event kinds in order, by size.
ghost use Rattle.keys.specs.KindOrders.{less_event};
ghost use Rattle.keys.specs.KindOrdersLemmas.{event_compares, event_total};

use crate::event::EventKind;
use crate::kind::Kind;

impl Kind for EventKind {
    ghost less = { less_event };

    ghost matches_cmp = { event_compares };

    ghost order = { event_total };
}
