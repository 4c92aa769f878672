//! Flight words in order: byte by byte; a word that begins another comes before it.
ghost use Rattle.keys.specs.KindOrders.{less_flight};
ghost use Rattle.keys.specs.KindOrdersLemmas.{flight_compares, flight_total};

use crate::kind::Kind;
use crate::word::FlightWord;

impl Kind for FlightWord {
    ghost less = { less_flight };

    ghost matches_cmp = { flight_compares };

    ghost order = { flight_total };
}
