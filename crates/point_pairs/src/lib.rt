// A pair of two points: made of their readings and the bin of their distance, and added to a pack. Every run over points makes and adds its pairs here.
#![tactic(auto)]

ghost use Rattle.std.specs.Prelude.{◌≡◌};
ghost use Rattle.definitions.specs.Reducer.{pair_in, datum_of};
ghost use Rattle.reducer.specs.Readings.{op_of, reading_of};
ghost use Rattle.point_pairs.specs.Pairs.{the_pair, pair_value_bin, pair_added};

use reducer::{BuiltReducer, Datum, PairOperation};

// What a pair yields: a bin, three component values and a weight, or nothing.
#[derive(Clone, Copy)]
pub enum Pair {
    Kept(usize, f64, f64, f64, f64),
    Dropped,
}

impl Pair {
    // The pair of two points of these readings, whose distance has this bin; dropped where it has none.
    pub fn new(op: PairOperation, first: Datum, second: Datum, bin: Option<usize>) -> Pair
        ensures { the_pair result ≡ pair_in bin (datum_of (op_of op) (reading_of first) (reading_of second)) }
    {
        match bin {
            Some(bin) => {
                let d = reducer::datum_of(op, first, second);
                Pair::Kept(bin, d.c0, d.c1, d.c2, d.weight)
            }
            None => Pair::Dropped,
        }
    }

    // The bin of its value in a histogram; a mean and a dropped pair have none.
    pub fn value_bin(self, reducer: BuiltReducer) -> Option<usize>
        ensures { result ≡ pair_value_bin reducer.entry (the_pair self) }
    {
        match self {
            Pair::Kept(_, c0, c1, c2, weight) => {
                reducer::value_bin(reducer, Datum { c0, c1, c2, weight })
            }
            Pair::Dropped => None,
        }
    }

    // Its datum is added to the state of its bin, in a pack of n_states states; value_bin is that of a histogram's value.
    // Nothing where it is dropped, and where the pack has no room.
    pub fn add(
        self,
        reducer: BuiltReducer,
        value_bin: Option<usize>,
        n_states: usize,
        pack: &mut [f64],
    )
        ensures { pack.new ≡ pair_added reducer.entry value_bin n_states (the_pair self) pack.old }
    {
        if let Pair::Kept(bin, c0, c1, c2, weight) = self {
            let datum = Datum { c0, c1, c2, weight };
            reducer::consume_at(reducer, value_bin, n_states, bin, datum, pack);
        }
    }
}
