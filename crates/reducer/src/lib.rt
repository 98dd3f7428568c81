// Kinds of reduction, a pair's datum, and what it adds to a state of a pack.
#![tactic(auto)]

ghost use Rattle.std.specs.Prelude.{◌≡◌, ℕ, ◌*◌, ◌<◌, ◌≤◌, length};
ghost use Rattle.definitions.specs.Bins.{below};
ghost use Rattle.definitions.specs.Reducer.{mean_size, datum_of, component_sum};
ghost use Rattle.definitions.specs.Run.{place};
ghost use Rattle.laws.specs.Stores.{bump, add_mean};
ghost use Rattle.state_refusals.specs.Readings.{state_kind_of};
ghost use Rattle.reducer.specs.Readings.{op_of, the_datum, reading_of};
ghost use Rattle.reducer.specs.Consume.{bins_in, state_kind_in, size_in, built_find, built_bin, has_room, add_in, value_bin, consumed_at, consumed};

use bins::RegularBinEdges;
use state_refusals::StateKind;

#[derive(Clone, Copy)]
pub enum PairOperation {
    ElementwiseMultiply,
    ElementwiseSub,
}

// What has a number of bins.
pub trait Bins {
    ghost bins: { Self → ℕ };

    fn n_bins(self) -> usize
        ensures { result ≡ bins self };
}

// Regular edges as the caller states them.
#[derive(Clone, Copy)]
pub struct RegularEdges {
    pub min: f64,
    pub max: f64,
    pub n_bins: usize,
}

impl Bins for RegularEdges {
    ghost bins = { λ edges. edges.n_bins };

    fn n_bins(self) -> usize {
        self.n_bins
    }
}

impl Bins for RegularBinEdges {
    ghost bins = { λ edges. edges.n_bins };

    fn n_bins(self) -> usize {
        self.n_bins
    }
}

// Edges: regular ones as R has them, or a slice.
#[derive(Clone, Copy)]
pub enum BinEdges<'a, R> {
    Regular(R),
    Irregular(&'a [f64]),
}

// Edges as the caller states them.
pub type Edges<'a> = BinEdges<'a, RegularEdges>;

// Edges built once and passed to each lookup.
pub type BuiltEdges<'a> = BinEdges<'a, RegularBinEdges>;

impl<'a, R: Bins> Bins for BinEdges<'a, R> {
    ghost bins = { bins_in R.bins };

    fn n_bins(self) -> usize {
        match self {
            BinEdges::Regular(edges) => edges.n_bins(),
            BinEdges::Irregular(edges) => edges.len().saturating_sub(1),
        }
    }
}

// What is done with the pairs of a bin; a histogram has value edges E.
#[derive(Clone, Copy)]
pub enum Reducer<E> {
    Comp0Mean,
    ComponentSumMean,
    ComponentSumHistogram(E),
}

// With value edges as the caller states them.
pub type Kind<'a> = Reducer<Edges<'a>>;

// With built ones.
pub type BuiltReducer<'a> = Reducer<BuiltEdges<'a>>;

impl<E: Bins> Reducer<E> {
    pub fn state_kind(self) -> StateKind
        ensures { result ≡ state_kind_in E.bins self }
    {
        match self {
            Reducer::Comp0Mean => StateKind::Mean,
            Reducer::ComponentSumMean => StateKind::Mean,
            Reducer::ComponentSumHistogram(edges) => StateKind::Histogram(edges.n_bins()),
        }
    }

    // How many numbers a state has.
    pub fn state_size(self) -> usize
        ensures { result ≡ size_in E.bins self }
    {
        state_refusals::accum_state_size(self.state_kind())
    }
}

// Three component values and a weight: a pair's, or what is read of a point or a cell.
#[derive(Clone, Copy)]
pub struct Datum {
    pub c0: f64,
    pub c1: f64,
    pub c2: f64,
    pub weight: f64,
}

// Second minus first, or second times first; the weight is first times second.
pub fn datum_of(op: PairOperation, a: Datum, b: Datum) -> Datum
    ensures { the_datum result ≡ datum_of (op_of op) (reading_of a) (reading_of b) }
{
    let weight = a.weight * b.weight;
    match op {
        PairOperation::ElementwiseMultiply => Datum {
            c0: b.c0 * a.c0,
            c1: b.c1 * a.c1,
            c2: b.c2 * a.c2,
            weight,
        },
        PairOperation::ElementwiseSub => Datum {
            c0: b.c0 - a.c0,
            c1: b.c1 - a.c1,
            c2: b.c2 - a.c2,
            weight,
        },
    }
}

// c0 + (c1 + c2)
pub fn component_sum(d: Datum) -> f64
    ensures { result ≡ component_sum (the_datum d) }
{
    d.c0 + (d.c1 + d.c2)
}

fn bin_index(edges: BuiltEdges, value: f64) -> Option<usize>
    ensures { result ≡ built_find edges.entry value }
{
    match edges {
        BinEdges::Regular(edges) => edges.bin_index(value),
        BinEdges::Irregular(edges) => bins::last_not_after(edges, value),
    }
}

// The value's bin; an index past the bins is dropped.
pub fn bin_of(edges: BuiltEdges, value: f64) -> Option<usize>
    ensures { result ≡ built_bin edges.entry value }
{
    let i = bin_index(edges, value)?;
    (i < edges.n_bins()).then_some(i)
}

fn has_room(n_states: usize, state_size: usize, s: usize, len: usize) -> bool
    ensures { result ≡ has_room n_states state_size s len }
{
    if n_states > 4096 {
        return false;
    }
    if state_size > 4096 {
        return false;
    }
    if s >= n_states {
        return false;
    }
    n_states * state_size <= len
}

// x is added to number e of state s.
fn add_number(n_states: usize, e: usize, s: usize, x: f64, pack: &mut [f64])
    requires { place n_states e s < length pack.old }
    ensures { pack.new ≡ bump (place n_states e s) x pack.old }
{
    let at = e * n_states + s;
    pack[at] = pack[at] + x;
}

// Total is number 0 of a state, weight number 1.
fn add_mean(n_states: usize, s: usize, value: f64, weight: f64, pack: &mut [f64])
    requires { (s < n_states) × (n_states * mean_size ≤ length pack.old) }
    ensures { pack.new ≡ add_mean n_states s value weight pack.old }
{
    add_number(n_states, 0, s, value * weight, pack);
    add_number(n_states, 1, s, weight, pack);
}

// Weight to the number of bin `found`, if it is one of n_bins.
fn add_histogram(
    n_bins: usize,
    found: Option<usize>,
    n_states: usize,
    s: usize,
    weight: f64,
    pack: &mut [f64],
)
    requires { (s < n_states) × (n_states * n_bins ≤ length pack.old) }
    ensures { pack.new ≡ add_in (below n_bins found) n_states s weight pack.old }
{
    match found {
        Some(bin) => {
            if bin < n_bins {
                add_number(n_states, bin, s, weight, pack);
            }
        }
        None => {}
    }
}

// The datum, whose value's bin is known, is added to state s of a pack of n_states states; nothing where there is no room. A mean needs no bin.
pub fn consume_at(
    reducer: BuiltReducer,
    found: Option<usize>,
    n_states: usize,
    s: usize,
    datum: Datum,
    pack: &mut [f64],
)
    ensures { pack.new ≡ consumed_at reducer.entry found n_states s (the_datum datum) pack.old }
{
    let size = reducer.state_size();
    if has_room(n_states, size, s, pack.len()) {
        match reducer {
            Reducer::Comp0Mean => add_mean(n_states, s, datum.c0, datum.weight, pack),
            Reducer::ComponentSumMean => {
                add_mean(n_states, s, component_sum(datum), datum.weight, pack)
            }
            Reducer::ComponentSumHistogram(_) => {
                add_histogram(size, found, n_states, s, datum.weight, pack)
            }
        }
    }
}

// The bin of the datum's value in a histogram; a mean needs none.
pub fn value_bin(reducer: BuiltReducer, datum: Datum) -> Option<usize>
    ensures { result ≡ value_bin reducer.entry (the_datum datum) }
{
    match reducer {
        Reducer::Comp0Mean => None,
        Reducer::ComponentSumMean => None,
        Reducer::ComponentSumHistogram(edges) => { bin_of(edges, component_sum(datum)) }
    }
}
