// Two-point runs over unstructured points.
#![tactic(auto)]

ghost use Rattle.std.specs.Prelude.{◌≡◌, ℕ, ◌+◌, ◌*◌, ◌<◌, ◌≤◌, length, get_or, take, map, option_map};
ghost use Rattle.std.specs.Float.{nan};
ghost use Rattle.definitions.specs.Points.{points, squared_diff_norm};
ghost use Rattle.definitions.specs.Rules.{refusal, run_rules, step};
ghost use Rattle.refusals.specs.Numbers.{number_of};
ghost use Rattle.reducer.specs.Readings.{op_of, reading_of};
ghost use Rattle.reducer.specs.Consume.{reducer_size};
ghost use Rattle.reducer.specs.Usable.{Usable, UsableValues};
ghost use Rattle.point_pairs.specs.Pairs.{the_pair, pair_value_bin};
ghost use Rattle.parallel_serial.specs.Drive.{zero_pack, added_scratch, run_of};
ghost use Rattle.unstructured_points.specs.Readings.{points_of, the_point};
ghost use Rattle.unstructured_points.specs.Sets.{sets_of};
ghost use Rattle.unstructured.specs.Readings.{auto_run, cross_run};
ghost use Rattle.unstructured.specs.Held.{value_edges};
ghost use Rattle.unstructured.specs.Pairs.{point_in, points_in, Held, HeldSets, sets_pairs, pairs_in, first_partner};
ghost use Rattle.unstructured.specs.Pairs.{built_pair, row_added, row_from, run_filled};
ghost use Rattle.unstructured.specs.Batches.{reading_in, kept_below, picked, numbered_pair};
ghost use Rattle.unstructured.specs.Batches.{values_in, found_added, listed_added};

mod held;

use edge_table::{Ends, Lookup};
use held::{Batches, Found, Lookups, PointPairs, Points, Readings, Room, Searched};
use parallel_serial::{ReductionSpec, RunSpec, Sets, Setup};
use point_pairs::Pair;
use reducer::{BuiltEdges, BuiltReducer, Datum, PairOperation, Reducer};
use refusals::Refusal;
use unstructured_points::{Point, PointSet};

// ---- pairs

impl Points<'_> {
    #[tactic(auto, unfolding(crate::specs::Pairs::point_in))]
    fn point_at(&self, i: usize) -> Point
        requires { i < self.now.n }
        ensures { the_point result ≡ point_in self.now i }
    {
        let rd = Datum {
            c0: self.values[i],
            c1: self.values[self.stride + i],
            c2: self.values[2 * self.stride + i],
            weight: self.weights[i],
        };
        Point {
            c0: self.positions[i],
            c1: self.positions[self.stride + i],
            c2: self.positions[2 * self.stride + i],
            rd,
        }
    }
}

// The pair of two points of these readings, whose bin has this number; dropped if that is past the bins.
#[tactic(auto, unfolding(crate::specs::Batches::numbered_pair))]
fn pair_of(setup: &Setup, first: Datum, second: Datum, bin: usize) -> Pair
    ensures { the_pair result ≡ numbered_pair setup.now (reading_of first) (reading_of second) bin }
{
    Pair::new(
        setup.op,
        first,
        second,
        (bin < setup.n_states).then_some(bin),
    )
}

// ---- all pairs of a run, by rows

// A way to add the pairs of a point with those of a set from `from` on.
trait Rows {
    ghost use Rattle.parallel_serial.specs.declared.Setup.{Setup};

    ghost setup: { Self → Setup };

    fn add_row(&mut self, a: Point, set: &Points, from: usize, scratch: &mut [f64])
        ensures row { scratch.new ≡ row_from (setup self.old) (the_point a) set.now from scratch.old }
        ensures same { setup self.new ≡ setup self.old };
}

// Auto pairs only a later second.
fn first_partner(sets: &Sets<Points>, i: usize) -> usize
    requires { i < 4096 }
    ensures { result ≡ first_partner sets.now i }
{
    match sets {
        Sets::Auto(_) => i + 1,
        Sets::Cross(_, _) => 0,
    }
}

// All pairs of the run, first point ascending, second ascending within it.
#[tactic(auto, using(crate::proofs::Loops::rows_start))]
fn fill_rows<R: Rows>(rows: &mut R, sets: &Sets<Points>, scratch: &mut [f64])
    ensures { scratch.new ≡ run_filled (R.setup rows.old) sets.now scratch.old }
{
    let first = sets.first();
    let second = sets.second();
    for i in 0..first.n {
        let a = first.point_at(i);
        let from = first_partner(sets, i);
        rows.add_row(a, &second, from, &mut *scratch);
    }
}

// ---- rows in batches: distances first, then the places within the ends of the edges, then their pairs

// The squared distances from a to points of the second set, from point j on.
fn distances(a: Point, set: &Points, j: usize, d: &mut [f64])
    requires { j + length d.old ≤ set.now.n }
    ensures { (e : ℕ) → e < length d.old → get_or d.new e nan ≡ squared_diff_norm (the_point a) (point_in set.now (j + e)) }
{
    for (e, distance) in d.iter_mut().enumerate() {
        let b = set.point_at(j + e);
        *distance = unstructured_points::squared_diff_norm(a, b);
    }
}

// The places of the distances within the ends, in order, and these distances at the front of d; without a branch. d is read at e and
// written at c, so no iterator can hold it.
fn list_inside(ends: Ends, d: &mut [f64], places: &mut [usize]) -> usize
    requires { length d.old ≤ length places.old }
    ensures { (result ≤ length d.old) × (take result places.new ≡ kept_below ends d.old (length d.old))
        × (take result d.new ≡ picked d.old (kept_below ends d.old (length d.old))) }
{
    let mut c = 0;
    for e in 0..d.len() {
        let value = d[e];
        places[c] = e;
        d[c] = value;
        c += usize::from(ends.is_within(value));
    }
    c
}

impl Readings<'_> {
    // The reading at place k of a batch. One function for this and a block's `cell_at` would be public, and could not ask that k is in the slices.
    #[tactic(auto, unfolding(crate::specs::Batches::reading_in))]
    fn reading_at(self, k: usize) -> Datum
        requires { k < length self.w.now }
        ensures { reading_of result ≡ reading_in self.entry k }
    {
        Datum {
            c0: self.c0[k],
            c1: self.c1[k],
            c2: self.c2[k],
            weight: self.w[k],
        }
    }
}

// The values of the pairs of a point, whose reading is first, with the listed ones of a batch.
fn pair_values(op: PairOperation, first: Datum, readings: &Readings, d: &mut [f64])
    requires { length d.old ≡ length readings.now.places.now }
    ensures { d.new ≡ values_in (reading_of first) readings.now op }
{
    let readings = *readings;
    for (q, value) in d.iter_mut().enumerate() {
        let second = readings.reading_at(readings.places[q]);
        *value = reducer::component_sum(reducer::datum_of(op, first, second));
    }
}

// The pairs of a point with the listed ones, whose bins and whose values' bins have been found.
#[tactic(auto, unfolding(crate::specs::Batches::placed_to))]
fn add_pairs(setup: &Setup, reducer: BuiltReducer, first: Datum, found: &Found, scratch: &mut [f64])
    requires { reducer ≡ setup.now.reducer }
    ensures { scratch.new ≡ found_added setup.now (reading_of first) found.now scratch.old }
{
    let setup = *setup;
    let found = *found;
    let readings = found.readings;
    // By an index: three slices are read, and a zip of them is no plainer.
    for q in 0..readings.places.len() {
        let second = readings.reading_at(readings.places[q]);
        let pair = pair_of(&setup, first, second, found.bins[q]);
        pair.add(
            reducer,
            Some(found.values[q]),
            setup.n_states,
            &mut *scratch,
        );
    }
}

// The same. Each kind has its own call, and so a loop in which the kind is not tested for each pair: a mean takes some 20% less time so.
fn add_found(setup: &Setup, first: Datum, found: &Found, scratch: &mut [f64])
    ensures { scratch.new ≡ found_added setup.now (reading_of first) found.now scratch.old }
{
    match setup.reducer {
        Reducer::Comp0Mean => add_pairs(setup, Reducer::Comp0Mean, first, found, scratch),
        Reducer::ComponentSumMean => {
            add_pairs(setup, Reducer::ComponentSumMean, first, found, scratch)
        }
        Reducer::ComponentSumHistogram(edges) => {
            let reducer = Reducer::ComponentSumHistogram(edges);
            add_pairs(setup, reducer, first, found, scratch)
        }
    }
}

// The pairs of a point with the listed ones, whose distances are in d. All three slices are room.
fn add_places(
    look: &Lookups,
    first: Datum,
    readings: &Readings,
    d: &mut [f64],
    bins: &mut [usize],
    values: &mut [usize],
    scratch: &mut [f64],
)
    requires { (length d.old ≡ length readings.now.places.now) × (length bins.old ≡ length readings.now.places.now)
        × (length values.old ≡ length readings.now.places.now) }
    ensures { scratch.new ≡ listed_added look.now.setup (reading_of first) readings.now d.old values.old scratch.old }
{
    edge_batch::bins_of::<true>(look.edges, &*d, &mut *bins);
    if let Some(values_look) = look.values {
        pair_values(look.setup.op, first, readings, &mut *d);
        edge_batch::bins_of::<false>(values_look, &*d, &mut *values);
    }
    let found = Found {
        readings: *readings,
        bins: &*bins,
        values: &*values,
    };
    add_found(&look.setup, first, &found, scratch);
}

// The pairs of a with m points from j on.
fn add_batch(
    look: &Lookups,
    a: Point,
    set: &Points,
    j: usize,
    m: usize,
    room: &mut Room,
    scratch: &mut [f64],
)
    requires few { j + m ≤ set.now.n }
    requires m_room { m ≤ 256 }
    ensures { scratch.new ≡ row_added look.now.setup (the_point a) (point_in set.now) j m scratch.old }
{
    let d = &mut room.d[..];
    let places = &mut room.places[..];
    let bins = &mut room.bins[..];
    let values = &mut room.values[..];
    let d = &mut d[..m];
    distances(a, set, j, &mut *d);
    let c = list_inside(look.edges.table.ends, &mut *d, &mut *places);
    let readings = Readings {
        c0: &set.values[j..],
        c1: &set.values[set.stride + j..],
        c2: &set.values[2 * set.stride + j..],
        w: &set.weights[j..],
        places: &places[..c],
    };
    add_places(
        look,
        a.rd,
        &readings,
        &mut d[..c],
        &mut bins[..c],
        &mut values[..c],
        scratch,
    );
}

impl Rows for Batches<'_> {
    ghost setup = { λ rows. rows.look.now.setup };

    // A `while`: a `for` would need the number of batches and each one's first point by a product, which is no plainer.
    fn add_row(&mut self, a: Point, set: &Points, from: usize, scratch: &mut [f64]) {
        let look = self.look;
        let mut j = from;
        while j < set.n {
            let m = (set.n - j).min(256);
            add_batch(look, a, set, j, m, &mut self.room, &mut *scratch);
            j += m;
        }
    }
}

// The lookup of edges; the hints are its room.
fn lookup_of<'a>(edges: BuiltEdges<'a>, hints: &'a mut [u8; 4096]) -> Lookup<'a>
    requires { Usable edges }
    ensures { result.edges ≡ edges.entry }
{
    let table = edge_table::table_of(edges);
    edge_table::fill_hints(edges, table, &mut *hints);
    Lookup {
        edges,
        table,
        hints: &*hints,
    }
}

// Of value edges, which a mean has not.
fn values_of<'a>(reducer: BuiltReducer<'a>, hints: &'a mut [u8; 4096]) -> Option<Lookup<'a>>
    requires { UsableValues reducer }
    ensures { option_map (λ t. t.edges) result ≡ value_edges reducer.entry }
{
    match reducer {
        Reducer::ComponentSumHistogram(edges) => Some(lookup_of(edges, hints)),
        _ => None,
    }
}

// Many second points: the lookups and the room, then all pairs.
fn fill_many(setup: &Setup, sets: &Sets<Points>, scratch: &mut [f64])
    ensures { scratch.new ≡ run_filled setup.now sets.now scratch.old }
{
    let mut hints = [0u8; 4096];
    let mut value_hints = [0u8; 4096];
    let look = Lookups {
        setup: *setup,
        edges: lookup_of(setup.edges, &mut hints),
        values: values_of(setup.reducer, &mut value_hints),
    };
    let mut batches = Batches {
        look: &look,
        room: Room {
            d: [0.0; 256],
            places: [0; 256],
            bins: [0; 256],
            values: [0; 256],
        },
    };
    fill_rows(&mut batches, sets, scratch);
}

// ---- few second points: no hints, no room

impl Searched<'_> {
    // The pair of a and b; dropped where its distance has no bin.
    #[tactic(auto, using(crate::proofs::Batches::pair_at_law))]
    fn pair_found(&self, a: Point, b: Point) -> Pair
        ensures { the_pair result ≡ built_pair self.now.setup.now (the_point a) (the_point b) }
    {
        let distance = unstructured_points::squared_diff_norm(a, b);
        let bin = edge_table::bin_of(self.setup.edges, self.ends, distance);
        Pair::new(self.setup.op, a.rd, b.rd, bin)
    }

    // The bin of the pair's value in a histogram, looked up as a distance is: the plain lookup reads irregular edges one after the other.
    #[tactic(auto, using(crate::proofs::Batches::value_at_law))]
    fn value_found(&self, pair: Pair) -> Option<usize>
        ensures { result ≡ pair_value_bin self.now.setup.now.reducer (the_pair pair) }
    {
        match (self.setup.reducer, pair) {
            (Reducer::ComponentSumHistogram(edges), Pair::Kept(_, c0, c1, c2, weight)) => {
                let ends = edge_table::ends_of(edges);
                let value = reducer::component_sum(Datum { c0, c1, c2, weight });
                edge_table::bin_of(edges, ends, value)
            }
            _ => pair.value_bin(self.setup.reducer),
        }
    }
}

impl Rows for Searched<'_> {
    ghost setup = { λ rows. rows.setup.now };

    fn add_row(&mut self, a: Point, set: &Points, from: usize, scratch: &mut [f64]) {
        let setup = self.setup;
        for j in from..set.n {
            let b = set.point_at(j);
            let pair = self.pair_found(a, b);
            let value_bin = self.value_found(pair);
            pair.add(setup.reducer, value_bin, setup.n_states, &mut *scratch);
        }
    }
}

// Few second points: the ends of the edges, then all pairs.
fn fill_few(setup: &Setup, sets: &Sets<Points>, scratch: &mut [f64])
    ensures { scratch.new ≡ run_filled setup.now sets.now scratch.old }
{
    let mut searched = Searched {
        setup,
        ends: edge_table::ends_of(setup.edges),
    };
    fill_rows(&mut searched, sets, scratch);
}

// ---- the reduction

impl ReductionSpec for PointPairs<'_> {
    ghost contributed = { λ run setup s. run_filled setup run.sets s };

    // To make hints and room takes some 0.5 µs: below 20 points a call over regular edges would take as long as the Rust's. Many first points pay for it from 10 second
    // ones on.
    fn add_contributions(&self, setup: &Setup, scratch: &mut [f64]) {
        let few = if self.sets.first().n < 20 { 20 } else { 10 };
        if self.sets.second().n < few {
            fill_few(setup, &self.sets, scratch)
        } else {
            fill_many(setup, &self.sets, scratch)
        }
    }
}

// ---- runs

// An accepted set.
#[tactic(auto, using(crate::proofs::Runs::held_points), unfolding(crate::specs::Pairs::points_in, crate::specs::Pairs::point_in))]
fn held_set<'a>(set: PointSet<'a>) -> Points<'a>
    requires { Held (points_of set) }
    ensures { points_in result ≡ points (points_of set.entry) }
{
    let stride = set.stride_of();
    Points {
        positions: set.positions,
        values: set.values,
        weights: set.weights,
        stride,
        n: set.n_points,
    }
}

// Accepted sets.
fn held_sets<'a>(sets: Sets<PointSet<'a>>) -> Sets<Points<'a>>
    requires { HeldSets sets }
    ensures { pairs_in result ≡ sets_pairs sets.entry }
{
    match sets {
        Sets::Auto(a) => Sets::Auto(held_set(a)),
        Sets::Cross(a, b) => Sets::Cross(held_set(a), held_set(b)),
    }
}

fn run(sets: Sets<PointSet>, spec: RunSpec, pack: &mut [f64]) -> Result<(), Refusal>
    ensures number { number_of result ≡ refusal (run_rules (run_of (sets_of sets.entry) spec.entry) (length pack.old)) }
    ensures pack_after { pack.new ≡ step (run_of (sets_of sets.entry) spec.entry) pack.old }
{
    let setup = unstructured_points::run_setup(sets, spec, pack.len())?;
    let run = PointPairs {
        sets: held_sets(sets),
    };
    parallel_serial::drive_reduce(&run, &setup, pack);
    Ok(())
}

// Each pair of a point with a later one.
pub fn points_auto(set: PointSet, spec: RunSpec, pack: &mut [f64]) -> Result<(), Refusal>
    ensures number { number_of result ≡ refusal (run_rules (auto_run (points_of set.entry) spec.entry) (length pack.old)) }
    ensures pack_after { pack.new ≡ step (auto_run (points_of set.entry) spec.entry) pack.old }
{
    run(Sets::Auto(set), spec, pack)
}

// Each point of a with each point of b.
pub fn points_cross(
    a: PointSet,
    b: PointSet,
    spec: RunSpec,
    pack: &mut [f64],
) -> Result<(), Refusal>
    ensures number { number_of result ≡ refusal (run_rules (cross_run (points_of a.entry) (points_of b.entry) spec.entry) (length pack.old)) }
    ensures pack_after { pack.new ≡ step (cross_run (points_of a.entry) (points_of b.entry) spec.entry) pack.old }
{
    run(Sets::Cross(a, b), spec, pack)
}
