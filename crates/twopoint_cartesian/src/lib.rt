// Two-point runs over the cells of Cartesian blocks (twopoint_cartesian.rs).
#![tactic(auto)]

ghost use Rattle.std.specs.Prelude.{◌≡◌, ◌+◌, ◌*◌, ◌<◌, ◌≤◌, length, take, Some};
ghost use Rattle.definitions.specs.Lists.{overwritten};
ghost use Rattle.definitions.specs.Points.{square};
ghost use Rattle.definitions.specs.Blocks.{cell, cell_index, displaced, distance_squared};
ghost use Rattle.definitions.specs.Reducer.{mean_size};
ghost use Rattle.definitions.specs.Rules.{refusal, run_rules, step};
ghost use Rattle.definitions.specs.Run.{place};
ghost use Rattle.refusals.specs.Numbers.{number_of};
ghost use Rattle.reducer.specs.declared.Reducer.TheVariants.{ComponentSumHistogram};
ghost use Rattle.reducer.specs.Readings.{the_datum, reading_of};
ghost use Rattle.reducer.specs.Consume.{built_bins, built_bin, reducer_size};
ghost use Rattle.parallel_serial.specs.Drive.{zero_pack, added_scratch, run_of};
ghost use Rattle.idx_3d_offset.specs.Offsets.{idx_of};
ghost use Rattle.idx_3d_offset.specs.Walk.{offsets_left};
ghost use Rattle.spatial.specs.Readings.{block_of, width_of, sets_of};
ghost use Rattle.twopoint_cartesian.specs.Held.{axes_of, fields_of, Near, AllReady, Placed, Holds};
ghost use Rattle.twopoint_cartesian.specs.Readings.{auto_run, cross_run};
ghost use Rattle.twopoint_cartesian.specs.Cells.{row_of, plane_of, pairs_of, row_at, plane_at, pairs_at, fields_in, planes_of, reading_in, datum_in, cells_added};
ghost use Rattle.twopoint_cartesian.specs.Cells.{row_value, weight_added, weights_added, RowRoom, scalar_of, cells_in_mean, row_in_mean};
ghost use Rattle.twopoint_cartesian.specs.Cells.{plane_in_mean, block_in_mean, offset_mean, mean_state, row_added, plane_added, block_added};
ghost use Rattle.twopoint_cartesian.specs.Cells.{overlap_of, offset_cells, fresh, StateFits, state_merged, merged_in, overlap_in, overlaps_left};
ghost use Rattle.twopoint_cartesian.specs.Cells.{overlap_added, overlaps_added, seq_of};

mod held;

use edge_table::Lookup;
use held::{
    CellPairs, Distances, Fields, Histograms, Mean, Means, Overlap, Overlaps, PairBlock, PairPlane,
    PairRow, Planes, Room, Rows,
};
use idx_3d_offset::{Axes, Idx3DOffset, Offsets};
use parallel_serial::{ReductionSpec, RunSpec, Sets, Setup};
use reducer::{Bins, BuiltEdges, BuiltReducer, Datum, Reducer};
use refusals::Refusal;
use spatial::{Block, CellWidth};

// ---- the pairs of cells of an offset

impl<'a> From<Block<'a>> for Fields<'a> {
    ghost from_gives = { λ b f. fields_of f ≡ fields_in (block_of b) };

    fn from(b: Block<'a>) -> Fields<'a> {
        Fields {
            comp0: b.comp0,
            comp1: b.comp1,
            comp2: b.comp2,
            weights: b.weights,
        }
    }
}

impl<'a> Fields<'a> {
    // As `reading_at` of unstructured: one function for both would be public, and could not ask that i is in the slices.
    fn cell_at(self, i: usize) -> Datum
        requires { Holds (fields_of self) i }
        ensures { reading_of result ≡ reading_in (fields_of self.entry) i }
    {
        Datum {
            c0: self.comp0[i],
            c1: self.comp1[i],
            c2: self.comp2[i],
            weight: self.weights[i],
        }
    }
}

// The weight into the state's bin, if it is one.
#[tactic(auto, using(crate::proofs::Histograms::weight_in, crate::proofs::Histograms::weight_out))]
fn add_weight(bin: usize, weight: f64, state: &mut [f64])
    ensures { state.new ≡ weight_added bin weight state.old }
{
    if bin < state.len() {
        state[bin] = state[bin] + weight;
    }
}

#[tactic(auto, using(crate::proofs::Means::scalar_sum, crate::proofs::Means::scalar_histogram))]
fn scalar_of(kind: BuiltReducer, d: Datum) -> f64
    ensures { result ≡ scalar_of kind.entry (the_datum d) }
{
    match kind {
        Reducer::Comp0Mean => d.c0,
        Reducer::ComponentSumMean => reducer::component_sum(d),
        Reducer::ComponentSumHistogram(_) => reducer::component_sum(d),
    }
}

impl<'a> PairRow<'a> {
    // Pair x.
    #[tactic(auto, using(crate::proofs::Histograms::datum_is))]
    fn datum_at(self, setup: Setup, x: usize) -> Datum
        requires { x < self.n }
        ensures { the_datum result ≡ datum_in setup.entry (row_of self.entry) x }
    {
        let op = setup.op;
        let first = self.a.cell_at(self.i + x);
        let second = self.b.cell_at(self.j + x);
        reducer::datum_of(op, first, second)
    }

    // The value of each pair.
    fn gather(self, setup: Setup, values: &mut [f64])
        requires { self.n ≤ length values.old }
        ensures { values.new ≡ overwritten self.entry.n (row_value setup.entry (row_of self.entry)) values.old }
    {
        for x in 0..self.n {
            let d = self.datum_at(setup, x);
            values[x] = reducer::component_sum(d);
        }
    }

    // Each pair's weight into its bin. Formed again here, so that no slice holds the weights. By an index: three slices are read, two of them from a place on.
    #[tactic(auto, using(crate::proofs::Histograms::weights_start))]
    fn add_weights(self, found: &[usize], state: &mut [f64])
        requires { length found.now ≤ self.n }
        ensures { state.new ≡ weights_added (row_of self.entry) found.now 0 (length found.now) state.old }
    {
        let aw = self.a.weights;
        let bw = self.b.weights;
        let i = self.i;
        let j = self.j;
        for x in 0..found.len() {
            add_weight(found[x], aw[i + x] * bw[j + x], state);
        }
    }

    #[tactic(auto, using(crate::proofs::Means::cells_in_mean_law))]
    fn cells_in_mean(self, setup: Setup, x: usize, m: Mean) -> Mean
        requires { x < self.n }
        ensures { result ≡ cells_in_mean setup.entry (row_of self.entry) x m }
    {
        let kind = setup.reducer;
        let d = self.datum_at(setup, x);
        let value = scalar_of(kind, d);
        Mean {
            total: m.total + value * d.weight,
            weight: m.weight + d.weight,
        }
    }

    #[tactic(auto, using(crate::proofs::Means::mean_start))]
    fn row_in_mean(self, setup: Setup, first: Mean) -> Mean
        ensures { result ≡ row_in_mean setup.entry (row_of self.entry) 0 self.entry.n first }
    {
        let mut m = first;
        for x in 0..self.n {
            m = self.cells_in_mean(setup, x, m);
        }
        m
    }
}

impl<'a> PairPlane<'a> {
    // Row y.
    fn row(self, y: usize) -> PairRow<'a>
        requires { y < self.rows.m }
        ensures { row_of result ≡ row_at (plane_of self.entry) y }
    {
        let rows = self.rows;
        PairRow {
            a: self.a,
            b: self.b,
            i: rows.i + y * rows.sa,
            j: rows.j + y * rows.sb,
            n: rows.n,
        }
    }

    #[tactic(auto, using(crate::proofs::Means::mean_plane_start))]
    fn plane_in_mean(self, setup: Setup, first: Mean) -> Mean
        ensures { result ≡ plane_in_mean setup.entry (plane_of self.entry) 0 self.entry.rows.m first }
    {
        let mut m = first;
        for y in 0..self.rows.m {
            m = self.row(y).row_in_mean(setup, m);
        }
        m
    }
}

impl<'a> PairBlock<'a> {
    // Plane z.
    fn plane(self, z: usize) -> PairPlane<'a>
        requires { z < self.planes.l }
        ensures { plane_of result ≡ plane_at (pairs_of self.entry) z }
    {
        let rows = self.planes.rows;
        PairPlane {
            a: self.a,
            b: self.b,
            rows: Rows {
                i: rows.i + z * self.planes.ta,
                j: rows.j + z * self.planes.tb,
                ..rows
            },
        }
    }

    #[tactic(auto, using(crate::proofs::Means::mean_block_start))]
    fn block_in_mean(self, setup: Setup, first: Mean) -> Mean
        ensures { result ≡ block_in_mean setup.entry (pairs_of self.entry) 0 self.entry.planes.l first }
    {
        let mut m = first;
        for z in 0..self.planes.l {
            m = self.plane(z).plane_in_mean(setup, m);
        }
        m
    }
}

// ---- two blocks at an offset

// (index displacement times width)² on one axis; ga and gb are the blocks' global offsets.
fn displaced_squared(d: i64, ga: i64, gb: i64, width: f64) -> f64
    requires d_near { Near d }
    requires ga_near { Near ga }
    requires gb_near { Near gb }
    ensures { result ≡ square (displaced d ga gb width) }
{
    let c = ((d + gb - ga) as f64) * width;
    c * c
}

// The place of a cell in its block's slices.
fn cell_index(b: Block, z: usize, y: usize, x: usize) -> usize
    requires { Placed b.sz b.sy b.sx (cell z y x) }
    ensures { result ≡ cell_index (block_of b.entry) (cell z y x) }
{
    z * b.sz + y * b.sy + x * b.sx
}

impl<'a> Overlap<'a> {
    // From 0.0 in z, y, x order.
    #[tactic(auto, using(crate::proofs::Distance::near_back, crate::proofs::Cells::near_offset))]
    fn distance_squared(self, width: CellWidth) -> f64
        ensures { result ≡ distance_squared (width_of width) (block_of self.entry.a) (block_of self.entry.b) (idx_of self.entry.o) }
    {
        let z = 0.0 + displaced_squared(self.o.0, self.a.gz, self.b.gz, width.z);
        let y = z + displaced_squared(self.o.1, self.a.gy, self.b.gy, width.y);
        y + displaced_squared(self.o.2, self.a.gx, self.b.gx, width.x)
    }

    // How many cells it has on each axis.
    fn axes(self) -> Axes
        ensures { result ≡ overlap_of (block_of self.entry.a) (block_of self.entry.b) (idx_of self.entry.o) }
    {
        let z = idx_3d_offset::count(self.o.0, self.a.nz, self.b.nz);
        let y = idx_3d_offset::count(self.o.1, self.a.ny, self.b.ny);
        let x = idx_3d_offset::count(self.o.2, self.a.nx, self.b.nx);
        Axes { z, y, x }
    }

    // Its rows, from its first cells on.
    fn planes(self) -> Planes
        ensures { result ≡ planes_of (block_of self.entry.a) (block_of self.entry.b) (idx_of self.entry.o) }
    {
        let az = idx_3d_offset::start_a(self.o.0);
        let ay = idx_3d_offset::start_a(self.o.1);
        let ax = idx_3d_offset::start_a(self.o.2);
        let bz = idx_3d_offset::start_b(self.o.0);
        let by = idx_3d_offset::start_b(self.o.1);
        let bx = idx_3d_offset::start_b(self.o.2);
        let i = cell_index(self.a, az, ay, ax);
        let j = cell_index(self.b, bz, by, bx);
        let n = self.axes();
        let rows = Rows {
            i,
            j,
            sa: self.a.sy,
            sb: self.b.sy,
            n: n.x,
            m: n.y,
        };
        Planes {
            rows,
            ta: self.a.sz,
            tb: self.b.sz,
            l: n.z,
        }
    }

    // Its pairs of cells.
    fn pairs(self) -> PairBlock<'a>
        ensures { pairs_of result ≡ pairs_at (block_of self.entry.a) (block_of self.entry.b) (idx_of self.entry.o) }
    {
        PairBlock {
            a: Fields::from(self.a),
            b: Fields::from(self.b),
            planes: self.planes(),
        }
    }

    // The mean of its pairs.
    fn mean(self, setup: Setup) -> Mean
        ensures { result ≡ offset_mean setup.entry (block_of self.entry.a) (block_of self.entry.b) (idx_of self.entry.o) }
    {
        let first = Mean {
            total: 0.0,
            weight: 0.0,
        };
        self.pairs().block_in_mean(setup, first)
    }
}

// ---- a state of its own for each offset, merged once into its bin

// Number e of the state is added to number e of state `bin` of the pack.
#[tactic(auto, using(crate::proofs::Merge::merge_start))]
fn merge_state(n_states: usize, bin: usize, state: &[f64], scratch: &mut [f64])
    requires { StateFits n_states bin (length state.now) (length scratch.old) }
    ensures { scratch.new ≡ state_merged n_states bin state.now 0 (length state.now) scratch.old }
{
    for (e, number) in state.iter().enumerate() {
        let at = e * n_states + bin;
        scratch[at] = scratch[at] + *number;
    }
}

impl<'a> Distances<'a> {
    // The bin of an overlap's distance.
    fn bin_of(self, at: Overlap) -> Option<usize>
        ensures { result ≡ built_bin self.entry.setup.edges
            (distance_squared (width_of self.entry.width) (block_of at.entry.a) (block_of at.entry.b) (idx_of at.entry.o)) }
    {
        let distance = at.distance_squared(self.width);
        edge_table::bin_of(self.setup.edges, self.ends, distance)
    }
}

// ---- the walk over the offsets

// Both types are of other crates, so it is no method.
fn axes_of(b: Block) -> Axes
    ensures { result ≡ axes_of b.entry }
{
    Axes {
        z: b.nz,
        y: b.ny,
        x: b.nx,
    }
}

// Those of a run, from the first on.
fn overlaps<'a>(sets: Sets<Block<'a>>) -> Overlaps<'a>
    requires { AllReady sets }
    ensures { overlaps_left result ≡ seq_of sets.entry }
{
    match sets {
        Sets::Auto(a) => Overlaps {
            a,
            b: a,
            offsets: Offsets::auto(axes_of(a)),
        },
        Sets::Cross(a, b) => Overlaps {
            a,
            b,
            offsets: Offsets::cross(axes_of(a), axes_of(b)),
        },
    }
}

impl<'a> Iterator for Overlaps<'a> {
    ghost use Rattle.std.specs.Iterator.{YieldsFirstBy, item_count};

    type Item = Overlap<'a>;

    ghost next_gives = { YieldsFirstBy overlap_in overlaps_left };

    ghost remaining = { item_count overlaps_left };

    fn next(&mut self) -> Option<Overlap<'a>> {
        let o = self.offsets.next()?;
        Some(Overlap {
            a: self.a,
            b: self.b,
            o,
        })
    }
}

// ---- means, which read no value edges

// That scratch, and a histogram's room, is long enough stands in each contract: a struct that held the lent slice would be taken apart at each call.
impl<'a> Means<'a> {
    // The mean of an overlap, into its bin, if its distance has one.
    fn add_mean(self, at: Overlap, scratch: &mut [f64])
        requires { self.distances.setup.n_states * mean_size ≤ length scratch.old }
        ensures { scratch.new ≡ overlap_added self.entry.distances.setup (width_of self.entry.distances.width) mean_size (overlap_in at.entry) scratch.old }
    {
        let setup = self.distances.setup;
        if let Some(bin) = self.distances.bin_of(at) {
            let m = at.mean(setup);
            merge_state(setup.n_states, bin, &[m.total, m.weight], scratch);
        }
    }

    // All of them, in order.
    fn fill(self, all: Overlaps, scratch: &mut [f64])
        requires { self.distances.setup.n_states * mean_size ≤ length scratch.old }
        ensures { scratch.new ≡ overlaps_added self.entry.distances.setup (width_of self.entry.distances.width) mean_size
            (overlaps_left all.entry) scratch.old }
    {
        for at in all {
            self.add_mean(at, scratch);
        }
    }
}

// ---- histograms

// A row of fewer pairs is added pair by pair: the loops over a row's values, bins and weights take longer.
const FEW_PAIRS: usize = 4;

impl<'a> Histograms<'a> {
    // Pair x of a row.
    fn add_pair(self, pairs: PairRow, x: usize, state: &mut [f64])
        requires place { x < pairs.n }
        requires sized { length state.old ≡ built_bins self.values.edges }
        ensures { state.new ≡ cells_added self.entry.distances.setup (row_of pairs.entry).a (row_of pairs.entry).b (pairs.entry.i + x) (pairs.entry.j + x) state.old }
    {
        let datum = pairs.datum_at(self.distances.setup, x);
        let value = reducer::component_sum(datum);
        let bin = edge_batch::number_by::<false>(self.values, value);
        add_weight(bin, datum.weight, state);
    }

    // The pairs of a row, one after the other.
    #[tactic(auto, using(crate::proofs::Loops::row_start))]
    fn add_pairs(self, pairs: PairRow, state: &mut [f64])
        requires sized { length state.old ≡ built_bins self.values.edges }
        ensures { state.new ≡ row_added self.entry.distances.setup (row_of pairs.entry) 0 pairs.entry.n state.old }
    {
        for x in 0..pairs.n {
            self.add_pair(pairs, x, &mut *state);
        }
    }

    // The pairs of a row: their values, the values' bins, and then their weights. All but the state is room.
    // Its parts are lent one by one: a struct of them would be taken apart at each call.
    fn add_batch(self, pairs: PairRow, values: &mut [f64], found: &mut [usize], state: &mut [f64])
        requires sized { length state.old ≡ built_bins self.values.edges }
        requires room { RowRoom pairs.n (length values.old) (length found.old) }
        ensures { state.new ≡ row_added self.entry.distances.setup (row_of pairs.entry) 0 pairs.entry.n state.old }
    {
        let values = &mut values[..pairs.n];
        let found = &mut found[..pairs.n];
        pairs.gather(self.distances.setup, &mut *values);
        edge_batch::bins_of::<false>(self.values, &*values, &mut *found);
        pairs.add_weights(&*found, state);
    }

    // The pairs of a row, few or many.
    fn add_row(self, pairs: PairRow, values: &mut [f64], found: &mut [usize], state: &mut [f64])
        requires sized { length state.old ≡ built_bins self.values.edges }
        requires room { RowRoom pairs.n (length values.old) (length found.old) }
        ensures { state.new ≡ row_added self.entry.distances.setup (row_of pairs.entry) 0 pairs.entry.n state.old }
    {
        if pairs.n < FEW_PAIRS {
            self.add_pairs(pairs, state)
        } else {
            self.add_batch(pairs, values, found, state)
        }
    }

    // All rows of a plane.
    #[tactic(auto, using(crate::proofs::Loops::plane_start))]
    fn add_plane(self, pairs: PairPlane, values: &mut [f64], found: &mut [usize], state: &mut [f64])
        requires sized { length state.old ≡ built_bins self.values.edges }
        requires room { RowRoom pairs.rows.n (length values.old) (length found.old) }
        ensures { state.new ≡ plane_added self.entry.distances.setup (plane_of pairs.entry) 0 pairs.entry.rows.m state.old }
    {
        for y in 0..pairs.rows.m {
            self.add_row(pairs.row(y), values, found, state);
        }
    }

    // All planes.
    #[tactic(auto, using(crate::proofs::Loops::block_start))]
    fn add_planes(
        self,
        pairs: PairBlock,
        values: &mut [f64],
        found: &mut [usize],
        state: &mut [f64],
    )
        requires sized { length state.old ≡ built_bins self.values.edges }
        requires room { RowRoom pairs.planes.rows.n (length values.old) (length found.old) }
        ensures { state.new ≡ block_added self.entry.distances.setup (pairs_of pairs.entry) 0 pairs.entry.planes.l state.old }
    {
        for z in 0..pairs.planes.l {
            self.add_plane(pairs.plane(z), values, found, state);
        }
    }

    // An overlap's cells, in a fresh state, into its bin.
    fn add_cells(self, at: Overlap, bin: usize, room: &mut Room, scratch: &mut [f64])
        requires { StateFits self.distances.setup.n_states bin (built_bins self.values.edges) (length scratch.old) }
        ensures { scratch.new ≡ merged_in (Some bin) self.entry.distances.setup.n_states (offset_cells self.entry.distances.setup
            (block_of at.entry.a) (block_of at.entry.b) (idx_of at.entry.o) (fresh (built_bins self.entry.values.edges))) scratch.old }
    {
        let whole = &mut room.state[..];
        let state = &mut whole[..self.values.edges.n_bins()];
        state.fill(0.0);
        self.add_planes(at.pairs(), &mut room.values, &mut room.found, &mut *state);
        merge_state(self.distances.setup.n_states, bin, state, scratch);
    }

    // The same, if its distance has a bin.
    fn add_overlap(self, at: Overlap, room: &mut Room, scratch: &mut [f64])
        requires { self.distances.setup.n_states * built_bins self.values.edges ≤ length scratch.old }
        ensures { scratch.new ≡ overlap_added self.entry.distances.setup (width_of self.entry.distances.width)
            (built_bins self.entry.values.edges) (overlap_in at.entry) scratch.old }
    {
        if let Some(bin) = self.distances.bin_of(at) {
            self.add_cells(at, bin, room, scratch);
        }
    }

    // All of them, in order: a line as in Means, over a room. A trait for both, with its law, would be longer than the two.
    fn fill(self, all: Overlaps, room: &mut Room, scratch: &mut [f64])
        requires { self.distances.setup.n_states * built_bins self.values.edges ≤ length scratch.old }
        ensures { scratch.new ≡ overlaps_added self.entry.distances.setup (width_of self.entry.distances.width)
            (built_bins self.entry.values.edges) (overlaps_left all.entry) scratch.old }
    {
        for at in all {
            self.add_overlap(at, &mut *room, scratch);
        }
    }
}

// A histogram's walk: the lookup of its values and all room are made here.
fn fill_histogram<'a>(
    distances: Distances<'a>,
    edges: BuiltEdges<'a>,
    all: Overlaps<'a>,
    scratch: &mut [f64],
)
    requires kind { distances.setup.reducer ≡ ComponentSumHistogram edges }
    requires used { distances.setup.n_states * built_bins edges ≤ length scratch.old }
    ensures { scratch.new ≡ overlaps_added distances.entry.setup (width_of distances.entry.width) (built_bins edges.entry)
        (overlaps_left all.entry) scratch.old }
{
    let table = edge_table::table_of(edges);
    let mut hints = [0u8; 4096];
    edge_table::fill_hints(edges, table, &mut hints);
    let values = Lookup {
        edges,
        table,
        hints: &hints,
    };
    let mut room = Room {
        values: [0.0; 64],
        found: [0; 64],
        state: [0.0; 256],
    };
    Histograms { distances, values }.fill(all, &mut room, scratch);
}

// ---- runs

// The pairs of a run's cells, offset by offset.
impl ReductionSpec for CellPairs<'_> {
    ghost contributed = { λ run setup s. overlaps_added setup (width_of run.width) (reducer_size setup.reducer) (seq_of run.sets) s };

    fn add_contributions(&self, setup: &Setup, scratch: &mut [f64]) {
        let distances = Distances {
            setup: *setup,
            ends: edge_table::ends_of(setup.edges),
            width: self.width,
        };
        let all = overlaps(self.sets);
        match setup.reducer {
            Reducer::ComponentSumHistogram(edges) => fill_histogram(distances, edges, all, scratch),
            _ => Means { distances }.fill(all, scratch),
        }
    }
}

fn run(sets: Sets<Block>, width: CellWidth, spec: RunSpec, pack: &mut [f64]) -> Result<(), Refusal>
    ensures number { number_of result ≡ refusal (run_rules (run_of (sets_of sets.entry (width_of width)) spec.entry) (length pack.old)) }
    ensures pack_after { pack.new ≡ step (run_of (sets_of sets.entry (width_of width)) spec.entry) pack.old }
{
    let setup = spatial::run_setup(sets, width, spec, pack.len())?;
    parallel_serial::drive_reduce(&CellPairs { sets, width }, &setup, pack);
    Ok(())
}

// The pairs of a block's cells: the offsets after (0, 0, 0).
pub fn blocks_auto(
    block: Block,
    width: CellWidth,
    spec: RunSpec,
    pack: &mut [f64],
) -> Result<(), Refusal>
    ensures number { number_of result ≡ refusal (run_rules (auto_run width (block_of block.entry) spec.entry) (length pack.old)) }
    ensures pack_after { pack.new ≡ step (auto_run width (block_of block.entry) spec.entry) pack.old }
{
    run(Sets::Auto(block), width, spec, pack)
}

// The pairs of a's cells with b's: all offsets.
pub fn blocks_cross(
    a: Block,
    b: Block,
    width: CellWidth,
    spec: RunSpec,
    pack: &mut [f64],
) -> Result<(), Refusal>
    ensures number { number_of result ≡ refusal (run_rules (cross_run width (block_of a.entry) (block_of b.entry) spec.entry) (length pack.old)) }
    ensures pack_after { pack.new ≡ step (cross_run width (block_of a.entry) (block_of b.entry) spec.entry) pack.old }
{
    run(Sets::Cross(a, b), width, spec, pack)
}
