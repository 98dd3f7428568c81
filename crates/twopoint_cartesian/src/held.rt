// What a run over blocks reads and writes, with what is known of it.
#![tactic(auto)]

ghost use Rattle.std.specs.Prelude.{◌≡◌, true};
ghost use Rattle.std.proofs.Props.{props};
ghost use Rattle.reducer.specs.declared.Reducer.TheVariants.{ComponentSumHistogram};
ghost use Rattle.edge_table.specs.Tabled.{Tabled, Tabled-prop};
ghost use Rattle.idx_3d_offset.specs.Walk.{offsets_left};
ghost use Rattle.twopoint_cartesian.specs.Held.{fields_of, RowFits, PlaneFits, BlockFits, Reached, AllReached, AllReady, is_mean};

use edge_table::{Ends, Lookup};
use idx_3d_offset::{Idx3DOffset, Offsets};
use parallel_serial::{Sets, Setup};
use spatial::{Block, CellWidth};

// The two numbers of a mean's state.
#[derive(Clone, Copy)]
pub struct Mean {
    pub total: f64,
    pub weight: f64,
}

// A block's three components and its weights, four slices as C lends them.
#[derive(Clone, Copy)]
pub struct Fields<'a> {
    pub comp0: &'a [f64],
    pub comp1: &'a [f64],
    pub comp2: &'a [f64],
    pub weights: &'a [f64],
}

// m rows of n cells: the first starts at i in a and at j in b, each a stride after the one before, sa in a, sb in b.
#[derive(Clone, Copy)]
pub struct Rows {
    pub i: usize,
    pub j: usize,
    pub sa: usize,
    pub sb: usize,
    pub n: usize,
    pub m: usize,
}

// l planes of rows: each a stride after the one before, ta in a, tb in b.
#[derive(Clone, Copy)]
pub struct Planes {
    pub rows: Rows,
    pub ta: usize,
    pub tb: usize,
    pub l: usize,
}

// A row of n pairs of cells: cell i + x of a with cell j + x of b. Both sides stand in one struct, since each row, plane and block is made of the two.
#[derive(Clone, Copy)]
pub struct PairRow<'a> {
    pub a: Fields<'a>,
    pub b: Fields<'a>,
    pub i: usize,
    pub j: usize,
    pub n: usize,
    ghost a_held: { RowFits (fields_of a) i n },
    ghost b_held: { RowFits (fields_of b) j n },
}

// A plane of such rows.
#[derive(Clone, Copy)]
pub struct PairPlane<'a> {
    pub a: Fields<'a>,
    pub b: Fields<'a>,
    pub rows: Rows,
    ghost a_held: { PlaneFits (fields_of a) rows.i rows.sa rows.n rows.m },
    ghost b_held: { PlaneFits (fields_of b) rows.j rows.sb rows.n rows.m },
}

// A block of such planes.
#[derive(Clone, Copy)]
pub struct PairBlock<'a> {
    pub a: Fields<'a>,
    pub b: Fields<'a>,
    pub planes: Planes,
    ghost a_held: { BlockFits (fields_of a) planes.rows.i planes.rows.sa planes.ta planes.rows.n planes.rows.m planes.l },
    ghost b_held: { BlockFits (fields_of b) planes.rows.j planes.rows.sb planes.tb planes.rows.n planes.rows.m planes.l },
}

// Two accepted blocks at an offset within their reach: each of its cells in a has a partner in b.
#[derive(Clone, Copy)]
pub struct Overlap<'a> {
    pub a: Block<'a>,
    pub b: Block<'a>,
    pub o: Idx3DOffset,
    ghost reached: { Reached a b o },
}

// The overlaps of a run's blocks, one for each offset, in order.
#[derive(Drop)]
pub struct Overlaps<'a> {
    pub a: Block<'a>,
    pub b: Block<'a>,
    pub offsets: Offsets,
    ghost reached: { AllReached a b (offsets_left offsets) },
}

// What a run over blocks pairs, and the widths of its cells.
#[derive(Clone, Copy)]
pub struct CellPairs<'a> {
    pub sets: Sets<Block<'a>>,
    pub width: CellWidth,
    ghost ready: { AllReady sets },
}

// What the bin of an overlap's distance is looked up with.
#[derive(Clone, Copy)]
pub struct Distances<'a> {
    pub setup: Setup<'a>,
    pub ends: Ends,
    pub width: CellWidth,
    ghost tabled: { Tabled setup.edges ends } by { Tabled-prop setup.edges ends },
}

// A mean's run.
#[derive(Clone, Copy)]
pub struct Means<'a> {
    pub distances: Distances<'a>,
    ghost mean: { is_mean distances.setup.reducer ≡ true },
}

// A histogram's run, with what the bins of its values are looked up with.
#[derive(Clone, Copy)]
pub struct Histograms<'a> {
    pub distances: Distances<'a>,
    pub values: Lookup<'a>,
    ghost histogram: { distances.setup.reducer ≡ ComponentSumHistogram values.edges } by { Prim.hlevel props },
}

// The room of a histogram: the values and bins of a row, and a state.
#[derive(Drop)]
pub struct Room {
    pub values: [f64; 64],
    pub found: [usize; 64],
    pub state: [f64; 256],
}
