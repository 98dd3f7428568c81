// What a run over points reads and writes, with what is known of it.
#![tactic(auto)]

ghost use Rattle.std.specs.Prelude.{◌≡◌, length, option_map};
ghost use Rattle.std.proofs.Props.{props};
ghost use Rattle.edge_table.specs.Tabled.{Tabled, Tabled-prop};
ghost use Rattle.unstructured.specs.Held.{Readable, Parts, Listed, value_edges};

use edge_table::{Ends, Lookup};
use parallel_serial::{Sets, Setup};

// A set of n points, whose slices hold them: component k of point i is at k times the stride plus i.
#[derive(Clone, Copy)]
pub struct Points<'a> {
    pub positions: &'a [f64],
    pub values: &'a [f64],
    pub weights: &'a [f64],
    pub stride: usize,
    pub n: usize,
    ghost held: { Readable positions.now values.now weights.now n stride },
}

// What a run over points pairs.
#[derive(Clone, Copy)]
pub struct PointPairs<'a> {
    pub sets: Sets<Points<'a>>,
}

// A run and the ends of its edges, for lookups of one distance.
#[derive(Clone, Copy)]
pub struct Searched<'a> {
    pub setup: &'a Setup<'a>,
    pub ends: Ends,
    ghost tabled: { Tabled setup.now.edges ends } by { Tabled-prop setup.now.edges ends },
}

// A run with the lookup of its edges and, of a histogram, of its value edges.
#[derive(Clone, Copy)]
pub struct Lookups<'a> {
    pub setup: Setup<'a>,
    pub edges: Lookup<'a>,
    pub values: Option<Lookup<'a>>,
    ghost edges_are: { edges.edges ≡ setup.edges } by { Prim.hlevel props },
    ghost values_are: { option_map (λ v. v.edges) values ≡ value_edges setup.reducer } by { Prim.hlevel props },
}

// The listed places of a batch, and its readings, in parts of the slices that start at its first point: a place is the index itself.
#[derive(Clone, Copy)]
pub struct Readings<'a> {
    pub c0: &'a [f64],
    pub c1: &'a [f64],
    pub c2: &'a [f64],
    pub w: &'a [f64],
    pub places: &'a [usize],
    ghost parts: { Parts c0.now c1.now c2.now w.now },
    ghost listed: { Listed (length w.now) places.now },
}

// The same with the numbers of the listed pairs' bins and of their values' bins.
#[derive(Clone, Copy)]
pub struct Found<'a> {
    pub readings: Readings<'a>,
    pub bins: &'a [usize],
    pub values: &'a [usize],
    ghost bins_len: { length bins.now ≡ length readings.places.now },
    ghost values_len: { length values.now ≡ length readings.places.now },
}

// The room of a batch: four arrays, not one of structs, since each loop goes over one or two of them, and a mean has no values.
#[derive(Drop)]
pub struct Room {
    pub d: [f64; 256],
    pub places: [usize; 256],
    pub bins: [usize; 256],
    pub values: [usize; 256],
}

// A run in batches, and their room.
#[derive(Drop)]
pub struct Batches<'a> {
    pub look: &'a Lookups<'a>,
    pub room: Room,
}
