// Lookups in edges by a table: of one value by a search by quarters, of many by hints that are made once. A guess is tested, so nothing rests on it.
#![tactic(auto)]

ghost use Rattle.std.specs.Prelude.{◌≡◌, ◌+◌, ◌-◌, ◌*◌, ◌≤◌, ◌<◌, not, length};
ghost use Rattle.definitions.specs.Lists.{at};
ghost use Rattle.edge_table.specs.Table.{past_end, is_past, ends_of, table_of, place_of, hint_place, bin_hinted, hints_of, hints_for, outside_of};
ghost use Rattle.edge_table.specs.Table.{edge_bin, ends_bin, enclosed, shown, holds, step_up, climb, located, located_bin, near_hint, sure_at};
ghost use Rattle.edge_table.specs.Tabled.{Tabled, Tabled-prop};

use reducer::{BinEdges, BuiltEdges};

// Where there is no bin. Numbers, not options: a batch looked up and added takes 1.2 to 1.4 times as long with an enum, up to 1.8 times with `Option` and marks
// (docs/SPEED.md).
pub const NO_BIN: usize = 4096;

// The number that stands for one not found yet.
pub const NOT_SETTLED: usize = usize::MAX;

// Ends of the edges: a value below the first or not below the last has no bin.
#[derive(Clone, Copy)]
pub struct Ends {
    pub first: f64,
    pub last: f64,
}

impl Ends {
    // Past no end; without a branch on the value.
    pub fn is_within(self, value: f64) -> bool
        ensures { result ≡ not (past_end self value) }
    {
        !bins::is_past(self.first, self.last, value)
    }

    // Past one, unless it is known that no value is.
    fn is_past<const INSIDE: bool>(self, value: f64) -> bool
        ensures { result ≡ is_past INSIDE self value }
    {
        !INSIDE && bins::is_past(self.first, self.last, value)
    }
}

// The ends, and where a value's place of hints is: scale times it plus offset.
#[derive(Clone, Copy)]
pub struct Table {
    pub ends: Ends,
    pub scale: f64,
    pub offset: f64,
}

// Edges that can be searched, their table, and hints.
// These are an array, whose length is known at each lookup: as a slice they cost 3 to 6% with irregular edges.
#[derive(Clone, Copy)]
pub struct Lookup<'a> {
    pub edges: BuiltEdges<'a>,
    pub table: Table,
    pub hints: &'a [u8; 4096],
    ghost tabled: { Tabled edges table.ends } by { Tabled-prop edges table.ends },
}

// ---- tables

// An edge; a NaN where there is none.
fn edge_at(list: &[f64], i: usize) -> f64
    ensures { result ≡ at list.now i }
{
    list.get(i).copied().unwrap_or(f64::NAN)
}

pub fn ends_of(edges: BuiltEdges) -> Ends
    ensures { result ≡ ends_of edges.entry }
{
    match edges {
        BinEdges::Regular(e) => Ends {
            first: e.min,
            last: e.max,
        },
        BinEdges::Irregular(list) => Ends {
            first: edge_at(list, 0),
            last: edge_at(list, list.len().saturating_sub(1)),
        },
    }
}

// Irregular edges take 4,093 places of hints. Regular ones take none: their zeros are what this function has always promised.
pub fn table_of(edges: BuiltEdges) -> Table
    ensures { result ≡ table_of edges.entry }
{
    let ends = ends_of(edges);
    match edges {
        BinEdges::Regular(_) => Table {
            ends,
            scale: 0.0,
            offset: 0.0,
        },
        BinEdges::Irregular(_) => {
            let scale = 4093.0 / (ends.last - ends.first);
            Table {
                ends,
                scale,
                offset: 4503599627370497.0 - ends.first * scale,
            }
        }
    }
}

// ---- hints

// A place of hints. With 2^52 in the offset the sum is rounded to a whole number, which the low bits then hold.
#[tactic(auto, unfolding(crate::specs::Table::hint_place))]
fn hint_place(table: Table, value: f64) -> usize
    ensures { (result ≡ hint_place table value) × (result < 4096) }
{
    let x = value * table.scale + table.offset;
    (std::num::f64_to_bits_with_nan(x) % 4096) as usize
}

// Bin b at the places from its lower edge's to its upper edge's, which the next bin then takes: an edge's place has the bin above it.
#[tactic(auto, unfolding(crate::specs::Table::bin_hinted, crate::specs::Table::spread))]
fn hint_bin(list: &[f64], table: Table, b: usize, hints: &mut [u8])
    requires { b + 1 < length list.now }
    ensures { hints.new ≡ bin_hinted table list.now b hints.old }
{
    let p = hint_place(table, list[b]);
    let q = hint_place(table, list[b + 1]);
    let end = (q + 1).min(hints.len());
    if p < end {
        hints[p..end].fill((b % 256) as u8);
    }
}

#[tactic(auto, unfolding(crate::specs::Table::hints_of))]
fn hint_bins(list: &[f64], table: Table, hints: &mut [u8])
    ensures { hints.new ≡ hints_of table list.now (length list.now - 1) hints.old }
{
    for b in 0..list.len().saturating_sub(1) {
        hint_bin(list, table, b, hints);
    }
}

// Regular edges are found without hints.
pub fn fill_hints(edges: BuiltEdges, table: Table, hints: &mut [u8])
    ensures { hints.new ≡ hints_for edges.entry table hints.old }
{
    match edges {
        BinEdges::Regular(_) => {}
        BinEdges::Irregular(list) => hint_bins(list, table, hints),
    }
}

// ---- lookups

// Not below the lower edge of bin h, and below its upper one.
#[tactic(auto, unfolding(crate::specs::Table::enclosed))]
fn is_enclosed(list: &[f64], x: f64, h: usize) -> bool
    ensures { result ≡ enclosed list.now x h }
{
    h < list.len().saturating_sub(1) && list[h] <= x && x < list[h + 1]
}

// The edges show that bin h holds x, if that is no zero.
#[tactic(auto, unfolding(crate::specs::Table::shown))]
pub fn is_shown(list: &[f64], x: f64, h: usize) -> bool
    ensures { result ≡ shown list.now x h }
{
    x != 0.0 && is_enclosed(list, x, h)
}

#[tactic(auto, unfolding(crate::specs::Table::holds))]
fn is_held(list: &[f64], x: f64, h: usize) -> bool
    ensures { result ≡ holds list.now x h }
{
    if x.is_nan() || h >= list.len().saturating_sub(1) {
        return false;
    }
    let key = floats::total_key(x);
    floats::total_key(list[h]) <= key && key < floats::total_key(list[h + 1])
}

// w where edge i is not above x, else 0; without a branch on the value.
#[tactic(auto, unfolding(crate::specs::Table::step_up))]
fn step_up(list: &[f64], x: f64, i: usize, w: usize) -> usize
    ensures { (result ≡ step_up list.now x i w) × (result ≤ w) }
{
    let edge = edge_at(list, i);
    w * ((edge <= x) as usize)
}

// One of four parts of w bins each from b on: three tests that do not wait for each other.
#[tactic(auto, unfolding(crate::specs::Table::climb))]
fn climb_by(list: &[f64], x: f64, w: usize, b: usize) -> usize
    requires { b + 3 * w ≤ 255 }
    ensures { (result ≡ climb list.now x w b) × (result ≤ b + 3 * w) }
{
    let p = step_up(list, x, b + w, w);
    let q = step_up(list, x, b + 2 * w, w);
    let r = step_up(list, x, b + 3 * w, w);
    b + (p + q + r)
}

// The search by quarters: a guess. A value takes 8 ns among 32 bins and 14 among 256, by std's `partition_point` 32 and 55 (docs/SPEED.md).
#[tactic(auto, unfolding(crate::specs::Table::located))]
pub fn locate(list: &[f64], x: f64) -> usize
    ensures { (result ≡ located list.now x) × (result ≤ 255) }
{
    if list.len() <= 33 {
        let c = climb_by(list, x, 8, 0);
        let d = climb_by(list, x, 2, c);
        return d + step_up(list, x, d + 1, 1);
    }
    let c = climb_by(list, x, 64, 0);
    let d = climb_by(list, x, 16, c);
    let e = climb_by(list, x, 4, d);
    climb_by(list, x, 1, e)
}

// The bin of a value that is past no end.
#[tactic(auto, unfolding(crate::specs::Table::located_bin, reducer::specs::Consume::built_bin))]
pub fn located_bin(list: &[f64], x: f64) -> Option<usize>
    ensures { result ≡ located_bin list.now x }
{
    let h = locate(list, x);
    if is_shown(list, x, h) || is_held(list, x, h) {
        return Some(h);
    }
    reducer::bin_of(BinEdges::Irregular(list), x)
}

// Whether the value has no bin: a NaN, or outside the ends.
#[tactic(auto, unfolding(crate::specs::Table::outside_of))]
fn is_outside(ends: Ends, value: f64) -> bool
    ensures { result ≡ outside_of ends value }
{
    value.is_nan() || !ends.is_within(value)
}

// The bin in irregular edges by the search.
#[tactic(auto, unfolding(crate::specs::Table::edge_bin))]
fn edge_bin(list: &[f64], ends: Ends, value: f64) -> Option<usize>
    ensures { result ≡ edge_bin list.now ends value }
{
    if is_outside(ends, value) {
        return None;
    }
    located_bin(list, value)
}

// One bin without hints: the edges' own where the ends are theirs.
pub fn bin_of(edges: BuiltEdges, ends: Ends, value: f64) -> Option<usize>
    ensures { result ≡ ends_bin edges.entry ends value }
{
    match edges {
        BinEdges::Regular(_) => reducer::bin_of(edges, value),
        BinEdges::Irregular(list) => edge_bin(list, ends, value),
    }
}

// ---- hints tried

// A value's place of hints, 4,096 more past the ends, and 8,192 more for a zero, since two zeros that compare equal may stand on two sides of an edge.
#[tactic(auto, unfolding(crate::specs::Table::place_of))]
pub fn place_of<const INSIDE: bool>(table: Table, value: f64) -> usize
    ensures { result ≡ place_of INSIDE table value }
{
    let past = table.ends.is_past::<INSIDE>(value);
    hint_place(table, value) + (4096 * (past as usize) + 8192 * ((value == 0.0) as usize))
}

// h, or the bin beside it to which the value points.
#[tactic(auto, unfolding(crate::specs::Table::near_hint))]
fn near_hint(list: &[f64], x: f64, h: usize) -> usize
    requires { h ≤ 255 }
    ensures { result ≡ near_hint list.now x h }
{
    let edge = edge_at(list, h);
    if x < edge {
        return h.saturating_sub(1);
    }
    h + step_up(list, x, h + 1, 1)
}

// The bin of the hint at place p, or the one beside it, where the edges enclose the value; most lookups end at the first of the two.
// NO_BIN for a value past an end, and NOT_SETTLED where neither encloses it.
#[tactic(auto, using(crate::proofs::Lookups::near_enclosed), unfolding(crate::specs::Table::sure_at))]
pub fn sure_at(list: &[f64], hints: &[u8], x: f64, p: usize) -> usize
    ensures { result ≡ sure_at list.now hints.now x p }
{
    if p >= hints.len().min(4096) {
        return if p / 4096 == 1 { NO_BIN } else { NOT_SETTLED };
    }
    let h = hints[p] as usize;
    if is_enclosed(list, x, h) {
        return h;
    }
    let g = near_hint(list, x, h);
    if is_enclosed(list, x, g) {
        g
    } else {
        NOT_SETTLED
    }
}
