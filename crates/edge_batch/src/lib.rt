// Lookups of a batch of values: a first loop takes guesses and hints that comparisons show right, and marks the rest; a second loop finds what is marked.
// The loops go by an index: after a zip with iter_mut() a proof knows none of the numbers that were written. They are three, not one that takes a closure:
// each is a line or two, and the one would have to say its numbers by what the closure promises.
#![tactic(auto)]

ghost use Rattle.std.specs.Prelude.{◌≡◌, ◌<◌, length};
ghost use Rattle.edge_table.specs.Table.{place_of, sure_at};
ghost use Rattle.edge_batch.specs.Batch.{guess_of, is_past, number_for, sure_cut, sure_number, AtMost, each, sure, settled, settled_or, number_by, numbers_of};

use bins::RegularBinEdges;
use edge_table::{Ends, Lookup, NO_BIN, NOT_SETTLED, Table};
use reducer::{BinEdges, BuiltEdges};

// Numbers below it are found: their bitwise or stays below it too.
const SETTLED_LIMIT: usize = 8192;

// ---- irregular edges, by hints

// The values' places of hints: a loop of its own, with nothing but arithmetic. With options and one loop a batch takes 1.6 times as long (docs/SPEED.md).
#[tactic(auto, using(crate::proofs::Loops::each_set, crate::proofs::Loops::each_done))]
fn places_of<const INSIDE: bool>(table: Table, x: &[f64], found: &mut [usize])
    ensures { found.new ≡ each (λ v n. place_of INSIDE table v) x.now found.old }
{
    for q in 0..x.len().min(found.len()) {
        found[q] = edge_table::place_of::<INSIDE>(table, x[q]);
    }
}

// found holds the places. What is returned is at least each number.
#[tactic(auto, using(crate::proofs::Loops::each_set, crate::proofs::Loops::each_done, crate::proofs::Loops::most_next))]
fn sure_bins(list: &[f64], hints: &[u8; 4096], x: &[f64], found: &mut [usize]) -> usize
    ensures { (found.new ≡ each (sure_at list.now hints.now) x.now found.old) × AtMost result (length x.now) found.new }
{
    let mut all = 0;
    for q in 0..x.len().min(found.len()) {
        let bin = edge_table::sure_at(list, &hints[..], x[q], found[q]);
        found[q] = bin;
        all = all | bin;
    }
    all
}

// ---- regular edges, by guesses

// Adding 2^31 leaves 21 bits of the fraction; the bits above them hold the whole number.
#[tactic(auto, unfolding(crate::specs::Batch::guess_of))]
fn guess_of(q: f64) -> usize
    ensures { (result ≡ guess_of q) × (result < 4096) }
{
    ((std::num::f64_to_bits_with_nan(q + 2147483648.0) / 2097152) % 4096) as usize
}

// Past an end, unless it is known that no value is. As Ends::is_past of edge_table, over other fields: each is a line over bins::is_past.
#[tactic(auto, unfolding(crate::specs::Batch::is_past))]
fn is_past<const INSIDE: bool>(e: RegularBinEdges, x: f64) -> bool
    ensures { result ≡ is_past INSIDE e x }
{
    !INSIDE && bins::is_past(e.min, e.max, x)
}

// The quotient without its fraction; 4096 past an end. Not by bin_index, which tests the ends also where no value is past one.
#[tactic(auto, unfolding(crate::specs::Batch::number_for))]
fn number_for<const INSIDE: bool>(e: RegularBinEdges, x: f64) -> usize
    ensures { result ≡ number_for INSIDE e x }
{
    if is_past::<INSIDE>(e, x) {
        return NO_BIN;
    }
    floats::as_usize((x - e.min) / e.bin_size)
}

// A quotient's whole number where a guess is right, else the largest usize.
#[tactic(auto, unfolding(crate::specs::Batch::sure_cut, crate::specs::Batch::is_sure))]
fn sure_cut(q: f64) -> usize
    ensures { result ≡ sure_cut q }
{
    let h = guess_of(q);
    let f = h as f64;
    let next = f + 1.0;
    if f <= q && q < next { h } else { NOT_SETTLED }
}

// The same as number_for where a guess is right. The quotient is made first: what is left is a choice of two numbers, not a branch.
#[tactic(auto, unfolding(crate::specs::Batch::sure_number))]
fn sure_number<const INSIDE: bool>(e: RegularBinEdges, x: f64) -> usize
    ensures { result ≡ sure_number INSIDE e x }
{
    let number = sure_cut((x - e.min) / e.bin_size);
    if is_past::<INSIDE>(e, x) {
        NO_BIN
    } else {
        number
    }
}

// A loop of its own, with nothing but arithmetic. What is returned is at least each number.
#[tactic(auto, using(crate::proofs::Loops::each_set, crate::proofs::Loops::each_done, crate::proofs::Loops::most_next))]
fn sure_numbers<const INSIDE: bool>(e: RegularBinEdges, x: &[f64], found: &mut [usize]) -> usize
    ensures { (found.new ≡ each (λ v n. sure_number INSIDE e v) x.now found.old) × AtMost result (length x.now) found.new }
{
    let mut all = 0;
    for q in 0..x.len().min(found.len()) {
        let number = sure_number::<INSIDE>(e, x[q]);
        found[q] = number;
        all = all | number;
    }
    all
}

// ---- both

// What the first loop finds.
fn sure_of<const INSIDE: bool>(look: Lookup, x: &[f64], found: &mut [usize]) -> usize
    ensures { (found.new ≡ each (λ v n. sure INSIDE look.entry v) x.now found.old) × AtMost result (length x.now) found.new }
{
    match look.edges {
        BinEdges::Regular(e) => sure_numbers::<INSIDE>(e, x, found),
        BinEdges::Irregular(list) => {
            places_of::<INSIDE>(look.table, x, &mut *found);
            sure_bins(list, look.hints, x, found)
        }
    }
}

// A value's number by the edges alone. The search and the located bin are called here as well as in the lookup of one value: called there alone they would be
// inlined, and runs of few points take twice as long.
#[tactic(auto, unfolding(edge_table::specs::Table::located_bin))]
fn settled_number<const INSIDE: bool>(edges: BuiltEdges, ends: Ends, x: f64) -> usize
    ensures { result ≡ settled INSIDE edges.entry ends x }
{
    match edges {
        BinEdges::Regular(e) => number_for::<INSIDE>(e, x),
        BinEdges::Irregular(list) => {
            if !ends.is_within(x) {
                return NO_BIN;
            }
            let h = edge_table::locate(list, x);
            if edge_table::is_shown(list, x, h) {
                return h;
            }
            edge_table::located_bin(list, x).unwrap_or(NO_BIN)
        }
    }
}

// The number of one value's bin, by its hint first, as in a batch; of few values this takes less time than a batch's loops. That it is the edges' own number
// is the law number_by_law, since a contract does not know of a float alone that it is one of binary64.
#[tactic(auto, unfolding(crate::specs::Batch::settled_or))]
pub fn number_by<const INSIDE: bool>(look: Lookup, x: f64) -> usize
    ensures { result ≡ number_by INSIDE look.entry x }
{
    match look.edges {
        BinEdges::Regular(e) => number_for::<INSIDE>(e, x),
        BinEdges::Irregular(list) => {
            let hints = look.hints;
            let place = edge_table::place_of::<INSIDE>(look.table, x);
            let bin = edge_table::sure_at(list, &hints[..], x, place);
            if bin < SETTLED_LIMIT {
                return bin;
            }
            settled_number::<INSIDE>(look.edges, look.table.ends, x)
        }
    }
}

// Finds what is marked.
#[tactic(auto, using(crate::proofs::Loops::each_next, crate::proofs::Loops::each_kept, crate::proofs::Loops::each_done), unfolding(crate::specs::Batch::settled_or))]
fn settle<const INSIDE: bool>(look: Lookup, x: &[f64], found: &mut [usize])
    ensures { found.new ≡ each (settled_or INSIDE look.entry) x.now found.old }
{
    for q in 0..x.len().min(found.len()) {
        if found[q] >= SETTLED_LIMIT {
            found[q] = settled_number::<INSIDE>(look.edges, look.table.ends, x[q]);
        }
    }
}

// The number of each value's bin, one past the bins where there is none; of regular edges it may also be an index past the bins.
// Nothing is done where the lengths differ.
// INSIDE: no value is past an end of the edges; of regular ones such a value has any number.
#[tactic(auto, unfolding(crate::specs::Batch::numbers_of))]
pub fn bins_of<const INSIDE: bool>(look: Lookup, x: &[f64], found: &mut [usize])
    ensures { found.new ≡ numbers_of INSIDE look.entry.edges x.now found.old }
{
    if found.len() != x.len() {
        return;
    }
    let all = sure_of::<INSIDE>(look, x, &mut *found);
    if all >= SETTLED_LIMIT {
        settle::<INSIDE>(look, x, found);
    }
}
