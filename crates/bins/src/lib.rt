// Bin edges and the lookup of a value's bin.
#![tactic(auto)]

ghost use Rattle.std.specs.Prelude.{◌≡◌, ◌||◌, ◌-◌, length};
ghost use Rattle.std.specs.Float.Ieee.{lt, le, is_nan};
ghost use Rattle.definitions.specs.Lists.{at};
ghost use Rattle.definitions.specs.Bins.{regular, regular_index, last_edge, irregular_index};
ghost use Rattle.definitions.specs.Rules.{refusal, if_accepted, edges_call_rules};
ghost use Rattle.std.specs.Result.{result_ok};
ghost use Rattle.refusals.specs.Numbers.{number_of};
ghost use Rattle.bins.specs.Answers.{regular_of};

use refusals::Refusal;

pub const MAX_BINS: usize = 256;

// Regular bins with uniform spacing.
#[derive(Clone, Copy)]
pub struct RegularBinEdges {
    pub min: f64,
    pub max: f64,
    pub bin_size: f64,
    pub n_bins: usize,
}

impl RegularBinEdges {
    // n_bins bins of one size from min to max. The refusals come in the paper's order.
    #[tactic(auto, using(crate::proofs::Regular::count_exact, floats::proofs::Laws::finite_same), unfolding(definitions::specs::Bins::bins))]
    pub fn new(min: f64, max: f64, n_bins: usize) -> Result<RegularBinEdges, Refusal>
        ensures number { number_of result ≡ refusal (edges_call_rules (regular min max n_bins)) }
        ensures edges { result_ok result ≡ if_accepted (edges_call_rules (regular min max n_bins)) (Some (regular_of min max n_bins)) None }
    {
        if n_bins > MAX_BINS {
            return Err(Refusal::OverLimit);
        }
        if n_bins == 0 {
            return Err(Refusal::NoBins);
        }
        if max <= min {
            return Err(Refusal::MaxNotAboveMin);
        }
        let diff = max - min;
        if !diff.is_finite() {
            return Err(Refusal::NotFinite);
        }
        let bin_size = diff / (n_bins as f64);
        if bin_size == 0.0 {
            return Err(Refusal::NoBinSize);
        }
        Ok(RegularBinEdges {
            min,
            max,
            bin_size,
            n_bins,
        })
    }

    // For every struct, also one built by hand. The index may reach n_bins or more.
    #[tactic(auto, using(crate::proofs::Regular::index_past, crate::proofs::Regular::index_at))]
    pub fn bin_index(self, value: f64) -> Option<usize>
        ensures { result ≡ regular_index self.min self.max self.bin_size value }
    {
        if is_past(self.min, self.max, value) {
            return None;
        }
        Some(floats::as_usize((value - self.min) / self.bin_size))
    }
}

// Whether a value is below the first edge, or not below the last. Both are compared: no branch stands on the value.
pub fn is_past(first: f64, last: f64, value: f64) -> bool
    ensures { result ≡ (lt value first || le last value) }
{
    (value < first) | (last <= value)
}

// The lookup in any slice, unsorted or empty too: from the last edge down.
#[tactic(auto, unfolding(definitions::specs::Bins::irregular_index))]
pub fn last_not_after(edges: &[f64], value: f64) -> Option<usize>
    ensures { result ≡ irregular_index edges.now value }
{
    if outside(edges, value) {
        return None;
    }
    last_by_scan(edges, value)
}

// The end tests: a NaN, below the first edge, or not below the last.
#[tactic(auto, using(crate::proofs::Irregular::outside_empty))]
pub fn outside(edges: &[f64], value: f64) -> bool
    ensures { result ≡ (is_nan value || lt value (at edges.now 0) || le (at edges.now (length edges.now - 1)) value) }
{
    if value.is_nan() {
        return true;
    }
    match (edges.first(), edges.last()) {
        (Some(first), Some(last)) => is_past(*first, *last, value),
        _ => false,
    }
}

// The last edge not after the value.
fn last_by_scan(edges: &[f64], value: f64) -> Option<usize>
    ensures { result ≡ last_edge edges.now value (length edges.now) }
{
    let key = floats::total_key(value);
    edges
        .iter()
        .rposition(|edge| floats::total_key(*edge) <= key)
}
