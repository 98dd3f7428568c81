// Whether a slice is irregular edges.
#![tactic(auto)]

ghost use Rattle.std.specs.Prelude.{◌≡◌, true, false, ◌≤◌, T, is_ok, length};
ghost use Rattle.definitions.specs.Bins.{irregular};
ghost use Rattle.definitions.specs.Rules.{refusal, if_accepted, edges_call_rules, all_finite, increasing};
ghost use Rattle.refusals.specs.Numbers.{number_of};

use bins::MAX_BINS;
use refusals::Refusal;

// Whether every edge is finite.
#[tactic(auto, using(crate::proofs::Validation::all_done))]
fn all_finite(edges: &[f64]) -> bool
    ensures { result ≡ all_finite edges.now }
{
    edges.iter().all(|edge| edge.is_finite())
}

// Whether each edge is above the one before. No early end: 257 edges then take 60 ns, by `is_sorted_by` 225 (docs/SPEED.md).
#[tactic(auto, using(crate::proofs::Validation::rising_one))]
fn is_increasing(edges: &[f64]) -> bool
    ensures { result ≡ increasing edges.now }
{
    let mut rises = true;
    for pair in edges.windows(2) {
        rises = rises & (pair[0] < pair[1]);
    }
    rises
}

// Whether every edge is finite, of increasing edges: those between finite ones are finite.
#[tactic(auto, using(crate::proofs::Validation::ends_finite))]
fn has_finite_ends(edges: &[f64]) -> bool
    requires two_edges { 2 ≤ length edges.now }
    requires increasing { T (increasing edges.now) }
    ensures { result ≡ all_finite edges.now }
{
    match (edges.first(), edges.last()) {
        (Some(first), Some(last)) => first.is_finite() & last.is_finite(),
        _ => true,
    }
}

// Whether a slice is irregular edges. Increasing edges, the usual ones, are read once: 257 take 65 ns, and 250 where all are tested for finite first.
#[tactic(auto, unfolding(definitions::specs::Bins::bins))]
pub fn validate_bin_edges(edges: &[f64]) -> Result<(), Refusal>
    ensures number { number_of result ≡ refusal (edges_call_rules (irregular edges.now)) }
    ensures accepted { is_ok result ≡ if_accepted (edges_call_rules (irregular edges.now)) true false }
{
    if edges.len() > MAX_BINS + 1 {
        return Err(Refusal::OverLimit);
    }
    if edges.len() < 2 {
        return Err(Refusal::TooFewEdges);
    }
    if is_increasing(edges) {
        if has_finite_ends(edges) {
            return Ok(());
        }
        return Err(Refusal::NotFinite);
    }
    if all_finite(edges) {
        return Err(Refusal::NotIncreasing);
    }
    Err(Refusal::NotFinite)
}
