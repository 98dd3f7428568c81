// Edges looked over, and a value's bin in them.
#![tactic(auto)]

ghost use Rattle.std.specs.Prelude.{◌≡◌, T, length};
ghost use Rattle.definitions.specs.Bins.{regular, irregular, last_edge, irregular_index, find};
ghost use Rattle.definitions.specs.Rules.{refusal, if_accepted, edges_call_rules, all_finite, increasing};
ghost use Rattle.std.specs.Result.{result_ok};
ghost use Rattle.refusals.specs.Numbers.{number_of};

use bins::RegularBinEdges;
use refusals::Refusal;

// Builds regular edges and looks a value up in them.
#[tactic(auto, unfolding(definitions::specs::Bins::find))]
pub fn regular_bin_index(
    min: f64,
    max: f64,
    n_bins: usize,
    value: f64,
) -> Result<Option<usize>, Refusal>
    ensures number { number_of result ≡ refusal (edges_call_rules (regular min max n_bins)) }
    ensures found { result_ok result ≡ if_accepted (edges_call_rules (regular min max n_bins)) (Some (find (regular min max n_bins) value)) None }
{
    let edges = RegularBinEdges::new(min, max, n_bins)?;
    Ok(edges.bin_index(value))
}

// Looks irregular edges over and looks a value up in them.
#[tactic(auto, unfolding(definitions::specs::Bins::find))]
pub fn irregular_bin_index(edges: &[f64], value: f64) -> Result<Option<usize>, Refusal>
    ensures number { number_of result ≡ refusal (edges_call_rules (irregular edges.now)) }
    ensures found { result_ok result ≡ if_accepted (edges_call_rules (irregular edges.now)) (Some (find (irregular edges.now) value)) None }
{
    edge_validation::validate_bin_edges(edges)?;
    Ok(accepted_index(edges, value))
}

// The lookup in accepted edges.
#[tactic(auto, unfolding(definitions::specs::Bins::irregular_index))]
fn accepted_index(edges: &[f64], value: f64) -> Option<usize>
    requires { T (all_finite edges.now) × T (increasing edges.now) }
    ensures { result ≡ irregular_index edges.now value }
{
    if bins::outside(edges, value) {
        return None;
    }
    last_by_halves(edges, value)
}

// The last edge not after the value, by halves, in accepted edges.
fn last_by_halves(edges: &[f64], value: f64) -> Option<usize>
    requires { T (all_finite edges.now) × T (increasing edges.now) }
    ensures { result ≡ last_edge edges.now value (length edges.now) }
{
    let key = floats::total_key(value);
    let after = edges.partition_point(|edge| floats::total_key(*edge) <= key);
    after.checked_sub(1)
}
