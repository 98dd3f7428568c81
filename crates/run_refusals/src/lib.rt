// The refusals of a run, by its edges, its kind and its shape, and by what its points or blocks say of themselves; what is built of an accepted one.
#![tactic(auto)]

ghost use Rattle.std.specs.Prelude.{◌≡◌, ◌∷◌, ◌≤◌};
ghost use Rattle.std.specs.Result.{IfOk};
ghost use Rattle.definitions.specs.Bins.{irregular};
ghost use Rattle.definitions.specs.Reducer.{state_kind};
ghost use Rattle.definitions.specs.Rules.{rule, refusal, over_state, edges_call_rules, kind_rules};
ghost use Rattle.refusals.specs.Numbers.{number_of};
ghost use Rattle.reducer.specs.declared.BinEdges.TheVariants.{Irregular};
ghost use Rattle.reducer.specs.Readings.{edges_of, kind_of};
ghost use Rattle.reducer.specs.Consume.{made_edges, made};
ghost use Rattle.reducer.specs.Usable.{Usable, UsableValues};
ghost use Rattle.parallel_serial.specs.Drive.{over_numbers, shape_rules, run_number};
ghost use Rattle.parallel_serial.specs.Setups.{SetupOf};

use bins::RegularBinEdges;
use parallel_serial::{RunSpec, Setup, Shape};
use reducer::{BinEdges, Bins, BuiltEdges, BuiltReducer, Edges, Kind, Reducer};
use refusals::Refusal;
use state_refusals::PackShape;

// ---- what is built once for a run

// Irregular edges by themselves.
#[tactic(auto, using(crate::proofs::Refusals::searchable))]
fn irregular_edges<'a>(list: &'a [f64]) -> Result<BuiltEdges<'a>, Refusal>
    ensures number { number_of result ≡ refusal (edges_call_rules (irregular list.now)) }
    ensures built { IfOk result (λ e. (e ≡ made_edges (Irregular list.entry)) × Usable e) }
{
    edge_validation::validate_bin_edges(list)?;
    Ok(BinEdges::Irregular(list))
}

// What is built of stated edges, or the first of their rules that is broken.
pub fn accepted_edges<'a>(edges: Edges<'a>) -> Result<BuiltEdges<'a>, Refusal>
    ensures number { number_of result ≡ refusal (edges_call_rules (edges_of edges.entry)) }
    ensures built { IfOk result (λ e. (e ≡ made_edges edges.entry) × Usable e) }
{
    match edges {
        BinEdges::Regular(e) => {
            let built = RegularBinEdges::new(e.min, e.max, e.n_bins)?;
            Ok(BinEdges::Regular(built))
        }
        BinEdges::Irregular(list) => irregular_edges(list),
    }
}

// The same of a kind, whose value edges are edges.
pub fn accepted_reducer<'a>(kind: Kind<'a>) -> Result<BuiltReducer<'a>, Refusal>
    ensures number { number_of result ≡ refusal (rule 7 (over_state (state_kind (kind_of kind.entry))) ∷ kind_rules (kind_of kind.entry)) }
    ensures built { IfOk result (λ r. (r ≡ made kind.entry) × UsableValues r) }
{
    match kind {
        Reducer::Comp0Mean => Ok(Reducer::Comp0Mean),
        Reducer::ComponentSumMean => Ok(Reducer::ComponentSumMean),
        Reducer::ComponentSumHistogram(e) => {
            let edges = accepted_edges(e)?;
            Ok(Reducer::ComponentSumHistogram(edges))
        }
    }
}

// ---- refusals

// Whether one of the run's own numbers is over a limit.
#[tactic(auto, unfolding(parallel_serial::specs::Drive::over_numbers))]
fn run_over(n_bins: usize, size: usize, pack: PackShape) -> bool
    ensures { result ≡ over_numbers n_bins size pack }
{
    n_bins > 256 || size > 256 || pack.is_over(4096)
}

// 23: members or teams not 1. 24: a shape that is not bins by state size, or a short slice.
fn shape_refusal(shape: Shape, n_bins: usize, size: usize, len: usize) -> Result<(), Refusal>
    requires { (n_bins ≤ 256) × (size ≤ 256) }
    ensures { number_of result ≡ refusal (shape_rules shape n_bins size len) }
{
    let fitting = PackShape {
        n_states: n_bins,
        state_size: size,
    };
    if shape.members != 1 || shape.teams != 1 {
        return Err(Refusal::NotSingle);
    }
    if shape.pack != fitting || n_bins * size > len {
        return Err(Refusal::PackShape);
    }
    Ok(())
}

// A run whose points or blocks are within the limits: of these, what their own rules say, and what the rules on their pairs.
// The first broken rule, or what is built of the edges and the kind.
pub fn run_setup<'a>(
    sets: Result<(), Refusal>,
    pairs: Result<(), Refusal>,
    spec: RunSpec<'a>,
    len: usize,
) -> Result<Setup<'a>, Refusal>
    ensures number { number_of result ≡ run_number (number_of sets) (number_of pairs) spec.entry len }
    ensures built { IfOk result (λ s. SetupOf spec.entry s) }
{
    let n_bins = spec.edges.n_bins();
    let size = spec.kind.state_size();
    if run_over(n_bins, size, spec.shape.pack) {
        return Err(Refusal::OverLimit);
    }
    sets?;
    let edges = accepted_edges(spec.edges)?;
    let reducer = accepted_reducer(spec.kind)?;
    pairs?;
    shape_refusal(spec.shape, n_bins, size, len)?;
    Ok(Setup {
        op: spec.op,
        edges,
        reducer,
        n_states: n_bins,
    })
}
