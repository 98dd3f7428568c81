// What the runs share of drive_reduce: what a caller states, what is built of it, the scratch pack and its addition to the caller's.
#![tactic(auto)]

ghost use Rattle.std.specs.Prelude.{◌≡◌, ◌*◌, ◌≤◌, length, take};
ghost use Rattle.parallel_serial.specs.Built.{built_of, reducer_of, built_edges, built_reducer};
ghost use Rattle.parallel_serial.specs.Drive.{zero_pack, added_scratch};
ghost use Rattle.reducer.specs.Consume.{reducer_size};
ghost use Rattle.parallel_serial.specs.Sets.{first_of, second_of};
ghost use Rattle.parallel_serial.specs.Usable.{UsableRun, UsableRun-prop};

use bins::RegularBinEdges;
use reducer::{BinEdges, BuiltEdges, BuiltReducer, Edges, Kind, PairOperation, Reducer};
use state_refusals::PackShape;

// The pack's shape as the caller states it, and the team.
#[derive(Clone, Copy)]
pub struct Shape {
    pub pack: PackShape,
    pub members: usize,
    pub teams: usize,
}

// What a run pairs: the members of one set with each other, or those of a with those of b.
#[derive(Clone, Copy)]
pub enum Sets<S> {
    Auto(S),
    Cross(S, S),
}

impl<S: Copy> Sets<S> {
    // The set of a pair's first member.
    pub fn first(self) -> S
        ensures { result ≡ first_of self }
    {
        match self {
            Sets::Auto(a) => a,
            Sets::Cross(a, _) => a,
        }
    }

    // The set of its second member.
    pub fn second(self) -> S
        ensures { result ≡ second_of self }
    {
        match self {
            Sets::Auto(a) => a,
            Sets::Cross(_, b) => b,
        }
    }
}

// What a caller states of a run beside its sets.
#[derive(Clone, Copy)]
pub struct RunSpec<'a> {
    pub edges: Edges<'a>,
    pub kind: Kind<'a>,
    pub op: PairOperation,
    pub shape: Shape,
}

// What is the same for each pair of a run: edges and a reducer that are built of accepted ones, and as many states as there are bins.
#[derive(Clone, Copy)]
pub struct Setup<'a> {
    pub op: PairOperation,
    pub edges: BuiltEdges<'a>,
    pub reducer: BuiltReducer<'a>,
    pub n_states: usize,
    ghost usable: { UsableRun edges reducer n_states } by { UsableRun-prop edges reducer n_states },
}

// ---- what is built of edges and kinds as stated

// Irregular edges stay as they are, refused ones too. Refused regular edges are none: irregular ones over no list.
pub fn build_edges<'a>(edges: Edges<'a>) -> BuiltEdges<'a>
    ensures { built_of result ≡ built_edges edges.entry }
{
    match edges {
        BinEdges::Regular(e) => match RegularBinEdges::new(e.min, e.max, e.n_bins) {
            Ok(e) => BinEdges::Regular(e),
            Err(_) => BinEdges::Irregular(&[]),
        },
        BinEdges::Irregular(list) => BinEdges::Irregular(list),
    }
}

pub fn build_reducer<'a>(kind: Kind<'a>) -> BuiltReducer<'a>
    ensures { reducer_of result ≡ built_reducer kind.entry }
{
    match kind {
        Reducer::Comp0Mean => Reducer::Comp0Mean,
        Reducer::ComponentSumMean => Reducer::ComponentSumMean,
        Reducer::ComponentSumHistogram(e) => Reducer::ComponentSumHistogram(build_edges(e)),
    }
}

// ---- scratch

// Scratch is added to the front of the caller's pack, caller's number first; nothing where it is longer.
#[tactic(auto, using(crate::proofs::Scratch::added_none))]
pub fn add_scratch(scratch: &[f64], pack: &mut [f64])
    ensures { pack.new ≡ added_scratch pack.old scratch.now }
{
    if scratch.len() <= pack.len() {
        for (i, x) in scratch.iter().enumerate() {
            pack[i] = pack[i] + *x;
        }
    }
}

// ---- a run

// What a run adds up: its pairs, into a scratch pack.
pub trait ReductionSpec {
    ghost use Rattle.std.specs.Prelude.{List, Float};
    ghost use Rattle.parallel_serial.specs.declared.Setup.{Setup};

    ghost contributed: { Self → Setup → List Float → List Float };

    fn add_contributions(&self, setup: &Setup, scratch: &mut [f64])
        requires { setup.now.n_states * reducer_size setup.now.reducer ≤ length scratch.old }
        ensures { scratch.new ≡ contributed self.now setup.now scratch.old };
}

// An accepted run: the used prefix of a scratch pack, added to the caller's pack. Not inlined: a refused call has no room for scratch on its stack.
#[inline(never)]
pub fn drive_reduce<R: ReductionSpec>(run: &R, setup: &Setup, pack: &mut [f64])
    ensures { pack.new ≡ added_scratch pack.old (R.contributed run.now setup.now (take (setup.now.n_states * reducer_size setup.now.reducer) zero_pack)) }
{
    let mut zeros = [0.0; 4096];
    let scratch = &mut zeros[..setup.n_states * setup.reducer.state_size()];
    run.add_contributions(setup, &mut *scratch);
    add_scratch(scratch, pack);
}
