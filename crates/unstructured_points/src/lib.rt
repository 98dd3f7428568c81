// Sets of unstructured points: their stride, their refusals before a run, the distance of two points.
#![tactic(auto)]

ghost use Rattle.std.specs.Prelude.{◌≡◌};
ghost use Rattle.std.specs.Result.{IfOk};
ghost use Rattle.definitions.specs.Points.{stride_or, squared_diff_norm};
ghost use Rattle.definitions.specs.Rules.{refusal, over_points, point_rules, over_sets, set_rules, run_rules};
ghost use Rattle.refusals.specs.Numbers.{number_of};
ghost use Rattle.parallel_serial.specs.Drive.{run_of};
ghost use Rattle.parallel_serial.specs.Setups.{SetupOf};
ghost use Rattle.unstructured_points.specs.Readings.{points_of, the_point};
ghost use Rattle.unstructured_points.specs.Sets.{sets_of};

use parallel_serial::{RunSpec, Sets, Setup};
use reducer::Datum;
use refusals::Refusal;

// The stride of positions and values may be left out: it is then the number of points.
#[derive(Clone, Copy)]
pub struct PointSet<'a> {
    pub positions: &'a [f64],
    pub values: &'a [f64],
    pub weights: &'a [f64],
    pub n_points: usize,
    pub stride: Option<usize>,
}

#[derive(Clone, Copy)]
pub struct Point {
    pub c0: f64,
    pub c1: f64,
    pub c2: f64,
    pub rd: Datum,
}

// ---- refusals

impl PointSet<'_> {
    pub fn stride_of(self) -> usize
        ensures { result ≡ stride_or self.entry.n_points self.entry.stride }
    {
        self.stride.unwrap_or(self.n_points)
    }

    fn points_over(self) -> bool
        ensures { result ≡ over_points (points_of self.entry) }
    {
        if self.n_points > 4096 {
            return true;
        }
        self.stride_of() > 8192
    }

    fn points_refusal(self) -> Result<(), Refusal>
        ensures { number_of result ≡ refusal (point_rules (points_of self.entry)) }
    {
        let stride = self.stride_of();
        if self.n_points == 0 {
            return Err(Refusal::NoPoints);
        }
        if self.n_points > stride {
            return Err(Refusal::StrideBelowPoints);
        }
        if self.values.len() != self.positions.len() {
            return Err(Refusal::ValuesLength);
        }
        if self.positions.len() % stride != 0 {
            return Err(Refusal::PositionsLength);
        }
        if self.positions.len() / stride != 3 {
            return Err(Refusal::NotThreeComponents);
        }
        if self.weights.len() != self.n_points {
            return Err(Refusal::WeightsLength);
        }
        Ok(())
    }
}

// ---- of a run's sets, a before b
// Matches of two arms, as in spatial: a method of Sets that takes a closure, for each of the two, is longer than what it replaces.

fn sets_over(sets: Sets<PointSet>) -> bool
    ensures { result ≡ over_sets (sets_of sets.entry) }
{
    match sets {
        Sets::Auto(a) => a.points_over(),
        Sets::Cross(a, b) => a.points_over() || b.points_over(),
    }
}

fn sets_refusal(sets: Sets<PointSet>) -> Result<(), Refusal>
    ensures { number_of result ≡ refusal (set_rules (sets_of sets.entry)) }
{
    match sets {
        Sets::Auto(a) => a.points_refusal(),
        Sets::Cross(a, b) => {
            a.points_refusal()?;
            b.points_refusal()
        }
    }
}

// The first broken rule of a run, or what is built of its edges and kind.
#[tactic(auto, using(parallel_serial::proofs::Refusals::run_limit, parallel_serial::proofs::Refusals::run_within, crate::proofs::Rules::no_pairs))]
pub fn run_setup<'a>(
    sets: Sets<PointSet>,
    spec: RunSpec<'a>,
    len: usize,
) -> Result<Setup<'a>, Refusal>
    ensures number { number_of result ≡ refusal (run_rules (run_of (sets_of sets.entry) spec.entry) len) }
    ensures built { IfOk result (λ s. SetupOf spec.entry s) }
{
    if sets_over(sets) {
        return Err(Refusal::OverLimit);
    }
    let own = sets_refusal(sets);
    run_refusals::run_setup(own, Ok(()), spec, len)
}

// ---- two points

pub fn squared_diff_norm(a: Point, b: Point) -> f64
    ensures { result ≡ squared_diff_norm (the_point a) (the_point b) }
{
    let d0 = b.c0 - a.c0;
    let d1 = b.c1 - a.c1;
    let d2 = b.c2 - a.c2;
    d0 * d0 + (d1 * d1 + d2 * d2)
}
