// A Cartesian block, the widths of its cells, and the refusals of a run over blocks (spatial.rs).
#![tactic(auto)]

ghost use Rattle.std.specs.Prelude.{◌≡◌, false};
ghost use Rattle.std.specs.Option.{is_none, IfSome};
ghost use Rattle.std.specs.Result.{IfOk};
ghost use Rattle.definitions.specs.Blocks.{required_length};
ghost use Rattle.definitions.specs.Rules.{refusal, zero_axis as zero_axis_of, outside as outside_of, over_block, block_rules, width_rules, precedes as precedes_of, over_sets, set_rules, pair_rules, run_rules};
ghost use Rattle.refusals.specs.Numbers.{number_of};
ghost use Rattle.parallel_serial.specs.Drive.{run_of};
ghost use Rattle.parallel_serial.specs.Setups.{SetupOf};
ghost use Rattle.spatial.specs.Readings.{block_of, width_of, sets_of};
ghost use Rattle.spatial.specs.Refusals.{no_width, numbers_over, length_over, globals_over};
ghost use Rattle.spatial.specs.Bounded.{blocks_in};

mod bounded;

use bounded::Bounded;
use parallel_serial::{RunSpec, Sets, Setup};
use refusals::Refusal;

// The components and weights of its cells; axes, strides and global offsets in the order z, y, x.
#[derive(Clone, Copy)]
pub struct Block<'a> {
    pub comp0: &'a [f64],
    pub comp1: &'a [f64],
    pub comp2: &'a [f64],
    pub weights: &'a [f64],
    pub nz: usize,
    pub ny: usize,
    pub nx: usize,
    pub sz: usize,
    pub sy: usize,
    pub sx: usize,
    pub gz: i64,
    pub gy: i64,
    pub gx: i64,
}

#[derive(Clone, Copy)]
pub struct CellWidth {
    pub z: f64,
    pub y: f64,
    pub x: f64,
}

fn outside(g: i64) -> bool
    ensures { result ≡ outside_of g }
{
    g.unsigned_abs() > 1_000_000
}

impl<'a> Block<'a> {
    #[tactic(auto, unfolding(crate::specs::Refusals::numbers_over))]
    fn numbers_over(self) -> bool
        ensures { result ≡ numbers_over (block_of self.entry) }
    {
        self.nz > 64
            || self.ny > 64
            || self.nx > 64
            || self.sz > 65536
            || self.sy > 65536
            || self.sx > 65536
    }

    #[tactic(auto, unfolding(crate::specs::Refusals::globals_over))]
    fn globals_over(self) -> bool
        ensures { result ≡ globals_over (block_of self.entry) }
    {
        outside(self.gz) || outside(self.gy) || outside(self.gx)
    }

    fn zero_axis(self) -> bool
        ensures { result ≡ zero_axis_of (block_of self.entry) }
    {
        self.nz == 0 || self.ny == 0 || self.nx == 0
    }

    // This block's global offset before the other's in z, y, x order.
    fn precedes(self, other: Block) -> bool
        ensures { result ≡ precedes_of (block_of self.entry) (block_of other.entry) }
    {
        (self.gz, self.gy, self.gx) < (other.gz, other.gy, other.gx)
    }

    // The block where no limit refuses it.
    #[tactic(auto, using(crate::proofs::Refusals::limited, crate::proofs::Refusals::over_numbers_law, crate::proofs::Refusals::over_length, crate::proofs::Refusals::over_globals))]
    fn bounded(self) -> Option<Bounded<'a>>
        ensures over { is_none result ≡ over_block (block_of self.entry) }
        ensures same { IfSome result (λ b. b.block ≡ self.entry) }
    {
        if self.numbers_over() {
            return None;
        }
        let bounded = Bounded { block: self };
        if bounded.length_over() || self.globals_over() {
            return None;
        }
        Some(bounded)
    }
}

impl Bounded<'_> {
    // The last cell's place and one more.
    fn required_length(self) -> usize
        requires { zero_axis_of (block_of self.block) ≡ false }
        ensures { result ≡ required_length (block_of self.entry.block) }
    {
        let b = self.block;
        (b.nz - 1) * b.sz + (b.ny - 1) * b.sy + b.nx
    }

    // The length is judged only when no axis is zero.
    #[tactic(auto, using(crate::proofs::Refusals::length_zero, crate::proofs::Refusals::length_most))]
    fn length_over(self) -> bool
        ensures { result ≡ length_over (block_of self.entry.block) }
    {
        !self.block.zero_axis() && self.required_length() > 65536
    }

    // 14 to 19.
    fn refusal(self) -> Result<(), Refusal>
        ensures { number_of result ≡ refusal (block_rules (block_of self.entry.block)) }
    {
        let b = self.block;
        if b.zero_axis() {
            return Err(Refusal::EmptyAxis);
        }
        if b.sx != 1 {
            return Err(Refusal::XStride);
        }
        if b.sz < b.sy * b.ny {
            return Err(Refusal::ZStride);
        }
        if b.sy < b.sx * b.nx {
            return Err(Refusal::YStride);
        }
        let n = b.weights.len();
        if n < self.required_length() {
            return Err(Refusal::BlockLength);
        }
        if b.comp0.len() != n || b.comp1.len() != n || b.comp2.len() != n {
            return Err(Refusal::ComponentsLength);
        }
        Ok(())
    }
}

impl CellWidth {
    // 20. NaN passes.
    fn refusal(self) -> Result<(), Refusal>
        ensures { number_of result ≡ refusal (width_rules (width_of self)) }
    {
        if self.z <= 0.0 || self.y <= 0.0 || self.x <= 0.0 {
            return Err(Refusal::WidthNotPositive);
        }
        Ok(())
    }
}

// ---- of a run's blocks; matches of two arms, as in unstructured_points, which says why

fn bounded_sets<'a>(sets: Sets<Block<'a>>) -> Option<Sets<Bounded<'a>>>
    ensures over { is_none result ≡ over_sets (sets_of sets.entry no_width) }
    ensures same { IfSome result (λ r. blocks_in r ≡ sets.entry) }
{
    match sets {
        Sets::Auto(a) => {
            let a = a.bounded()?;
            Some(Sets::Auto(a))
        }
        Sets::Cross(a, b) => {
            let a = a.bounded()?;
            let b = b.bounded()?;
            Some(Sets::Cross(a, b))
        }
    }
}

// 21, or in auto 22.
fn pairs_refusal(sets: Sets<Bounded>) -> Result<(), Refusal>
    ensures { number_of result ≡ refusal (pair_rules (sets_of (blocks_in sets.entry) no_width)) }
{
    match sets {
        Sets::Auto(a) => {
            let a = a.block;
            if a.nz * (a.ny * a.nx) < 2 {
                return Err(Refusal::NoPairs);
            }
            Ok(())
        }
        Sets::Cross(a, b) => {
            if b.block.precedes(a.block) {
                return Err(Refusal::BlockOrder);
            }
            Ok(())
        }
    }
}

// The blocks, a before b, then the widths.
fn sets_refusal(sets: Sets<Bounded>, width: CellWidth) -> Result<(), Refusal>
    ensures { number_of result ≡ refusal (set_rules (sets_of (blocks_in sets.entry) (width_of width))) }
{
    match sets {
        Sets::Auto(block) => {
            block.refusal()?;
            width.refusal()
        }
        Sets::Cross(a, b) => {
            a.refusal()?;
            b.refusal()?;
            width.refusal()
        }
    }
}

// The first broken rule of a run, or what is built of its edges and kind.
#[tactic(auto, using(crate::proofs::Runs::number_7, crate::proofs::Runs::number_is))]
pub fn run_setup<'a>(
    sets: Sets<Block>,
    width: CellWidth,
    spec: RunSpec<'a>,
    len: usize,
) -> Result<Setup<'a>, Refusal>
    ensures number { number_of result ≡ refusal (run_rules (run_of (sets_of sets.entry (width_of width)) spec.entry) len) }
    ensures built { IfOk result (λ s. SetupOf spec.entry s) }
{
    match bounded_sets(sets) {
        Some(sets) => {
            let own = sets_refusal(sets, width);
            let pairs = pairs_refusal(sets);
            run_refusals::run_setup(own, pairs, spec, len)
        }
        None => Err(Refusal::OverLimit),
    }
}
