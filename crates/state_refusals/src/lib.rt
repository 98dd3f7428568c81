// The refusals of the pack operations, by the kind, the stated numbers and the lengths of the slices.
#![tactic(auto)]

ghost use Rattle.std.specs.Prelude.{◌≡◌, [], ◌∷◌, ◌||◌, ◌*◌, ltb, IfOk};
ghost use Rattle.definitions.specs.Reducer.{state_size};
ghost use Rattle.definitions.specs.Rules.{rule, refusal, over_state, over_pack, no_bins, bad_shape, reset_rules, merge_rules, consolidate_rules, result_rules};
ghost use Rattle.refusals.specs.Numbers.{number_of};
ghost use Rattle.state_refusals.specs.Readings.{state_kind_of};

use refusals::Refusal;

// A mean's numbers: total and weight.
pub const MEAN_SIZE: usize = 2;

// A mean, or a histogram by its count of value bins.
#[derive(Clone, Copy)]
pub enum StateKind {
    Mean,
    Histogram(usize),
}

// A pack's shape as the caller states it. The kind stays beside it: a merge has two shapes and one kind.
#[derive(Clone, Copy, PartialEq, Eq)]
pub struct PackShape {
    pub n_states: usize,
    pub state_size: usize,
}

impl PackShape {
    // Whether a pack of the shape has more numbers than the limit.
    pub fn is_over(self, limit: usize) -> bool
        ensures { result ≡ ltb limit (self.n_states * self.state_size) }
    {
        product_over(self.n_states, self.state_size, limit)
    }
}

// How many numbers a state of the kind has.
pub fn accum_state_size(kind: StateKind) -> usize
    ensures { result ≡ state_size (state_kind_of kind) }
{
    match kind {
        StateKind::Mean => MEAN_SIZE,
        StateKind::Histogram(n) => n,
    }
}

// Whether a times b is over the limit. A product that is no usize is over every limit.
pub fn product_over(a: usize, b: usize, limit: usize) -> bool
    ensures { result ≡ ltb limit (a * b) }
{
    match a.checked_mul(b) {
        Some(product) => limit < product,
        None => true,
    }
}

// How many numbers a pack of the shape has, unless its shape is refused.
fn pack_len(kind: StateKind, shape: PackShape) -> Result<usize, Refusal>
    ensures number { number_of result ≡ refusal (rule 7 (over_state (state_kind_of kind) || over_pack shape.n_states shape.state_size)
        ∷ rule 8 (no_bins (state_kind_of kind))
        ∷ rule 24 (bad_shape (state_kind_of kind) shape.n_states shape.state_size) ∷ []) }
    ensures len { IfOk result (λ n. n ≡ shape.n_states * shape.state_size) }
{
    let own = accum_state_size(kind);
    if own > 256 || shape.is_over(4096) {
        return Err(Refusal::OverLimit);
    }
    if own == 0 {
        return Err(Refusal::NoBins);
    }
    if shape.n_states == 0 || shape.state_size != own {
        return Err(Refusal::PackShape);
    }
    Ok(shape.n_states * shape.state_size)
}

// In each operation what it finds with number 24 comes after its pack's shape: the last of the shape's rules has that number too.
pub fn reset_refusal(kind: StateKind, shape: PackShape, len: usize) -> Result<(), Refusal>
    ensures { number_of result ≡ refusal (reset_rules (state_kind_of kind) shape.n_states shape.state_size len) }
{
    let n = pack_len(kind, shape)?;
    if len < n {
        return Err(Refusal::PackShape);
    }
    Ok(())
}

// The second pack's limit comes first: it has number 7 as the others have.
pub fn merge_refusal(
    kind: StateKind,
    shape: PackShape,
    other: PackShape,
    len: usize,
    other_len: usize,
) -> Result<(), Refusal>
    ensures { number_of result ≡ refusal (merge_rules (state_kind_of kind) shape.n_states shape.state_size
        other.n_states other.state_size len other_len) }
{
    if other.is_over(4096) {
        return Err(Refusal::OverLimit);
    }
    let n = pack_len(kind, shape)?;
    if len < n || other != shape || other_len < n {
        return Err(Refusal::PackShape);
    }
    Ok(())
}

pub fn consolidate_refusal(
    kind: StateKind,
    n_packs: usize,
    shape: PackShape,
    len: usize,
) -> Result<(), Refusal>
    ensures { number_of result ≡ refusal (consolidate_rules (state_kind_of kind) n_packs shape.n_states shape.state_size len) }
{
    let n = pack_len(kind, shape)?;
    if product_over(n_packs, n, len) {
        return Err(Refusal::PackShape);
    }
    Ok(())
}

pub fn result_refusal(
    kind: StateKind,
    shape: PackShape,
    index: usize,
    len: usize,
    value_len: usize,
) -> Result<(), Refusal>
    ensures { number_of result ≡ refusal (result_rules (state_kind_of kind) shape.n_states shape.state_size index len value_len) }
{
    let n = pack_len(kind, shape)?;
    if len < n || value_len < shape.state_size {
        return Err(Refusal::PackShape);
    }
    if index >= shape.n_states {
        return Err(Refusal::StateIndex);
    }
    Ok(())
}
