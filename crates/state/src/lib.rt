// The state pack: reset, merge, consolidation and result. Number e of state s is at e times (number of states) plus s.
#![tactic(auto)]

ghost use Rattle.std.specs.Prelude.{◌≡◌, ◌+◌, ◌*◌, ◌<◌, ◌≤◌, length};
ghost use Rattle.std.specs.Float.{binary64};
ghost use Rattle.std.specs.Float.Ieee.{add};
ghost use Rattle.definitions.specs.Lists.{at, overwritten};
ghost use Rattle.definitions.specs.Reducer.{state_size as size_of_kind};
ghost use Rattle.definitions.specs.Run.{place};
ghost use Rattle.definitions.specs.State.{reset_pack, merge_packs, consolidate_packs, result_number, result_value};
ghost use Rattle.definitions.specs.Rules.{refusal, if_accepted, reset_rules, merge_rules, consolidate_rules, result_rules};
ghost use Rattle.refusals.specs.Numbers.{number_of};
ghost use Rattle.state.specs.Readings.{state_kind_of, InPack};

use refusals::Refusal;
use state_refusals::PackShape;

// A mean, or a histogram by its count of value bins.
pub type StateKind = state_refusals::StateKind;

// ---- numbers of a state

// Number e of state s: its view starts at the state's first number, and its stride is the number of states.
fn state_number(pack: &[f64], shape: PackShape, s: usize, e: usize) -> f64
    requires { InPack shape.n_states shape.state_size s e (length pack.now) }
    ensures { result ≡ at pack.now (place shape.n_states e s) }
{
    // The pack has the number, so the view finds one.
    state_view::read_number(&pack[s..], shape.state_size, shape.n_states, e).unwrap()
}

// ---- the operations

// Each number of other is added to the one at its place in pack, pack's first.
fn add_all(pack: &mut [f64], other: &[f64])
    requires { length pack.old ≤ length other.now }
    ensures { pack.new ≡ merge_packs (length pack.old) pack.old other.now }
{
    // `enumerate`, not `zip`: of numbers that another adapter of `iter_mut` lends, a proof knows nothing after the loop.
    for (i, x) in pack.iter_mut().enumerate() {
        *x += other[i];
    }
}

// Packs 1, 2, .. of n numbers each, end to end, are added in turn to pack 0.
fn add_packs(packs: &mut [f64], n_packs: usize, n: usize)
    requires { (0 < n_packs) × (0 < n) × (n_packs * n ≤ length packs.old) }
    ensures { packs.new ≡ consolidate_packs n_packs n packs.old }
{
    let (first, others) = packs.split_at_mut(n);
    for other in others.chunks_exact(n).take(n_packs - 1) {
        add_all(first, other);
    }
}

// Number e of the result of state s.
fn result_number(kind: StateKind, shape: PackShape, s: usize, pack: &[f64], e: usize) -> f64
    requires own_size { shape.state_size ≡ size_of_kind (state_kind_of kind) }
    requires in_pack { InPack shape.n_states shape.state_size s e (length pack.now) }
    ensures { result ≡ result_number (state_kind_of kind) shape.n_states s pack.now e }
{
    let number = state_number(pack, shape, s, e);
    match kind {
        StateKind::Mean => {
            if e == 0 {
                return number / state_number(pack, shape, s, 1);
            }
            number
        }
        StateKind::Histogram(_) => number,
    }
}

// The result of state s, into the first numbers of value.
fn write_result(kind: StateKind, shape: PackShape, s: usize, pack: &[f64], value: &mut [f64])
    requires own_size { shape.state_size ≡ size_of_kind (state_kind_of kind) }
    requires state { s < shape.n_states }
    requires pack_bound { (shape.n_states * shape.state_size ≤ length pack.now) × (shape.n_states * shape.state_size ≤ 4096) }
    requires value_room { shape.state_size ≤ length value.old }
    ensures { value.new ≡ result_value (state_kind_of kind) shape.n_states s pack.now value.old }
{
    for e in 0..shape.state_size {
        value[e] = result_number(kind, shape, s, pack, e);
    }
}

// Every number of the pack is 0.
pub fn reset_full_statepack(
    kind: StateKind,
    shape: PackShape,
    pack: &mut [f64],
) -> Result<(), Refusal>
    ensures number { number_of result ≡ refusal (reset_rules (state_kind_of kind) shape.n_states shape.state_size (length pack.old)) }
    ensures pack_after { pack.new ≡ if_accepted (reset_rules (state_kind_of kind) shape.n_states shape.state_size (length pack.old))
        (reset_pack (shape.n_states * shape.state_size) pack.old) pack.old }
{
    state_refusals::reset_refusal(kind, shape, pack.len())?;
    pack[..shape.n_states * shape.state_size].fill(0.0);
    Ok(())
}

// The second pack is added to the first.
pub fn merge_full_statepacks(
    kind: StateKind,
    shape: PackShape,
    other_shape: PackShape,
    pack: &mut [f64],
    other: &[f64],
) -> Result<(), Refusal>
    ensures number { number_of result ≡ refusal (merge_rules (state_kind_of kind) shape.n_states shape.state_size
        other_shape.n_states other_shape.state_size (length pack.old) (length other.now)) }
    ensures pack_after { pack.new ≡ if_accepted (merge_rules (state_kind_of kind) shape.n_states shape.state_size
        other_shape.n_states other_shape.state_size (length pack.old) (length other.now))
        (merge_packs (shape.n_states * shape.state_size) pack.old other.now) pack.old }
{
    state_refusals::merge_refusal(kind, shape, other_shape, pack.len(), other.len())?;
    add_all(&mut pack[..shape.n_states * shape.state_size], other);
    Ok(())
}

// Packs of one shape end to end: packs 1, 2, .. are added in turn to pack 0.
#[tactic(auto, using(crate::proofs::Packs::packs_few, crate::proofs::Refusals::packs_within, crate::proofs::Refusals::packs_some))]
pub fn serial_consolidate_scratch_statepacks(
    kind: StateKind,
    n_packs: usize,
    shape: PackShape,
    packs: &mut [f64],
) -> Result<(), Refusal>
    ensures number { number_of result ≡ refusal (consolidate_rules (state_kind_of kind) n_packs shape.n_states shape.state_size
        (length packs.old)) }
    ensures packs_after { packs.new ≡ if_accepted (consolidate_rules (state_kind_of kind) n_packs shape.n_states shape.state_size
        (length packs.old))
        (consolidate_packs n_packs (shape.n_states * shape.state_size) packs.old) packs.old }
{
    state_refusals::consolidate_refusal(kind, n_packs, shape, packs.len())?;
    if n_packs > 1 {
        add_packs(packs, n_packs, shape.n_states * shape.state_size);
    }
    Ok(())
}

// The result of state `index`, into the first numbers of value.
pub fn value_from_accum_state(
    kind: StateKind,
    shape: PackShape,
    index: usize,
    pack: &[f64],
    value: &mut [f64],
) -> Result<(), Refusal>
    ensures number { number_of result ≡ refusal (result_rules (state_kind_of kind) shape.n_states shape.state_size index
        (length pack.now) (length value.old)) }
    ensures value_after { value.new ≡ if_accepted (result_rules (state_kind_of kind) shape.n_states shape.state_size index
        (length pack.now) (length value.old))
        (result_value (state_kind_of kind) shape.n_states index pack.now value.old) value.old }
{
    state_refusals::result_refusal(kind, shape, index, pack.len(), value.len())?;
    write_result(kind, shape, index, pack, value);
    Ok(())
}
