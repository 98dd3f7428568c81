// The library's operations for C: numbers and slices alone, a slice as a pointer and a length. Nothing is asked of a caller but live slices.
// The lists of parameters, their numbers and their names are the C interface.
#![tactic(auto)]

ghost use Rattle.std.specs.Prelude.{◌≡◌, ◌*◌, length};
ghost use Rattle.definitions.specs.Bins.{regular, irregular, find};
ghost use Rattle.definitions.specs.Segments.{segment_start, segment_stop};
ghost use Rattle.definitions.specs.State.{reset_pack, merge_packs, consolidate_packs, result_value};
ghost use Rattle.definitions.specs.Run.{one_points, two_points, one_block, two_blocks};
ghost use Rattle.definitions.specs.Rules.{refusal, if_accepted, edges_call_rules, segment_rules, run_rules, step};
ghost use Rattle.definitions.specs.Rules.{reset_rules, merge_rules, consolidate_rules, result_rules};
ghost use Rattle.state_refusals.specs.Readings.{state_kind_of};
ghost use Rattle.capi_words.specs.Words.{edges_from, kind_from, op_from, stride_from, state_kind_from, written, words_number, lookup_words, segment_words};
ghost use Rattle.spatial.specs.Readings.{block_of};
ghost use Rattle.unstructured_points.specs.Readings.{points_of};
ghost use Rattle.capi.specs.Entries.{points_from, block_from, width_from, shape_from, run_from};

use parallel_serial::{RunSpec, Shape};
use spatial::{Block, CellWidth};
use state_refusals::PackShape;
use unstructured_points::PointSet;

// ---- what the numbers stand for

fn set_from<'a>(
    positions: &'a [f64],
    values: &'a [f64],
    weights: &'a [f64],
    n_points: usize,
    stated: u64,
    stride: usize,
) -> PointSet<'a>
    ensures { points_of result ≡ points_from n_points stated stride positions.entry.now values.entry.now weights.entry.now }
{
    PointSet {
        positions,
        values,
        weights,
        n_points,
        stride: capi_words::stride_from(stated, stride),
    }
}

// Takes one of C's lists, once instead of at each place that makes a block.
fn block_from<'a>(
    nz: usize,
    ny: usize,
    nx: usize,
    sz: usize,
    sy: usize,
    sx: usize,
    gz: i64,
    gy: i64,
    gx: i64,
    comp0: &'a [f64],
    comp1: &'a [f64],
    comp2: &'a [f64],
    weights: &'a [f64],
) -> Block<'a>
    ensures { block_of result ≡ block_from nz ny nx sz sy sx gz gy gx comp0.entry.now comp1.entry.now comp2.entry.now weights.entry.now }
{
    Block {
        comp0,
        comp1,
        comp2,
        weights,
        nz,
        ny,
        nx,
        sz,
        sy,
        sx,
        gz,
        gy,
        gx,
    }
}

fn shape_from(n_states: usize, state_size: usize, members: usize, teams: usize) -> Shape
    ensures { result ≡ shape_from n_states state_size members teams }
{
    Shape {
        pack: PackShape {
            n_states,
            state_size,
        },
        members,
        teams,
    }
}

// ---- lookups and segments: three words in front of out, and the number of the refusal; last 24, where out is too short for the words

#[unsafe(no_mangle)]
pub extern "C" fn pairstat_regular_bin_index(
    min: f64,
    max: f64,
    n_bins: usize,
    value: f64,
    out: &mut [u64],
) -> u32
    ensures { let rules = edges_call_rules (regular min max n_bins) in
        let words = lookup_words (refusal rules) (if_accepted rules (Some (find (regular min max n_bins) value)) None) in
        (result ≡ words_number (refusal rules) (length out.old)) × (out.new ≡ written words out.old) }
{
    capi_words::write_lookup(bin_lookups::regular_bin_index(min, max, n_bins, value), out)
}

#[unsafe(no_mangle)]
pub extern "C" fn pairstat_irregular_bin_index(edges: &[f64], value: f64, out: &mut [u64]) -> u32
    ensures { let rules = edges_call_rules (irregular edges.now) in
        let words = lookup_words (refusal rules) (if_accepted rules (Some (find (irregular edges.now) value)) None) in
        (result ≡ words_number (refusal rules) (length out.old)) × (out.new ≡ written words out.old) }
{
    capi_words::write_lookup(bin_lookups::irregular_bin_index(edges, value), out)
}

#[unsafe(no_mangle)]
pub extern "C" fn pairstat_segment_idx_bounds(
    n_indices: usize,
    seg_index: usize,
    n_segments: usize,
    out: &mut [u64],
) -> u32
    ensures { let rules = segment_rules seg_index n_segments in
        let words = segment_words (refusal rules)
        (if_accepted rules (Some (segment_start n_indices n_segments seg_index, segment_stop n_indices n_segments seg_index)) None) in
        (result ≡ words_number (refusal rules) (length out.old)) × (out.new ≡ written words out.old) }
{
    capi_words::write_segment(
        misc::segment_idx_bounds(n_indices, seg_index, n_segments),
        out,
    )
}

// ---- the pack operations: the number of the refusal, 0 for none

#[unsafe(no_mangle)]
pub extern "C" fn pairstat_reset_full_statepack(
    histogram: u64,
    n_bins: usize,
    n_states: usize,
    state_size: usize,
    pack: &mut [f64],
) -> u32
    ensures { let rules = reset_rules (state_kind_of (state_kind_from histogram n_bins)) n_states state_size (length pack.old) in
        (result ≡ refusal rules) × (pack.new ≡ if_accepted rules (reset_pack (n_states * state_size) pack.old) pack.old) }
{
    let kind = capi_words::state_kind_from(histogram, n_bins);
    let shape = PackShape {
        n_states,
        state_size,
    };
    refusals::number_of(state::reset_full_statepack(kind, shape, pack))
}

#[unsafe(no_mangle)]
pub extern "C" fn pairstat_merge_full_statepacks(
    histogram: u64,
    n_bins: usize,
    n_states: usize,
    state_size: usize,
    other_states: usize,
    other_size: usize,
    pack: &mut [f64],
    other: &[f64],
) -> u32
    ensures { let kind = state_kind_of (state_kind_from histogram n_bins) in
        let rules = merge_rules kind n_states state_size other_states other_size (length pack.old) (length other.now) in
        (result ≡ refusal rules) × (pack.new ≡ if_accepted rules (merge_packs (n_states * state_size) pack.old other.now) pack.old) }
{
    let kind = capi_words::state_kind_from(histogram, n_bins);
    let shape = PackShape {
        n_states,
        state_size,
    };
    let other_shape = PackShape {
        n_states: other_states,
        state_size: other_size,
    };
    refusals::number_of(state::merge_full_statepacks(kind, shape, other_shape, pack, other))
}

#[unsafe(no_mangle)]
pub extern "C" fn pairstat_serial_consolidate_scratch_statepacks(
    histogram: u64,
    n_bins: usize,
    n_packs: usize,
    n_states: usize,
    state_size: usize,
    packs: &mut [f64],
) -> u32
    ensures { let kind = state_kind_of (state_kind_from histogram n_bins) in
        let rules = consolidate_rules kind n_packs n_states state_size (length packs.old) in
        (result ≡ refusal rules) × (packs.new ≡ if_accepted rules (consolidate_packs n_packs (n_states * state_size) packs.old) packs.old) }
{
    let kind = capi_words::state_kind_from(histogram, n_bins);
    let shape = PackShape {
        n_states,
        state_size,
    };
    refusals::number_of(state::serial_consolidate_scratch_statepacks(kind, n_packs, shape, packs))
}

#[unsafe(no_mangle)]
pub extern "C" fn pairstat_value_from_accum_state(
    histogram: u64,
    n_bins: usize,
    n_states: usize,
    state_size: usize,
    index: usize,
    pack: &[f64],
    value: &mut [f64],
) -> u32
    ensures { let kind = state_kind_of (state_kind_from histogram n_bins) in
        let rules = result_rules kind n_states state_size index (length pack.now) (length value.old) in
        (result ≡ refusal rules) × (value.new ≡ if_accepted rules (result_value kind n_states index pack.now value.old) value.old) }
{
    let kind = capi_words::state_kind_from(histogram, n_bins);
    let shape = PackShape {
        n_states,
        state_size,
    };
    refusals::number_of(state::value_from_accum_state(kind, shape, index, pack, value))
}

// ---- the runs: the number of the refusal, 0 for none. Each takes edges, kind and operation out of its own list: a function for it would have the list again.

#[unsafe(no_mangle)]
pub extern "C" fn pairstat_points_auto(
    positions: &[f64],
    values: &[f64],
    weights: &[f64],
    n_points: usize,
    stated: u64,
    stride: usize,
    irregular: u64,
    min: f64,
    max: f64,
    n_bins: usize,
    list: &[f64],
    form: u64,
    value_irregular: u64,
    value_min: f64,
    value_max: f64,
    value_bins: usize,
    value_edges: &[f64],
    subtract: u64,
    n_states: usize,
    state_size: usize,
    members: usize,
    teams: usize,
    pack: &mut [f64],
) -> u32
    ensures { let run = run_from (one_points (points_from n_points stated stride positions.now values.now weights.now))
        irregular min max n_bins list.now
        form value_irregular value_min value_max value_bins value_edges.now subtract n_states state_size members teams in
        (result ≡ refusal (run_rules run (length pack.old))) × (pack.new ≡ step run pack.old) }
{
    let set = set_from(positions, values, weights, n_points, stated, stride);
    let value = capi_words::edges_from(
        value_irregular,
        value_min,
        value_max,
        value_bins,
        value_edges,
    );
    let spec = RunSpec {
        edges: capi_words::edges_from(irregular, min, max, n_bins, list),
        kind: capi_words::kind_from(form, value),
        op: capi_words::op_from(subtract),
        shape: shape_from(n_states, state_size, members, teams),
    };
    refusals::number_of(unstructured::points_auto(set, spec, pack))
}

#[unsafe(no_mangle)]
pub extern "C" fn pairstat_points_cross(
    a_positions: &[f64],
    a_values: &[f64],
    a_weights: &[f64],
    a_points: usize,
    a_stated: u64,
    a_stride: usize,
    b_positions: &[f64],
    b_values: &[f64],
    b_weights: &[f64],
    b_points: usize,
    b_stated: u64,
    b_stride: usize,
    irregular: u64,
    min: f64,
    max: f64,
    n_bins: usize,
    list: &[f64],
    form: u64,
    value_irregular: u64,
    value_min: f64,
    value_max: f64,
    value_bins: usize,
    value_edges: &[f64],
    subtract: u64,
    n_states: usize,
    state_size: usize,
    members: usize,
    teams: usize,
    pack: &mut [f64],
) -> u32
    ensures { let run = run_from (two_points (points_from a_points a_stated a_stride a_positions.now a_values.now a_weights.now)
        (points_from b_points b_stated b_stride b_positions.now b_values.now b_weights.now))
        irregular min max n_bins list.now
        form value_irregular value_min value_max value_bins value_edges.now subtract n_states state_size members teams in
        (result ≡ refusal (run_rules run (length pack.old))) × (pack.new ≡ step run pack.old) }
{
    let a = set_from(
        a_positions,
        a_values,
        a_weights,
        a_points,
        a_stated,
        a_stride,
    );
    let b = set_from(
        b_positions,
        b_values,
        b_weights,
        b_points,
        b_stated,
        b_stride,
    );
    let value = capi_words::edges_from(
        value_irregular,
        value_min,
        value_max,
        value_bins,
        value_edges,
    );
    let spec = RunSpec {
        edges: capi_words::edges_from(irregular, min, max, n_bins, list),
        kind: capi_words::kind_from(form, value),
        op: capi_words::op_from(subtract),
        shape: shape_from(n_states, state_size, members, teams),
    };
    refusals::number_of(unstructured::points_cross(a, b, spec, pack))
}

#[unsafe(no_mangle)]
pub extern "C" fn pairstat_blocks_auto(
    a0: &[f64],
    a1: &[f64],
    a2: &[f64],
    aw: &[f64],
    a_nz: usize,
    a_ny: usize,
    a_nx: usize,
    a_sz: usize,
    a_sy: usize,
    a_sx: usize,
    a_gz: i64,
    a_gy: i64,
    a_gx: i64,
    width_z: f64,
    width_y: f64,
    width_x: f64,
    irregular: u64,
    min: f64,
    max: f64,
    n_bins: usize,
    list: &[f64],
    form: u64,
    value_irregular: u64,
    value_min: f64,
    value_max: f64,
    value_bins: usize,
    value_edges: &[f64],
    subtract: u64,
    n_states: usize,
    state_size: usize,
    members: usize,
    teams: usize,
    pack: &mut [f64],
) -> u32
    ensures { let run = run_from (one_block (width_from width_z width_y width_x)
        (block_from a_nz a_ny a_nx a_sz a_sy a_sx a_gz a_gy a_gx a0.now a1.now a2.now aw.now))
        irregular min max n_bins list.now
        form value_irregular value_min value_max value_bins value_edges.now subtract n_states state_size members teams in
        (result ≡ refusal (run_rules run (length pack.old))) × (pack.new ≡ step run pack.old) }
{
    let a = block_from(
        a_nz, a_ny, a_nx, a_sz, a_sy, a_sx, a_gz, a_gy, a_gx, a0, a1, a2, aw,
    );
    let width = CellWidth {
        z: width_z,
        y: width_y,
        x: width_x,
    };
    let value = capi_words::edges_from(
        value_irregular,
        value_min,
        value_max,
        value_bins,
        value_edges,
    );
    let spec = RunSpec {
        edges: capi_words::edges_from(irregular, min, max, n_bins, list),
        kind: capi_words::kind_from(form, value),
        op: capi_words::op_from(subtract),
        shape: shape_from(n_states, state_size, members, teams),
    };
    refusals::number_of(twopoint_cartesian::blocks_auto(a, width, spec, pack))
}

#[unsafe(no_mangle)]
pub extern "C" fn pairstat_blocks_cross(
    a0: &[f64],
    a1: &[f64],
    a2: &[f64],
    aw: &[f64],
    a_nz: usize,
    a_ny: usize,
    a_nx: usize,
    a_sz: usize,
    a_sy: usize,
    a_sx: usize,
    a_gz: i64,
    a_gy: i64,
    a_gx: i64,
    b0: &[f64],
    b1: &[f64],
    b2: &[f64],
    bw: &[f64],
    b_nz: usize,
    b_ny: usize,
    b_nx: usize,
    b_sz: usize,
    b_sy: usize,
    b_sx: usize,
    b_gz: i64,
    b_gy: i64,
    b_gx: i64,
    width_z: f64,
    width_y: f64,
    width_x: f64,
    irregular: u64,
    min: f64,
    max: f64,
    n_bins: usize,
    list: &[f64],
    form: u64,
    value_irregular: u64,
    value_min: f64,
    value_max: f64,
    value_bins: usize,
    value_edges: &[f64],
    subtract: u64,
    n_states: usize,
    state_size: usize,
    members: usize,
    teams: usize,
    pack: &mut [f64],
) -> u32
    ensures { let run = run_from (two_blocks (width_from width_z width_y width_x)
        (block_from a_nz a_ny a_nx a_sz a_sy a_sx a_gz a_gy a_gx a0.now a1.now a2.now aw.now)
        (block_from b_nz b_ny b_nx b_sz b_sy b_sx b_gz b_gy b_gx b0.now b1.now b2.now bw.now))
        irregular min max n_bins list.now
        form value_irregular value_min value_max value_bins value_edges.now subtract n_states state_size members teams in
        (result ≡ refusal (run_rules run (length pack.old))) × (pack.new ≡ step run pack.old) }
{
    let a = block_from(
        a_nz, a_ny, a_nx, a_sz, a_sy, a_sx, a_gz, a_gy, a_gx, a0, a1, a2, aw,
    );
    let b = block_from(
        b_nz, b_ny, b_nx, b_sz, b_sy, b_sx, b_gz, b_gy, b_gx, b0, b1, b2, bw,
    );
    let width = CellWidth {
        z: width_z,
        y: width_y,
        x: width_x,
    };
    let value = capi_words::edges_from(
        value_irregular,
        value_min,
        value_max,
        value_bins,
        value_edges,
    );
    let spec = RunSpec {
        edges: capi_words::edges_from(irregular, min, max, n_bins, list),
        kind: capi_words::kind_from(form, value),
        op: capi_words::op_from(subtract),
        shape: shape_from(n_states, state_size, members, teams),
    };
    refusals::number_of(twopoint_cartesian::blocks_cross(a, b, width, spec, pack))
}
