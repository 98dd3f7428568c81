// Record files: the curve of points and edges as bytes, and its text.
#![tactic(auto)]

ghost use Rattle.std.specs.Prelude.{◌≡◌, false, ◌-◌, ◌*◌, ◌/◌, ◌≤◌, length, replicate};
ghost use Rattle.definitions.specs.Floats.{zero_f};
ghost use Rattle.definitions.specs.Rules.{refusal};
ghost use Rattle.definitions.specs.Records.{curve_numbers, curve_bins, curve_pack, entry_rules, entry_output, curve_text, program_text};
ghost use Rattle.refusals.specs.Numbers.{number_of};
ghost use Rattle.records.specs.Answers.{listed_curve, record_curve, file_read};
ghost use Rattle.record_bytes.specs.Stores.{stored};
ghost use Rattle.curve_text.specs.Text.{text_bytes, fitted};

use curve_text::TEXT_BYTES;
use parallel_serial::{RunSpec, Shape};
use record_bytes::{BIN_BYTES, CURVE_NUMBERS, EDGE_BYTES, POINT_BYTES};
use reducer::{Bins, Edges, Kind, PairOperation};
use refusals::Refusal;
use state_refusals::PackShape;
use unstructured_points::PointSet;

// The numbers of 256 bins.
const PACK_NUMBERS: usize = 256 * CURVE_NUMBERS;

// ---- the curve

// How many bins the edges bound.
fn n_bins(edges: &[u8]) -> usize
    ensures { (result ≡ curve_bins edges.now) × (result ≡ length edges.now / 8 - 1) }
{
    (edges.len() / EDGE_BYTES).saturating_sub(1)
}

// Auto, multiplied, irregular edges, `ComponentSum` mean, over n points listed by columns.
fn run(positions: &[f64], values: &[f64], weights: &[f64], n: usize, list: &[f64], pack: &mut [f64])
    ensures { pack.new ≡ listed_curve n positions.now values.now weights.now list.now pack.old }
{
    let set = PointSet {
        positions,
        values,
        weights,
        n_points: n,
        stride: Some(n),
    };
    let edges = Edges::Irregular(list);
    let spec = RunSpec {
        edges,
        kind: Kind::ComponentSumMean,
        op: PairOperation::ElementwiseMultiply,
        shape: Shape {
            pack: PackShape {
                n_states: edges.n_bins(),
                state_size: CURVE_NUMBERS,
            },
            members: 1,
            teams: 1,
        },
    };
    // A refused run leaves the pack.
    let _ = unstructured::points_auto(set, spec, pack);
}

// The same over points as records.
fn run_records(points: &[u8], list: &[f64], pack: &mut [f64])
    requires { length points.now ≤ 57344 }
    ensures { pack.new ≡ record_curve points.now list.now pack.old }
{
    let n = points.len() / POINT_BYTES;
    let mut positions = floats::zeros::<3072>();
    let mut values = floats::zeros::<3072>();
    let mut weights = floats::zeros::<1024>();
    record_bytes::decode_points(points, &mut positions, &mut values, &mut weights);
    run(
        &positions[..3 * n],
        &values[..3 * n],
        &weights[..n],
        n,
        list,
        pack,
    );
}

// The curve's pack, from zeros. Its two callers make the room: a function that made it would hand on an array of which the front alone is meant.
fn fill_pack(points: &[u8], edges: &[u8], pack: &mut [f64])
    requires { (length points.now ≤ 57344) × (length edges.now ≤ 2056) × (pack.old ≡ replicate (curve_bins edges.now * curve_numbers) (zero_f false)) }
    ensures { pack.new ≡ curve_pack points.now edges.now }
{
    let m = edges.len() / EDGE_BYTES;
    let mut list = record_refusals::edge_numbers();
    record_bytes::decode_edges(edges, &mut list);
    run_records(points, &list[..m], pack);
}

// ---- the entry

// The curve's records in place of the output's bytes.
pub fn pairstat_curve(points: &[u8], edges: &[u8], output: &mut [u8]) -> Result<(), Refusal>
    ensures value { number_of result ≡ refusal (entry_rules points.now edges.now (length output.old)) }
    ensures output_after { output.new ≡ entry_output points.now edges.now output.old }
{
    record_refusals::curve_refusal(points, edges)?;
    let n = n_bins(edges);
    if output.len() != n * BIN_BYTES {
        return Err(Refusal::PackShape);
    }
    let mut room = floats::zeros::<PACK_NUMBERS>();
    let pack = &mut room[..n * CURVE_NUMBERS];
    fill_pack(points, edges, pack);
    record_bytes::encode_curve(pack, n, output);
    Ok(())
}

// ---- the text

// The text of the two files at the front of out; answers its length.
fn write_text(points: &[u8], edges: &[u8], out: &mut [u8]) -> usize
    requires { text_bytes ≤ length out.old }
    ensures value { (result ≡ length (curve_text points.now edges.now)) × (result ≤ text_bytes) }
    ensures out_after { out.new ≡ stored 0 (curve_text points.now edges.now) out.old }
{
    match record_refusals::curve_refusal(points, edges) {
        Err(refusal) => curve_text::refused_line(out, u32::from(refusal) as usize),
        Ok(()) => {
            let n = n_bins(edges);
            let mut room = floats::zeros::<PACK_NUMBERS>();
            let pack = &mut room[..n * CURVE_NUMBERS];
            fill_pack(points, edges, pack);
            curve_text::curve_lines(out, pack, n)
        }
    }
}

// The text of the files that could be read, at the front of out; answers its length.
fn write_program(points: Option<&[u8]>, edges: Option<&[u8]>, out: &mut [u8]) -> usize
    requires { text_bytes ≤ length out.old }
    ensures value { (result ≡ length (program_text (file_read points.entry) (file_read edges.entry))) × (result ≤ text_bytes) }
    ensures out_after { out.new ≡ stored 0 (program_text (file_read points.entry) (file_read edges.entry)) out.old }
{
    match (points, edges) {
        (Some(points), Some(edges)) => write_text(points, edges, out),
        _ => curve_text::refused_line(out, u32::from(Refusal::FileUnreadable) as usize),
    }
}

// What the program prints of the files that could be read, written to out if it has room for it; answers the text's length.
pub fn program_text(points: Option<&[u8]>, edges: Option<&[u8]>, out: &mut [u8]) -> usize
    ensures value { (result ≡ length (program_text (file_read points.entry) (file_read edges.entry))) × (result ≤ text_bytes) }
    ensures out_after { out.new ≡ fitted (program_text (file_read points.entry) (file_read edges.entry)) out.old }
{
    let mut text = [0u8; TEXT_BYTES];
    let n = write_program(points, edges, &mut text);
    curve_text::put_fitting(&text[..n], out);
    n
}

// The same of two files that could be read.
pub fn curve_text(points: &[u8], edges: &[u8], out: &mut [u8]) -> usize
    ensures value { (result ≡ length (curve_text points.now edges.now)) × (result ≤ text_bytes) }
    ensures out_after { out.new ≡ fitted (curve_text points.now edges.now) out.old }
{
    program_text(Some(points), Some(edges), out)
}
