// What a curve of record files is refused for: 7; 27; the points' rules; the edges' rules.
#![tactic(auto)]

ghost use Rattle.std.specs.Prelude.{◌≡◌, ◌≤◌, length};
ghost use Rattle.definitions.specs.Rules.{refusal, irregular_rules};
ghost use Rattle.definitions.specs.Records.{record_edges};
ghost use Rattle.refusals.specs.Numbers.{number_of};
ghost use Rattle.record_refusals.specs.Answers.{curve_number, zero_edges};

use record_bytes::{EDGE_BYTES, MAX_EDGES, MAX_POINTS, POINT_BYTES};
use reducer::BinEdges;
use refusals::Refusal;

// Room for the edges of a file: zeros that also promise their length, which the parts cut from it ask for.
#[tactic(auto, unfolding(crate::specs::Answers::zero_edges))]
pub fn edge_numbers() -> [f64; 257]
    ensures { (result ≡ zero_edges) × (257 ≡ length result) }
{
    floats::zeros()
}

// The edges' own rules.
fn edges_refusal(edges: &[u8]) -> Result<(), Refusal>
    requires { length edges.now ≤ 2056 }
    ensures { number_of result ≡ refusal (irregular_rules (record_edges edges.now)) }
{
    let n = edges.len() / EDGE_BYTES;
    let mut list = edge_numbers();
    record_bytes::decode_edges(edges, &mut list);
    run_refusals::accepted_edges(BinEdges::Irregular(&list[..n]))?;
    Ok(())
}

// 7; 27, points first; points; edges.
#[tactic(auto, using(crate::proofs::Rules::then_edges), unfolding(crate::specs::Answers::curve_number))]
pub fn curve_refusal(points: &[u8], edges: &[u8]) -> Result<(), Refusal>
    ensures { number_of result ≡ curve_number points.now edges.now }
{
    if points.len() > MAX_POINTS * POINT_BYTES {
        return Err(Refusal::OverLimit);
    }
    if edges.len() > MAX_EDGES * EDGE_BYTES {
        return Err(Refusal::OverLimit);
    }
    if points.len() % POINT_BYTES != 0 {
        return Err(Refusal::RecordLength);
    }
    if edges.len() % EDGE_BYTES != 0 {
        return Err(Refusal::RecordLength);
    }
    if points.is_empty() {
        return Err(Refusal::NoPoints);
    }
    edges_refusal(edges)
}
