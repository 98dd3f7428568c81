// Record files as bytes: little-endian numbers, points and edges out of records, and a curve into them.
#![tactic(auto)]

ghost use Rattle.std.specs.Prelude.{◌≡◌, ◌+◌, ◌*◌, ◌^◌, ◌<◌, ◌≤◌, length};
ghost use Rattle.definitions.specs.Records.{float_at, curve_numbers, bin_bytes};
ghost use Rattle.record_bytes.specs.Stores.{stored};
ghost use Rattle.record_bytes.specs.Columns.{numbers, three_numbers, number_bytes, bin_record, curve_records};
ghost use Rattle.record_bytes.specs.Columns.{edges_read, three_read, weights_read, records_fitting};

pub const POINT_BYTES: usize = 56;

pub const EDGE_BYTES: usize = 8;

// A bin's numbers in a curve: total and weight.
pub const CURVE_NUMBERS: usize = 2;

pub const BIN_BYTES: usize = CURVE_NUMBERS * 8;

pub const MAX_POINTS: usize = 1024;

pub const MAX_EDGES: usize = 257;

// ---- numbers

// The number that stands at place k.
fn float_at(b: &[u8], k: usize) -> f64
    requires { k + 8 ≤ length b.now }
    ensures { result ≡ float_at b.now k }
{
    let bytes = <[u8; 8]>::try_from(&b[k..k + 8]).unwrap();
    std::num::f64_from_bits_with_nan(u64::from_le_bytes(bytes))
}

// The number's eight bytes, the lowest first.
fn store_float(b: &mut [u8], x: f64)
    requires { length b.old ≡ 8 }
    ensures { b.new ≡ number_bytes x }
{
    b.copy_from_slice(&std::num::f64_to_bits_with_nan(x).to_le_bytes());
}

// ---- records

// The number at byte `first` of each record of `size` bytes, as many as out has room for.
fn decode(b: &[u8], size: usize, first: usize, out: &mut [f64])
    requires { (first + 8 ≤ size) × (length out.old * size < 2 ^ 63) × (length out.old * size ≤ length b.now) }
    ensures { out.new ≡ numbers size first (length out.old) b.now }
{
    // Not `zip` with `chunks_exact`: of numbers that another adapter of `iter_mut` lends, a proof knows nothing after the loop.
    for (i, x) in out.iter_mut().enumerate() {
        *x = float_at(b, i * size + first);
    }
}

// Three numbers of each of n point records, the first at byte `first`, one column after the other.
fn decode_three(b: &[u8], first: usize, n: usize, out: &mut [f64])
    requires { (first + 24 ≤ 56) × (n ≤ 1024) × (n * 56 ≤ length b.now) × (3 * n ≤ length out.old) }
    ensures { out.new ≡ stored 0 (three_numbers first n b.now) out.old }
{
    decode(b, POINT_BYTES, first, &mut out[..n]);
    decode(b, POINT_BYTES, first + 8, &mut out[n..2 * n]);
    decode(b, POINT_BYTES, first + 16, &mut out[2 * n..3 * n]);
}

// A bin's record.
fn encode_bin(b: &mut [u8], total: f64, weight: f64)
    requires { length b.old ≡ bin_bytes }
    ensures { b.new ≡ bin_record total weight }
{
    store_float(&mut b[..8], total);
    store_float(&mut b[8..], weight);
}

// The records of n bins, from b's front on.
fn encode(pack: &[f64], n: usize, b: &mut [u8])
    requires { (n * curve_numbers ≤ length pack.now) × (n * bin_bytes ≤ length b.old) }
    ensures { b.new ≡ stored 0 (curve_records n n pack.now) b.old }
{
    // Not `chunks_exact_mut`: of the bytes that it lends, a proof knows nothing after the loop.
    for s in 0..n {
        encode_bin(
            &mut b[s * BIN_BYTES..(s + 1) * BIN_BYTES],
            pack[s],
            pack[n + s],
        );
    }
}

// ---- files

// The two below take arrays, since a slice would have to be asked for its length, and promise that too, since an array comes back without one.
// The edges of a file at the front of out, unless they are too many.
pub fn decode_edges(b: &[u8], out: &mut [f64; 257])
    ensures { (out.new ≡ stored 0 (edges_read b.now) out.old) × (length out.new ≡ length out.old) }
{
    if b.len() <= MAX_EDGES * EDGE_BYTES {
        let n = b.len() / EDGE_BYTES;
        decode(b, EDGE_BYTES, 0, &mut out[..n]);
    }
}

// The points of a file by columns, unless they are too many.
pub fn decode_points(
    b: &[u8],
    positions: &mut [f64; 3072],
    values: &mut [f64; 3072],
    weights: &mut [f64; 1024],
)
    ensures positions_after { (positions.new ≡ stored 0 (three_read 0 b.now) positions.old) × (length positions.new ≡ length positions.old) }
    ensures values_after { (values.new ≡ stored 0 (three_read 24 b.now) values.old) × (length values.new ≡ length values.old) }
    ensures weights_after { (weights.new ≡ stored 0 (weights_read b.now) weights.old) × (length weights.new ≡ length weights.old) }
{
    if b.len() <= MAX_POINTS * POINT_BYTES {
        let n = b.len() / POINT_BYTES;
        decode_three(b, 0, n, positions);
        decode_three(b, 24, n, values);
        decode(b, POINT_BYTES, 48, &mut weights[..n]);
    }
}

// The records of a curve of n bins, unless the pack is too short for them or b has no room.
pub fn encode_curve(pack: &[f64], n: usize, b: &mut [u8])
    ensures { b.new ≡ stored 0 (records_fitting n pack.now (length b.old)) b.old }
{
    if n > pack.len() / CURVE_NUMBERS {
        return;
    }
    if n > b.len() / BIN_BYTES {
        return;
    }
    encode(pack, n, b);
}
