// The text of a curve in ASCII, put into a slice. By hand: `write!` says what it writes to a String alone, and there is no heap here.
#![tactic(auto)]

ghost use Rattle.std.specs.Prelude.{◌≡◌, ◌*◌, ◌<◌, ◌≤◌, length};
ghost use Rattle.definitions.specs.Records.{hex_digit, curve_numbers};
ghost use Rattle.record_bytes.specs.Stores.{stored};
ghost use Rattle.curve_text.specs.Text.{decimal_text, decimal_then, hex_text, bits_then, line_text, lines_text, refused_text};
ghost use Rattle.curve_text.specs.Text.{line_bytes, lines_fitting, refused_fitting, fitted};

use record_bytes::CURVE_NUMBERS;

// The largest length of a line.
pub const LINE_BYTES: usize = 38;

// The largest length of a text: the lines of 256 bins.
pub const TEXT_BYTES: usize = 256 * LINE_BYTES;

// A number of at most three decimal digits.
#[derive(Clone, Copy)]
struct ThreeDigits {
    value: usize,
    ghost few: { value < 1000 },
}

fn digit(d: usize) -> u8
    requires { d < 16 }
    ensures { result ≡ hex_digit d }
{
    b"0123456789abcdef"[d]
}

// The number at the front; answers how many digits it takes.
fn put_decimal(out: &mut [u8], number: ThreeDigits) -> usize
    requires { 3 ≤ length out.old }
    ensures value { (result ≡ length (decimal_text number.value)) × (result ≤ 3) }
    ensures out_after { out.new ≡ stored 0 (decimal_text number.value) out.old }
{
    let n = number.value;
    if n < 10 {
        out[0] = digit(n);
        return 1;
    }
    if n < 100 {
        out[0] = digit(n / 10);
        out[1] = digit(n % 10);
        return 2;
    }
    out[0] = digit(n / 10 / 10);
    out[1] = digit(n / 10 % 10);
    out[2] = digit(n % 10);
    3
}

// The number and what follows it, at the front; answers their length.
fn put_number(out: &mut [u8], number: ThreeDigits, end: u8) -> usize
    requires { 4 ≤ length out.old }
    ensures value { (result ≡ length (decimal_then number.value end)) × (result ≤ 4) }
    ensures out_after { out.new ≡ stored 0 (decimal_then number.value end) out.old }
{
    let p = put_decimal(out, number);
    out[p] = end;
    p + 1
}

// 16 lowercase digits, written from the last one to the first.
fn put_hex(out: &mut [u8], n: u64)
    requires { 16 ≤ length out.old }
    ensures { out.new ≡ stored 0 (hex_text 16 n) out.old }
{
    let mut rest = n;
    // Not `iter_mut`: after a loop over it from the back, a proof knows nothing of the bytes.
    for i in (0..16).rev() {
        out[i] = digit((rest % 16) as usize);
        rest /= 16;
    }
}

// A float's bits and what follows them, at the front.
fn put_bits(out: &mut [u8], x: f64, end: u8)
    requires { 17 ≤ length out.old }
    ensures { out.new ≡ stored 0 (bits_then x end) out.old }
{
    put_hex(out, std::num::f64_to_bits_with_nan(x));
    out[16] = end;
}

// The line of a bin at the front; answers its length.
fn put_line(out: &mut [u8], bin: ThreeDigits, total: f64, weight: f64) -> usize
    requires { line_bytes ≤ length out.old }
    ensures value { (result ≡ length (line_text bin.value total weight)) × (result ≤ line_bytes) }
    ensures out_after { out.new ≡ stored 0 (line_text bin.value total weight) out.old }
{
    let p = put_number(out, bin, b' ');
    put_bits(&mut out[p..], total, b' ');
    put_bits(&mut out[p + 17..], weight, b'\n');
    p + 34
}

// The lines of n bins from the front on; answers their length. By an index: the bin's number is written, and the pack is read at two places.
fn put_lines(out: &mut [u8], pack: &[f64], bins: ThreeDigits) -> usize
    requires { (bins.value * curve_numbers ≤ length pack.now) × (bins.value * line_bytes ≤ length out.old) }
    ensures value { (result ≡ length (lines_text bins.value bins.value pack.now)) × (result ≤ bins.value * line_bytes) }
    ensures out_after { out.new ≡ stored 0 (lines_text bins.value bins.value pack.now) out.old }
{
    let n = bins.value;
    let mut k = 0;
    for s in 0..n {
        k += put_line(
            &mut out[k..],
            ThreeDigits { value: s },
            pack[s],
            pack[n + s],
        );
    }
    k
}

// `refused ` and the number at the front; answers the line's length.
fn put_refused(out: &mut [u8], number: ThreeDigits) -> usize
    requires { 12 ≤ length out.old }
    ensures value { (result ≡ length (refused_text number.value)) × (result ≤ 12) }
    ensures out_after { out.new ≡ stored 0 (refused_text number.value) out.old }
{
    out[..8].copy_from_slice(b"refused ");
    8 + put_number(&mut out[8..], number, b'\n')
}

// ---- what others call

// The lines of n bins from the front on, unless the bins' numbers have more than three digits, the pack is too short or out has no room; answers their length.
// 0 where nothing is written, which is what happened: nobody asks why.
pub fn curve_lines(out: &mut [u8], pack: &[f64], n: usize) -> usize
    ensures value { (result ≡ length (lines_fitting n pack.now (length out.old))) × (result ≤ n * line_bytes) }
    ensures out_after { out.new ≡ stored 0 (lines_fitting n pack.now (length out.old)) out.old }
{
    if n >= 1000 {
        return 0;
    }
    if pack.len() < n * CURVE_NUMBERS {
        return 0;
    }
    if out.len() < n * LINE_BYTES {
        return 0;
    }
    put_lines(out, pack, ThreeDigits { value: n })
}

// The line of a refusal at the front, unless its number has more than three digits or out has no room; answers its length, 0 where nothing is written.
// It takes any number: a `Refusal` would promise less.
#[tactic(auto, using(record_bytes::proofs::Stores::none_stored), unfolding(crate::specs::Text::refused_fitting))]
pub fn refused_line(out: &mut [u8], n: usize) -> usize
    ensures value { (result ≡ length (refused_fitting n (length out.old))) × (result ≤ 12) }
    ensures out_after { out.new ≡ stored 0 (refused_fitting n (length out.old)) out.old }
{
    if n >= 1000 {
        return 0;
    }
    if out.len() < 12 {
        return 0;
    }
    put_refused(out, ThreeDigits { value: n })
}

// The text at the front of out, if it fits.
#[tactic(auto, using(crate::proofs::Fitting::fits, crate::proofs::Fitting::too_short))]
pub fn put_fitting(text: &[u8], out: &mut [u8])
    ensures { out.new ≡ fitted text.now out.old }
{
    if text.len() <= out.len() {
        out[..text.len()].copy_from_slice(text);
    }
}
