// What Rust's f64 has beyond IEEE 754's operations, for every f64.
#![tactic(auto)]

ghost use Rattle.std.specs.Prelude.{◌≡◌, false, replicate};
ghost use Rattle.definitions.specs.Floats.{as_usize, zero_f};
ghost use Rattle.floats.specs.Order.{order_key};

// x as usize, in the definitions' words: toward zero, 0 for a NaN or a negative number, the largest usize above the range.
pub fn as_usize(x: f64) -> usize
    ensures { result ≡ as_usize x }
{
    std::num::saturating_f64_to_usize(x)
}

// Two keys compare as f64::total_cmp compares the numbers, which asks that neither is a NaN. A NaN's key is that of the NaN 7ff8000000000000.
pub fn total_key(x: f64) -> u64
    ensures { result ≡ order_key x }
{
    if x.is_nan() {
        return 0xfff8_0000_0000_0000;
    }
    let b = f64::to_bits(x);
    if b < 0x8000_0000_0000_0000 {
        return b + 0x8000_0000_0000_0000;
    }
    0xffff_ffff_ffff_ffff - b
}

// N zeros: the expression with a name, so that a clause says in the definitions' words what it holds.
pub fn zeros<const N: usize>() -> [f64; N]
    ensures { result ≡ replicate N (zero_f false) }
{
    [0.0; N]
}
