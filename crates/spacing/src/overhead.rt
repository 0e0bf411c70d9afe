// The span that an overhead asks for: f64 products and a quotient, cut to a whole number.
ghost use Rattle.std.specs.Prelude.{◌≡◌, ◌≤◌};
ghost use Rattle.std.specs.Float.Ieee.{to_unsigned};
ghost use Rattle.std.specs.Float.Ieee.Positive.{positive};
ghost use Rattle.spacing.specs.Spacing.{max_log2_words as largest_log2_words, overhead_span};

use rank_sel::pow2;

// Finite, and above 0.
pub fn is_positive(x: f64) -> bool
    ensures { result ≡ positive x }
{
    x > 0.0 && x.is_finite()
}

// The bits of an f64: the sign, 11 bits of exponent, and 52 digits below a leading one that is not stored.
const SIGN: u64 = 0x8000_0000_0000_0000;

// 2^52: the exponent starts where the leading one would stand.
const LEADING_ONE: u64 = 0x10_0000_0000_0000;

// Rust's `x as u64`, worked out from the bits, as document 01 names it: toward zero, to the nearest end of the range, and 0 of a
// NaN.
fn saturating_f64_to_u64(x: f64) -> u64
    ensures { result ≡ to_unsigned 64 x }
{
    // No bits are defined of a NaN.
    if x.is_nan() {
        return 0;
    }
    let bits = f64::to_bits(x);
    if bits >= SIGN {
        return 0;
    }
    let exponent = bits / LEADING_ONE;
    // Below 1.
    if exponent < 1023 {
        return 0;
    }
    // 2^64 and above, the infinity too.
    if exponent > 1086 {
        return u64::MAX;
    }
    // x is digits * 2^(exponent - 1075). With 11 zeros behind them the digits fill a u64, and every shift goes down.
    ((LEADING_ONE + bits % LEADING_ONE) << 11) >> (1086 - exponent)
}

pub fn target_span_from_overhead(percentage: f64, max_log2_words: u32) -> u64
    requires { max_log2_words ≤ largest_log2_words }
    ensures { result ≡ overhead_span percentage max_log2_words }
{
    let m = pow2(max_log2_words);
    let target = (1 + m) as f64 * 64.0 * 100.0 / percentage;
    saturating_f64_to_u64(target).max(256 * m)
}
