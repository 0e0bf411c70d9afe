// L of a span. The product of two u64 is a u128, so it is exact.
ghost use Rattle.std.specs.Prelude.{◌≡◌, ◌≤◌};
ghost use Rattle.spacing.specs.Spacing.{span_log2};

// The largest l with num * span above (2^l - 1) * max(1, len), or 0: a ceiling is at least 2^l exactly where what
// it rounds is above 2^l - 1.
pub fn span_log2(num: u64, span: u64, len: u64) -> u32
    requires { num ≤ len }
    ensures { result ≡ span_log2 num span len }
{
    let num_bits = len.max(1) as u128;
    let product = num as u128 * span as u128;
    for l in (1..64).rev() {
        if ((1u128 << l) - 1) * num_bits < product {
            return l;
        }
    }
    0
}
