// The logarithm rounded up.
ghost use Rattle.std.specs.Prelude.{◌≡◌};
ghost use Rattle.rank_sel.specs.Numbers.{clog2};

use rank_sel::ilog2;

// The least c with 2^c >= n.
pub fn ceil_log2(n: u64) -> u32
    ensures { result ≡ clog2 n }
{
    if n <= 1 { 0 } else { ilog2(n - 1) + 1 }
}
