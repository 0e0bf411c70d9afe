// In-word select: the ones of one word.
ghost use Rattle.std.specs.Prelude.{◌≡◌, ◌↔◌, ◌≤◌, Err, IfOk};
ghost use Rattle.std.specs.Int.Count.{ones};
ghost use Rattle.rank_sel.specs.Outcome.{outcome};
ghost use Rattle.rank_sel.specs.declared.Refusal.TheVariants.{RankTooLarge};
ghost use Rattle.select_in_word.specs.Select.{select_in_word as one_of_rank};
ghost use Rattle.edge_index.specs.Entries.{IsOneOf};

use rank_sel::Refusal;
use select_in_word::One;

/// In-word select: the position of the one of `word` that has `rank` ones below it, and how many ones remain above it.
///
/// A rank is refused as too large exactly where it is not below the word's count of ones.
#[inline(always)]
pub fn select_in_word(word: u64, rank: u64) -> Result<One, Refusal>
    ensures selects { outcome result ≡ one_of_rank word rank }
    ensures right { IfOk result (λ one. IsOneOf word rank one) }
    ensures past { (result ≡ Err RankTooLarge) ↔ (ones word ≤ rank) }
{
    select_in_word::select_in_word(word, rank)
}
