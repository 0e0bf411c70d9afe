// The entries that read an index: jump, hint, dwell, store, lists of jumps, and the rank of a sample.
ghost use Rattle.std.specs.Prelude.{true, false, Some, None, List, [], ◌≡◌, ◌↔◌, ℕ, ◌+◌, ◌-◌, ◌≤◌, ◌<◌, max, length, get_or, drop, Ok, Err, IfOk, OnErr};
ghost use Rattle.rank_sel.specs.Outcome.{answer, outcome, refused};
ghost use Rattle.rank_sel.specs.Rank.{rank as count_before};
ghost use Rattle.rank_sel.specs.declared.Refusal.TheVariants.{ListFalls, RankTooLarge, RanksFall, SampleOutside, TooFewPlaces};
ghost use Rattle.bit_record.specs.Record.{sample_outside, selected};
ghost use Rattle.spacing.specs.Spacing.{N};
ghost use Rattle.read_inventory.specs.Jump.{PartIn, PointsAt, cells_of, dwell_of, hint_of, or_empty, select_of, store_of, stored, subinventory_of};
ghost use Rattle.read_inventory.specs.Read.{entry_of_rank, mark_number, place_at};
ghost use Rattle.select_list.specs.List.{any_too_large, falls, list_of, places_after, sum_over, total_of};
ghost use Rattle.select_list.specs.Step.{single_words};
ghost use Rattle.rank_inventory.specs.Rank.{rank_of};
ghost use Rattle.step_knob.specs.Step.{next_of};
ghost use Rattle.edge_index.specs.Entries.{IsBit, IsSound, hint_at_bit, rank_of_mark};
ghost use Rattle.edge_index.specs.Right.{Answerable, Within};

use inventory::Summary;
use rank_sel::Refusal;
use read_inventory::{CellPart, Hint};

/// Jump: the sample number of the selected bit that has `rank` selected bits before it.
///
/// By a sound index each rank below the count of selected bits is answered with that bit's position, counted from the origin on,
/// and any other rank is refused as too large. By any other summary and cells the answer is what the definition reads from them.
#[tactic(auto, using(crate::proofs::Entries::select_right, crate::proofs::Entries::select_past))]
#[inline(always)]
pub fn select(
    words: &[u64],
    summary: Summary,
    inventory: &[u64],
    spill: &[u64],
    rank: u64,
) -> Result<u64, Refusal>
    ensures reads { outcome result ≡ select_of words.now summary inventory.now spill.now rank }
    ensures right { IsSound words.now summary inventory.now spill.now → rank < N summary.plan
        → (p : ℕ) × (result ≡ Ok (summary.origin + p)) × IsBit words.now summary rank p }
    ensures past { IsSound words.now summary inventory.now spill.now → N summary.plan ≤ rank → result ≡ Err RankTooLarge }
{
    read_inventory::select(words, summary, inventory, spill, rank)
}

/// Hint: the sample number of the mark that a jump to `rank` starts from, and the mark's own rank.
///
/// By a sound index the mark is the selected bit of that rank, and a rank that is not below the count of selected bits is refused as
/// too large.
#[tactic(auto, using(crate::proofs::Entries::hint_past))]
#[inline(always)]
pub fn hint(
    words: &[u64],
    summary: Summary,
    inventory: &[u64],
    spill: &[u64],
    rank: u64,
) -> Result<Hint, Refusal>
    ensures reads { outcome result ≡ hint_of words.now summary inventory.now spill.now rank }
    ensures right { IsSound words.now summary inventory.now spill.now → rank < N summary.plan
        → (p : ℕ) × (result ≡ Ok (hint_at_bit summary p (rank_of_mark words.now summary rank)))
        × IsBit words.now summary (rank_of_mark words.now summary rank) p × (rank_of_mark words.now summary rank ≤ rank) }
    ensures past { IsSound words.now summary inventory.now spill.now → N summary.plan ≤ rank → result ≡ Err RankTooLarge }
{
    read_inventory::hint(words, summary, inventory, spill, rank)
}

/// Dwell: how many samples lie from the selected bit of rank `a` to that of rank `b`.
///
/// By a sound index it is the distance of the two bits where `a` is not above `b`. A rank that is not below the count of selected
/// bits is refused as too large; where both are below it, ranks that fall are refused.
#[tactic(auto, using(crate::proofs::Entries::dwell_right, crate::proofs::Entries::dwell_past, crate::proofs::Entries::dwell_falls))]
#[inline(always)]
pub fn dwell(
    words: &[u64],
    summary: Summary,
    inventory: &[u64],
    spill: &[u64],
    a: u64,
    b: u64,
) -> Result<u64, Refusal>
    ensures reads { outcome result ≡ dwell_of words.now summary inventory.now spill.now a b }
    ensures right { IsSound words.now summary inventory.now spill.now → a ≤ b → b < N summary.plan
        → (p q : ℕ) × (result ≡ Ok (q - p)) × (p ≤ q) × IsBit words.now summary a p × IsBit words.now summary b q }
    ensures past { IsSound words.now summary inventory.now spill.now → N summary.plan ≤ max a b → result ≡ Err RankTooLarge }
    ensures falls { IsSound words.now summary inventory.now spill.now → b < a → a < N summary.plan → result ≡ Err RanksFall }
{
    read_inventory::dwell(words, summary, inventory, spill, a, b)
}

/// Store: the lent cells that record a rank's mark.
///
/// They are a part of the lent inventory or of the lent spill, and there are none exactly where `hint` refuses. By a sound index the
/// cell in which the mark of `rank` stands is one of them.
#[tactic(auto, using(crate::proofs::Entries::store_right))]
#[inline(always)]
pub fn subinventory<'a>(
    words: &[u64],
    summary: Summary,
    inventory: &'a [u64],
    spill: &'a [u64],
    rank: u64,
) -> &'a [u64]
    ensures contents { result.now ≡ cells_of inventory.now spill.now (subinventory_of words.now summary inventory.now spill.now rank) }
    ensures place { PointsAt inventory.entry spill.entry (subinventory_of words.now summary inventory.now spill.now rank) result }
    ensures none { (result.now ≡ []) ↔ ((n : ℕ) × (hint_of words.now summary inventory.now spill.now rank ≡ refused n)) }
    ensures right { IsSound words.now summary inventory.now spill.now → rank < N summary.plan
        → Within (place_at summary inventory.now (entry_of_rank summary rank) (mark_number summary inventory.now rank))
        (subinventory_of words.now summary inventory.now spill.now rank) }
    ensures past { IsSound words.now summary inventory.now spill.now → N summary.plan ≤ rank → result.now ≡ [] }
{
    read_inventory::subinventory(words, summary, inventory, spill, rank)
}

/// Store, by number: which lent cells record a rank's mark, as `subinventory` lends them. It refuses as `hint` does.
#[tactic(auto, using(crate::proofs::Entries::part_right, crate::proofs::Entries::part_past))]
#[inline(always)]
pub fn subinventory_part(
    words: &[u64],
    summary: Summary,
    inventory: &[u64],
    spill: &[u64],
    rank: u64,
) -> Result<CellPart, Refusal>
    ensures reads { stored result ≡ store_of words.now summary inventory.now spill.now rank }
    ensures lent { PartIn inventory.now spill.now (or_empty (stored result)) }
    ensures refuses { (n : ℕ) → (stored result ≡ refused n) ↔ (hint_of words.now summary inventory.now spill.now rank ≡ refused n) }
    ensures right { IsSound words.now summary inventory.now spill.now → rank < N summary.plan
        → Within (place_at summary inventory.now (entry_of_rank summary rank) (mark_number summary inventory.now rank))
        (or_empty (stored result)) }
    ensures past { IsSound words.now summary inventory.now spill.now → N summary.plan ≤ rank → result ≡ Err RankTooLarge }
{
    read_inventory::subinventory_part(words, summary, inventory, spill, rank)
}

/// List: the sample numbers of the selected bits of a list of ranks, in `places`; the answer is the total of words read.
///
/// By a sound index, where the ranks never fall, are below the count of selected bits and have a place each, place i takes the bit of
/// rank i, counted from the origin on, as a jump answers it, the places past the list stay, and no more words are read than by single jumps. Else a
/// list that falls, too few places and a rank that is too large are refused, in this order. On a refusal the places are as they
/// were.
#[inline(always)]
pub fn select_list(
    words: &[u64],
    summary: Summary,
    inventory: &[u64],
    spill: &[u64],
    ranks: &[u64],
    places: &mut [u64],
) -> Result<u64, Refusal>
    ensures total { outcome result ≡ total_of (list_of words.now summary inventory.now spill.now ranks.now (length places.old)) }
    ensures places { places.new
        ≡ places_after (list_of words.now summary inventory.now spill.now ranks.now (length places.old)) places.old }
    ensures right { IsSound words.now summary inventory.now spill.now → Answerable (N summary.plan) ranks.now (length places.old)
        → (i : ℕ) → i < length ranks.now
        → (p : ℕ) × (get_or places.new i 0 ≡ summary.origin + p) × IsBit words.now summary (get_or ranks.now i 0) p }
    ensures jumps { IsSound words.now summary inventory.now spill.now → Answerable (N summary.plan) ranks.now (length places.old)
        → (i : ℕ) → i < length ranks.now
        → select_of words.now summary inventory.now spill.now (get_or ranks.now i 0) ≡ answer (get_or places.new i 0) }
    ensures rest { IsSound words.now summary inventory.now spill.now → Answerable (N summary.plan) ranks.now (length places.old)
        → drop (length ranks.now) places.new ≡ drop (length ranks.now) places.old }
    ensures fewer { IsSound words.now summary inventory.now spill.now → Answerable (N summary.plan) ranks.now (length places.old)
        → (n : ℕ) × (result ≡ Ok n) × (n ≤ sum_over (single_words words.now summary inventory.now spill.now) ranks.now) }
    ensures falls { IsSound words.now summary inventory.now spill.now → falls ranks.now ≡ true → result ≡ Err ListFalls }
    ensures few { IsSound words.now summary inventory.now spill.now → falls ranks.now ≡ false
        → length places.old < length ranks.now → result ≡ Err TooFewPlaces }
    ensures past { IsSound words.now summary inventory.now spill.now → falls ranks.now ≡ false
        → length ranks.now ≤ length places.old → any_too_large (N summary.plan) ranks.now ≡ true
        → result ≡ Err RankTooLarge }
    ensures untouched { OnErr result (places.new ≡ places.old) }
{
    select_list::select_list(words, summary, inventory, spill, ranks, places)
}

/// Rank: how many selected bits lie before a sample.
///
/// By a sound index each sample from the origin to the record's end, that end included, is answered with their exact count, and
/// any other is refused as outside. The rank of what a jump to a rank answers is that rank, and the jump to a sample's rank is its next
/// edge, where it has one.
#[tactic(auto, using(crate::proofs::Entries::rank_outside))]
#[inline(always)]
pub fn rank(
    words: &[u64],
    summary: Summary,
    inventory: &[u64],
    spill: &[u64],
    sample: u64,
) -> Result<u64, Refusal>
    ensures reads { outcome result ≡ rank_of words.now summary inventory.now spill.now sample }
    ensures right { IsSound words.now summary inventory.now spill.now
        → sample_outside summary.origin summary.plan.len sample ≡ false
        → result ≡ Ok (count_before (selected summary.plan.polarity words.now summary.plan.len) (sample - summary.origin)) }
    ensures outside { IsSound words.now summary inventory.now spill.now
        → sample_outside summary.origin summary.plan.len sample ≡ true → result ≡ Err SampleOutside }
    ensures at_the_end { IsSound words.now summary inventory.now spill.now
        → sample ≡ summary.origin + summary.plan.len → result ≡ Ok (N summary.plan) }
    ensures jumped { IsSound words.now summary inventory.now spill.now
        → (r : ℕ) → select_of words.now summary inventory.now spill.now r ≡ answer sample → result ≡ Ok r }
    ensures next { IsSound words.now summary inventory.now spill.now → (r e : ℕ) → result ≡ Ok r
        → (next_of words.now summary sample ≡ answer (Some e))
        ↔ (select_of words.now summary inventory.now spill.now r ≡ answer e) }
    ensures none_left { IsSound words.now summary inventory.now spill.now → (r : ℕ) → result ≡ Ok r
        → (next_of words.now summary sample ≡ answer None) ↔ (r ≡ N summary.plan) }
{
    rank_inventory::rank(words, summary, inventory, spill, sample)
}
