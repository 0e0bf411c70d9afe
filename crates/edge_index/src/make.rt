// The entries that measure a record, make its index, or hold one to it.
ghost use Rattle.std.specs.Prelude.{true, ◌≡◌, ◌↔◌, ◌+◌, ◌*◌, ◌^◌, ◌<◌, length, Ok, Err, IfOk, OnErr};
ghost use Rattle.rank_sel.specs.Outcome.{outcome, refused, number_of};
ghost use Rattle.rank_sel.specs.declared.Refusal.TheVariants.{InventoryTooShort, OriginTooLarge};
ghost use Rattle.bit_record.specs.Record.{count_of};
ghost use Rattle.spacing.specs.Spacing.{PlanOf, max_log2_words, plan_of};
ghost use Rattle.inventory.specs.Index.{stride_by};
ghost use Rattle.build_inventory.specs.Build.{BuiltAs, build_of, check_of, size_of};
ghost use Rattle.edge_index.specs.Entries.{IsCount, IsSound, Suffices};
ghost use Rattle.edge_index.specs.Right.{Right};
ghost use Rattle.edge_index.specs.Sound.{Sound};

use bit_record::Polarity;
use build_inventory::Sizes;
use inventory::Summary;
use rank_sel::Refusal;
use spacing::{Choice, Parameters};

/// How many bits of the record are selected.
///
/// Each rank below the answer has its bit, and no other rank has one. An origin is not handed in, and none is refused.
#[tactic(auto, using(crate::proofs::Entries::count_no_origin))]
#[inline(always)]
pub fn count(words: &[u64], len: u64, polarity: Polarity) -> Result<u64, Refusal>
    ensures counted { outcome result ≡ count_of words.now len polarity }
    ensures bits { IfOk result (λ n. IsCount words.now len polarity n) }
    ensures no_origin { result ≡ Err OriginTooLarge → ⊥ }
{
    bit_record::count(words, len, polarity)
}

/// The parameters that a choice makes of the record: its polarity, `len` and count, and L, M and S.
///
/// L is at most 63, M at most the limit, and S is L less M less 2.
#[tactic(auto, using(crate::proofs::Entries::plan_no_origin))]
#[inline(always)]
pub fn plan(
    words: &[u64],
    len: u64,
    polarity: Polarity,
    choice: Choice,
) -> Result<Parameters, Refusal>
    ensures planned { outcome result ≡ plan_of words.now len polarity choice }
    ensures same_record { IfOk result (λ p. (p.polarity ≡ polarity) × (p.len ≡ len)) }
    ensures within_limits { IfOk result (λ p. PlanOf words.now p) }
    ensures no_origin { result ≡ Err OriginTooLarge → ⊥ }
{
    spacing::plan(words, len, polarity, choice)
}

/// How many cells the index of the record takes in the inventory, and how many in the spill.
///
/// A build with as many cells answers, from any origin that is accepted, and one with fewer is refused. That the inventory's count passes a u64 is
/// said of vast records alone.
#[tactic(auto, using(crate::proofs::Entries::size_no_origin, crate::proofs::Entries::size_not_six))]
#[inline(always)]
pub fn size(words: &[u64], len: u64, polarity: Polarity, choice: Choice) -> Result<Sizes, Refusal>
    ensures sized { outcome result ≡ size_of words.now len polarity choice }
    ensures suffices { IfOk result (λ s. Suffices words.now len polarity choice s) }
    ensures no_origin { result ≡ Err OriginTooLarge → ⊥ }
    ensures vast { len * stride_by max_log2_words + 1 < 2 ^ 64 → result ≡ Err InventoryTooShort → ⊥ }
{
    build_inventory::size(words, len, polarity, choice)
}

/// Writes the index of the record, whose bit 0 is sample number `origin`, into the lent cells, and answers its summary.
///
/// What is left is a sound index of this record, and every reader answers rightly by it. On a refusal the lent cells are as
/// they were.
#[inline(always)]
pub fn build(
    words: &[u64],
    len: u64,
    origin: u64,
    polarity: Polarity,
    choice: Choice,
    inventory: &mut [u64],
    spill: &mut [u64],
) -> Result<Summary, Refusal>
    ensures built { BuiltAs words.now (build_of words.now len origin polarity choice (length inventory.old) (length spill.old))
        inventory.old inventory.new spill.old spill.new result }
    ensures sound { IfOk result (λ t. Sound words.now len origin polarity choice t inventory.new spill.new) }
    ensures right { IfOk result (λ t. Right words.now len origin polarity t inventory.new spill.new) }
    ensures readable { IfOk result (λ t. IsSound words.now t inventory.new spill.new) }
    ensures untouched { OnErr result ((inventory.new ≡ inventory.old) × (spill.new ≡ spill.old)) }
{
    build_inventory::build(words, len, origin, polarity, choice, inventory, spill)
}

/// Whether summary and cells are those that `build` writes for this record, origin, polarity and choice: a build in these very
/// cells would answer this summary and leave them as they are.
///
/// A yes says that they are a sound index of this record, and that every reader answers rightly by it. It is refused exactly where that
/// build is.
#[tactic(auto, using(crate::proofs::Entries::check_sound, crate::proofs::Entries::check_right, crate::proofs::Entries::check_readable))]
#[inline(always)]
pub fn check(
    words: &[u64],
    len: u64,
    origin: u64,
    polarity: Polarity,
    choice: Choice,
    summary: Summary,
    inventory: &[u64],
    spill: &[u64],
) -> Result<bool, Refusal>
    ensures checked { outcome result ≡ check_of words.now len origin polarity choice summary inventory.now spill.now }
    ensures exact { (result ≡ Ok true)
        ↔ BuiltAs words.now (build_of words.now len origin polarity choice (length inventory.now) (length spill.now))
        inventory.now inventory.now spill.now spill.now (Ok summary) }
    ensures refuses { (e : Refusal) → (result ≡ Err e)
        ↔ (build_of words.now len origin polarity choice (length inventory.now) (length spill.now) ≡ refused (number_of e)) }
    ensures sound { result ≡ Ok true → Sound words.now len origin polarity choice summary inventory.now spill.now }
    ensures right { result ≡ Ok true → Right words.now len origin polarity summary inventory.now spill.now }
    ensures readable { result ≡ Ok true → IsSound words.now summary inventory.now spill.now }
{
    build_inventory::check(
        words, len, origin, polarity, choice, summary, inventory, spill,
    )
}
