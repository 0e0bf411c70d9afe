// The list: the sample numbers of all its positions, or none.
ghost use Rattle.std.specs.Prelude.{◌≡◌, ◌≤◌, length, set};
ghost use Rattle.rank_sel.specs.Outcome.{outcome};
ghost use Rattle.spacing.specs.Spacing.{N};
ghost use Rattle.select_list.specs.Hand.{Placed, Walkable, Wrote, written};
ghost use Rattle.select_list.specs.List.{list_of, places_after, start, total_of, walk, walk_of};

use crate::step::step_to;
use crate::tests::test_call;
use bit_record::sample_at;
use inventory::Summary;
use rank_sel::Refusal;
use read_inventory::Index;

// The samples that are held aside until the last is known: as many as the screen asks for, and some.
const HELD: usize = 64;

// Writes a sample where there is room for it.
fn put(places: &mut [u64], i: usize, sample: u64)
    ensures { places.new ≡ set places.old i sample }
{
    // By an index: std's `get_mut` of a slice does not say what it leaves there.
    if i < places.len() {
        places[i] = sample;
    }
}

// Walks a list, and writes the sample of each position as it is found, as far as there is room. Ranks and places stay two, here and
// below: the second walk has the same ranks and other places.
fn walk_into(index: Index<'_>, ranks: &[u64], places: &mut [u64]) -> Result<u64, Refusal>
    requires { Walkable (N index.cells.summary.plan) ranks.now }
    ensures { Wrote index.entry.cells.summary.origin (walk index.entry.words.now index.entry.cells.summary index.entry.cells.inventory.now index.entry.cells.spill.now start ranks.now) places.old places.new result }
{
    let origin = index.cells.summary.origin;
    let mut hand = None;
    let mut total = 0;
    for (i, rank) in ranks.iter().enumerate() {
        let step = step_to(&index, hand, *rank)?;
        put(places, i, sample_at(origin, step.position));
        total += step.words;
        hand = step.hand;
    }
    Ok(total)
}

// Writes what is held aside over the first places. One by one: a copied slice would be a call of `memcpy`, which the library for C
// does without.
fn put_first(held: &[u64], places: &mut [u64])
    ensures { places.new ≡ written held.now places.old }
{
    for (i, sample) in held.iter().enumerate() {
        put(places, i, *sample);
    }
}

// A list is walked without writing into its places, which are written once its last position is known: from those held
// aside, or, where they are more, by a second walk.
fn place_all(index: Index<'_>, ranks: &[u64], places: &mut [u64]) -> Result<u64, Refusal>
    requires { Walkable (N index.cells.summary.plan) ranks.now × (length ranks.now ≤ length places.old) }
    ensures { Placed (walk_of index.entry.words.now index.entry.cells.summary index.entry.cells.inventory.now index.entry.cells.spill.now ranks.now) places.old places.new result }
{
    let mut held = [0u64; HELD];
    let total = walk_into(index, ranks, &mut held)?;
    let n = ranks.len();
    if HELD < n {
        return walk_into(index, ranks, places);
    }
    put_first(&held[..n], places);
    Ok(total)
}

// The samples of a list of ranks, in `places`; the answer is the total of words read.
pub fn select_list(
    words: &[u64],
    summary: Summary,
    inventory: &[u64],
    spill: &[u64],
    ranks: &[u64],
    places: &mut [u64],
) -> Result<u64, Refusal>
    ensures total { outcome result ≡ total_of (list_of words.now summary inventory.now spill.now ranks.now (length places.old)) }
    ensures places { places.new ≡ places_after (list_of words.now summary inventory.now spill.now ranks.now (length places.old)) places.old }
{
    let index = test_call(words, summary, inventory, spill, ranks, places.len())?;
    place_all(index, ranks, places)
}
