// The seeks in a record.
ghost use Rattle.std.specs.Prelude.{true, ◌≡◌, ◌+◌, ◌-◌, ◌*◌, ◌/◌, ◌^◌, ◌≤◌, ◌<◌};
ghost use Rattle.select_in_word.specs.Holds.{Holds};
ghost use Rattle.bit_record.specs.Record.{Finds, FoundIn, found_by};
ghost use Rattle.bit_record.specs.Selects.{selects};

use crate::{Record, complement_zeros, count_words, selected_word};
use select_in_word::{One, count_ones, low_bits, one_on, ones_above, seek_in_word, seek_near};

// A selected position, with its word and how many selected bits remain in that word above it. The word's number is kept beside
// the position: a seek that goes on from here need not wait until the position is known.
#[derive(Clone, Copy)]
pub struct Found {
    pub position: u64,
    pub index: u64,
    pub word: u64,
    pub remaining: u64,
}

// A one of word `index`.
fn found_in(index: u64, word: u64, one: One) -> Found
    requires { (64 * index < 2 ^ 63) × (one.position < 64) }
    ensures { result ≡ found_by index word one }
{
    Found {
        position: 64 * index + one.position,
        index,
        word,
        remaining: one.remaining,
    }
}

// The words that are counted at a time where a position is likely far off.
pub(crate) const BLOCK: usize = 8;

// Where the loop over words is inlined, a mark waits for counts of words alone, and not for the position before it.
impl Record<'_> {
    // What is to be known of a selected position.
    pub fn found_at(&self, position: u64) -> Found
        requires { selects self.now position ≡ true }
        ensures { FoundIn (selects self.now) result × (result.position ≡ position) }
    {
        let index = position / 64;
        let word = selected_word(self.words, index as usize, self.len, self.polarity);
        let remaining = ones_above(word, position % 64);
        Found {
            position,
            index,
            word,
            remaining,
        }
    }

    // In the last word, where that is not whole. By value: behind a reference the record has to be stored for each seek, though
    // nearly none gets here.
    #[inline(never)]
    pub(crate) fn seek_last(self, k: u64) -> Option<Found>
        ensures { Finds (selects self.entry) (self.entry.len - 64 * (self.entry.len / 64)) (64 * (self.entry.len / 64)) k result }
    {
        if self.len % 64 == 0 {
            return None;
        }
        let i = self.len / 64;
        let word = selected_word(self.words, i as usize, self.len, self.polarity);
        match seek_in_word(word, k) {
            Ok(one) => Some(found_in(i, word, one)),
            Err(_) => None,
        }
    }

    // The selected position from word `first` on with exactly `k` selected before it there: the loop over words of every seek.
    // None but the last word needs a mask.
    #[inline(always)]
    fn seek_words(&self, first: u64, k: u64) -> Option<Found>
        ensures { Finds (selects self.now) (self.now.len - 64 * first) (64 * first) k result }
    {
        let full = self.len / 64;
        let mut left = k;
        for i in first..full {
            let word = complement_zeros(self.words[i as usize], self.polarity);
            match seek_in_word(word, left) {
                Ok(one) => return Some(found_in(i, word, one)),
                Err(ones) => left -= ones,
            }
        }
        if full < first {
            return None;
        }
        self.seek_last(left)
    }

    // The selected position `by` selected bits on from one that is found: they are taken off what remains in its word, or that
    // is taken off them and the words after it are sought.
    #[inline(always)]
    pub fn seek_on(&self, last: Found, by: u64) -> Option<Found>
        requires { FoundIn (selects self.now) last }
        ensures { Finds (selects self.now) (self.now.len - last.position) last.position by result }
    {
        if last.remaining < by {
            return self.seek_words(last.index + 1, by - last.remaining - 1);
        }
        let one = One {
            position: last.position % 64,
            remaining: last.remaining,
        };
        Some(found_in(last.index, last.word, one_on(last.word, one, by)))
    }

    // The selected position at or after `from` with exactly `k` selected between, `from` included, where the word of `from` is in
    // hand.
    #[inline(always)]
    pub fn seek_with(&self, from: u64, word: u64, k: u64) -> Option<Found>
        requires { (from < self.now.len) × Holds 64 (selects self.now) (64 * (from / 64)) word }
        ensures { Finds (selects self.now) (self.now.len - from) from k result }
    {
        let index = from / 64;
        let shift = from % 64;
        match seek_near(word >> shift, k) {
            Ok(one) => {
                let position = from + one.position;
                let remaining = one.remaining;
                Some(Found {
                    position,
                    index,
                    word,
                    remaining,
                })
            }
            Err(ones) => self.seek_words(index + 1, k - ones),
        }
    }

    // The same where it is not.
    pub fn seek_from(&self, from: u64, k: u64) -> Option<Found>
        ensures { Finds (selects self.now) (self.now.len - from) from k result }
    {
        if self.len <= from {
            return None;
        }
        let word = selected_word(self.words, (from / 64) as usize, self.len, self.polarity);
        self.seek_with(from, word, k)
    }

    // The same for a position that is likely far off: blocks that end before it are counted whole. By their numbers and not
    // `as_chunks`, since the seek goes on from a block's place.
    pub fn seek_far(&self, from: u64, k: u64) -> Option<Found>
        requires { k ≤ 2 ^ 63 }
        ensures { Finds (selects self.now) (self.now.len - from) from k result }
    {
        let words = self.words;
        let len = self.len;
        let polarity = self.polarity;
        if len <= from {
            return None;
        }
        let first = (from / 64) as usize;
        let skipped = low_bits(selected_word(words, first, len, polarity), from % 64);
        let mut remaining = k + count_ones(skipped);
        let blocks = ((len / 64) as usize - first) / BLOCK;
        for block in 0..blocks {
            let i = first + BLOCK * block;
            let ones = count_words(&words[i..i + BLOCK], polarity);
            if remaining < ones {
                return self.seek_words(i as u64, remaining);
            }
            remaining -= ones;
        }
        let i = (first + BLOCK * blocks) as u64;
        self.seek_words(i, remaining)
    }
}
