// The count between two positions of a record, and the selected position before or after one.
ghost use Rattle.std.specs.Prelude.{◌≡◌, ◌*◌, ◌/◌, ◌%◌, ◌≤◌};
ghost use Rattle.rank_sel.specs.Rank.{rank_between};
ghost use Rattle.rank_sel.specs.Step.{last_before, next_from, option_of};
ghost use Rattle.select_in_word.specs.Holds.{Holds};
ghost use Rattle.bit_record.specs.Selects.{selects};

use crate::seeks::BLOCK;
use crate::{Record, complement_zeros, count_words, selected_word};
use select_in_word::{count_ones, first_one, last_one, low_bits};

impl Record<'_> {
    // The selected positions of p's word that lie before p.
    fn bits_before(&self, p: u64) -> u64
        requires { p ≤ self.now.len }
        ensures { Holds (p % 64) (selects self.now) (64 * (p / 64)) result }
    {
        if p % 64 == 0 {
            return 0;
        }
        let word = selected_word(self.words, (p / 64) as usize, self.len, self.polarity);
        low_bits(word, p % 64)
    }

    // How many positions are selected from one on, before another: whole words, and the ends masked.
    pub fn rank_between(&self, from: u64, to: u64) -> u64
        requires { (from ≤ to) × (to ≤ self.now.len) }
        ensures { result ≡ rank_between (selects self.now) from to }
    {
        let first = (from / 64) as usize;
        let last = (to / 64) as usize;
        let skipped = count_ones(self.bits_before(from));
        let tail = count_ones(self.bits_before(to));
        count_words(&self.words[first..last], self.polarity) + tail - skipped
    }

    // The first selected position from one on. It is likely in the same word.
    #[inline(always)]
    pub fn next_from(&self, from: u64) -> Option<u64>
        ensures { option_of result ≡ next_from (selects self.now) self.now.len from }
    {
        if self.len <= from {
            return None;
        }
        let index = from / 64;
        let word = selected_word(self.words, index as usize, self.len, self.polarity);
        let rest = word >> (from % 64);
        if rest != 0 {
            return Some(from + first_one(rest));
        }
        self.next_past((index + 1) as usize)
    }

    // The first from word `first` on: blocks that have none are counted whole.
    #[inline(never)]
    fn next_past(&self, first: usize) -> Option<u64>
        ensures { option_of result ≡ next_from (selects self.now) self.now.len (64 * first) }
    {
        let full = (self.len / 64) as usize;
        let blocks = full.saturating_sub(first) / BLOCK;
        for block in 0..blocks {
            let i = first + BLOCK * block;
            if count_words(&self.words[i..i + BLOCK], self.polarity) > 0 {
                return self.next_word(i);
            }
        }
        self.next_word(first + BLOCK * blocks)
    }

    // The same, word by word.
    fn next_word(&self, first: usize) -> Option<u64>
        ensures { option_of result ≡ next_from (selects self.now) self.now.len (64 * first) }
    {
        let full = (self.len / 64) as usize;
        for i in first..full {
            let word = complement_zeros(self.words[i], self.polarity);
            if word != 0 {
                return Some(64 * (i as u64) + first_one(word));
            }
        }
        if full < first {
            return None;
        }
        match self.seek_last(0) {
            Some(found) => Some(found.position),
            None => None,
        }
    }

    // The last selected position before one.
    #[inline(always)]
    pub fn last_before(&self, to: u64) -> Option<u64>
        requires { to ≤ self.now.len }
        ensures { option_of result ≡ last_before (selects self.now) to }
    {
        let index = to / 64;
        let word = self.bits_before(to);
        if word != 0 {
            return Some(64 * index + last_one(word));
        }
        self.last_within(index as usize)
    }

    // The last in the first n words: blocks that have none are counted whole.
    #[inline(never)]
    fn last_within(&self, n: usize) -> Option<u64>
        requires { 64 * n ≤ self.now.len }
        ensures { option_of result ≡ last_before (selects self.now) (64 * n) }
    {
        for block in 0..n / BLOCK {
            let end = n - BLOCK * block;
            if count_words(&self.words[end - BLOCK..end], self.polarity) > 0 {
                return self.last_word(end);
            }
        }
        self.last_word(n % BLOCK)
    }

    // The same, word by word.
    fn last_word(&self, n: usize) -> Option<u64>
        requires { 64 * n ≤ self.now.len }
        ensures { option_of result ≡ last_before (selects self.now) (64 * n) }
    {
        for i in (0..n).rev() {
            let word = complement_zeros(self.words[i], self.polarity);
            if word != 0 {
                return Some(64 * (i as u64) + last_one(word));
            }
        }
        None
    }
}
