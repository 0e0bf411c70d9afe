// What the words of specs/ are held to, each as the contract of a function with no parameters and nothing to do: the law has to be
// proved for it to be built.
ghost use Rattle.std.specs.Prelude.{List, ℕ};
ghost use Rattle.rank_sel.specs.Lists.{Below};
ghost use Rattle.find_edge_input.specs.Words.{SameBits, packed};

/// The packed words have the capture's order of samples: bit p is bit p mod 8, lowest first, of byte p div 8.
pub fn packed_words_have_the_same_bits()
    ensures { (bytes words : List ℕ) → Below 256 bytes → SameBits bytes (packed bytes words) }
{}
