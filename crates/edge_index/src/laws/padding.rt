// What stands past the record.
ghost use Rattle.std.specs.Prelude.{List, ℕ};
ghost use Rattle.bit_record.specs.Record.{SameRecord};
ghost use Rattle.edge_index.specs.Padding.{Alike};

/// Bits at or past `len`, and later words, alter no answer of any entry and no cell that build leaves.
#[tactic(auto, using(crate::proofs::Padding::padding_alike))]
pub fn padding_alters_nothing()
    ensures { (len : ℕ) (ws vs : List ℕ) → SameRecord len ws vs → Alike len ws vs }
{}
