// What holds of the calls beyond what each returns, each as the contract of a function with no parameters and nothing to do: it
// has to be proved for the crate to be built. The words are those of specs/.
ghost use Rattle.std.specs.Prelude.{Float, List, ℕ};
ghost use Rattle.inventory.specs.Numbers.{summary_at};
ghost use Rattle.edge_index_c.specs.Calls.{StoreNames, StoreRefuses};
ghost use Rattle.edge_index_c.specs.Codes.{choice_at};
ghost use Rattle.edge_index_c.specs.Logarithms.{SameAnswers, SameChoice, uncut_choice, uncut_summary};

/// Store, where it answers, names one of the two lent slices and one cell of it or more, none past its end.
#[tactic(auto, using(crate::proofs::Slices::store_names))]
pub fn store_names_lent_cells()
    ensures { StoreNames }
{}

/// Store refuses exactly where hint does, by the same number.
pub fn store_refuses_as_hint()
    ensures { StoreRefuses }
{}

/// Plan, size, build and check answer a choice whose L is cut to 32 bits as they answer it uncut.
#[tactic(auto, using(crate::proofs::Logarithms::choice_cut))]
pub fn cut_choices_answer_alike()
    ensures { (kind value : ℕ) (percentage : Float) (log2 : ℕ) → SameChoice (choice_at kind value percentage log2) (uncut_choice kind value percentage log2) }
{}

/// Every call that takes a summary answers one whose logarithms are cut to 32 bits as it answers it uncut.
pub fn cut_summaries_answer_alike()
    ensures { (s : List ℕ) → SameAnswers (summary_at s) (uncut_summary s) }
{}
