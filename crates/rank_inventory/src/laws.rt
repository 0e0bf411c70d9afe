// What the definitions say, each as the contract of a function with no parameters and nothing to do.
ghost use Rattle.std.specs.Prelude.{true, ◌↔◌, ◌≡◌, ℕ};
ghost use Rattle.rank_inventory.specs.Starts.{Rise, starts_rise};

/// The rule of the starts holds exactly where each start lies above the one before it and all lie below len.
#[tactic(auto, using(crate::proofs::Rising::rise_exact))]
pub fn starts_rise_strictly()
    ensures { (s : ℕ → ℕ) (len n : ℕ) → (starts_rise s len n ≡ true) ↔ Rise s len n }
{}
