// What holds of the rules themselves, whatever record and choice they are used on.
ghost use Rattle.spacing.specs.Spacing.{ReckonedSmall};

/// No choice whose maximum is accepted reaches an L over 63 but by a given L: neither a span nor an overhead reckons one.
#[tactic(auto, using(crate::proofs::Facts::reckoned_small))]
pub fn reckoned_l_is_small()
    ensures { ReckonedSmall }
{}
