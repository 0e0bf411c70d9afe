// What goes on to hold of an index that was built or checked.
ghost use Rattle.edge_index.specs.Promises.{AnotherOriginIsANo, BuiltIndexIsChecked, BuiltIndexStands, CheckedIndexStands, SoundIndexIsChecked, SoundIndexIsReadRightly};

/// An index that build left stands while the record, and the cells within the counts, are as they were then: check says yes to it, it is
/// sound, and every reader answers rightly by it.
pub fn built_index_stands()
    ensures { BuiltIndexStands }
{}

/// So does an index that check said yes to.
pub fn checked_index_stands()
    ensures { CheckedIndexStands }
{}

/// Check says yes to what build just left.
#[tactic(auto, using(crate::proofs::Promises::built_checked))]
pub fn built_index_is_checked()
    ensures { BuiltIndexIsChecked }
{}

/// Where a build would answer, a summary with another origin than the one handed in is a no, whatever that origin is.
#[tactic(auto, using(crate::proofs::Promises::other_origin))]
pub fn another_origin_is_a_no()
    ensures { AnotherOriginIsANo }
{}

/// What it is to be sound fixes the index: check says yes to whatever is sound, so that no other summary and cells within the counts are.
#[tactic(auto, using(crate::proofs::Determined::sound_is_checked))]
pub fn sound_index_is_checked()
    ensures { SoundIndexIsChecked }
{}

/// On every sound index the readers answer each rank below N, and lists of them, with the samples of their bits, and each sample of the
/// record with its rank.
pub fn sound_index_is_read_rightly()
    ensures { SoundIndexIsReadRightly }
{}
