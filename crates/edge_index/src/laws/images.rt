// Round trips of images.
ghost use Rattle.edge_index.specs.Images.{Images};

/// Reading an image restores what was written, and writing what was read; all other bytes are refused by 15; and what was read is sound
/// exactly where check says yes to it.
#[tactic(auto, using(crate::proofs::Images::images))]
pub fn images_restore()
    ensures { Images }
{}
