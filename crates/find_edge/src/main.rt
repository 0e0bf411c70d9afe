// Finds edges in a capture of a logic signal: see find_edge_lib, which does the work. The buffers are here: a record of
// 2^25 samples, and what its index takes at most at the default spacing: 16,384 entries of 9 cells and the closing one, and
// a spilled cell for each 1,024 samples; and the image of such an index, 88 bytes and its cells', with a byte more that only a
// longer file fills. They fit a stack of 8 MB.
#![tactic(auto)]

use find_edge_lib::Buffers;
use std::io;

fn main(rt: HostRuntime) -> io::Result<()> {
    let mut words = [0u64; 524288];
    let mut inventory = [0u64; 147457];
    let mut spill = [0u64; 32768];
    let mut image = [0u8; 1441889];
    let buffers = Buffers {
        words: &mut words,
        inventory: &mut inventory,
        spill: &mut spill,
        image: &mut image,
    };
    find_edge_lib::run(&rt, buffers, &rt.stdout(), &rt.stderr())
}
