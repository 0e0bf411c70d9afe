// Runs find_edge on each line of the file `cases`, and prints what it writes. Error lines go to standard output here,
// where the gate compares them. The buffers are the program's, but for the spill: one cell, so that refusal 7 comes.
#![tactic(auto)]

use edge_index::REFUSALS;
use find_edge_input::find;
use find_edge_lib::{Buffers, find_edge, read_full, refused};
use std::rt::Files;
use std::{fs, io};

// The words of a line as arguments, which end in a zero byte.
fn to_arguments(line: &mut [u8]) {
    for byte in line {
        if *byte == b' ' {
            *byte = 0;
        }
    }
}

fn run_case<R: Files + Input + Print>(
    rt: &R,
    line: &mut [u8],
    buffers: Buffers<'_>,
) -> io::Result<()> {
    rt.write_all(b"$ find_edge ")?;
    rt.write_all(line)?;
    rt.write_all(b"\n")?;
    to_arguments(line);
    find_edge(rt, line, buffers, rt, rt)
}

// Every row of the table of refusals.
fn refusals(out: &impl Print) -> io::Result<()> {
    for refusal in REFUSALS {
        refused(out, refusal)?;
    }
    Ok(())
}

fn main(rt: HostRuntime) -> io::Result<()> {
    let mut words = [0u64; 524288];
    let mut inventory = [0u64; 131072];
    let mut spill = [0u64; 1];
    let mut image = [0u8; 4096];
    let mut text = [0u8; 65536];
    let n = read_full(&mut fs::open(&rt, "cases")?, &mut text)?;
    for line in text[..n].split_inclusive_mut(|byte| *byte == b'\n') {
        let end = find(line, b'\n');
        let buffers = Buffers {
            words: &mut words,
            inventory: &mut inventory,
            spill: &mut spill,
            image: &mut image,
        };
        run_case(&rt, &mut line[..end], buffers)?;
    }
    refusals(&rt)
}
