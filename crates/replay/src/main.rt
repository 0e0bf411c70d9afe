// Replays the Rust's answers, a list of numbers on standard input, against the library; oracle/src/replay.rs writes the
// list and says its format. Every number, cell and position is held to the listed one, and the totals say how many were.
#![tactic(auto)]

mod answers;
mod cells;
mod list;
mod tally;

use find_edge_lib::{CaptureError, read_capture};
use list::{is_end, read_case};
use std::io;
use tally::Tally;

// Every case, and the totals. A list that is cut short does not end in its end mark.
fn replay(
    out: &impl Print,
    list: &[u64],
    inventory: &mut [u64],
    spill: &mut [u64],
) -> io::Result<()> {
    let mut tally = Tally::new(out);
    let mut left = list;
    while !is_end(left) {
        let Some((case, behind)) = read_case(left) else {
            tally.break_off()?;
            break;
        };
        tally.replay_case(case, inventory, spill)?;
        left = behind;
    }
    tally.show()
}

// The list is read as a capture is: eight bytes to a number, the lowest first.
fn run(
    rt: &(impl Input + Print),
    list: &mut [u64],
    inventory: &mut [u64],
    spill: &mut [u64],
) -> io::Result<()> {
    match read_capture(&mut rt.reader(), list) {
        Ok(bits) => {
            let numbers = bits.div_ceil(64).min(list.len() as u64) as usize;
            replay(rt, &list[..numbers], inventory, spill)
        }
        Err(CaptureError::TooLong) => {
            println!(rt; "the list is longer than the program's buffer")
        }
        Err(CaptureError::NotRead) => println!(rt; "the list cannot be read"),
    }
}

// A list of 1 MiB, and an index larger than any in it.
fn main(rt: HostRuntime) -> io::Result<()> {
    let mut list = [0u64; 131072];
    let mut inventory = [0u64; 8192];
    let mut spill = [0u64; 1024];
    run(&rt, &mut list, &mut inventory, &mut spill)
}
