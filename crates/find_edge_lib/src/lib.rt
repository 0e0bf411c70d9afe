// What the program find_edge does, on arguments and buffers that its caller lends.
#![tactic(auto)]

mod arguments;
mod capture;
mod index;
mod report;
mod saved;

use arguments::{Request, gather, parse_arguments};
pub use capture::{CaptureError, read_capture, read_full};
use edge_index::{Summary, build, check as check_index};
use index::Index;
pub use report::refused;
use report::{Fault, Stop};
use saved::read_index;
use std::env::Env;
use std::io;
use std::io::Read;
use std::rt::Files;

// The bytes that the arguments may take in all.
const ARGUMENT_BYTES: usize = 65536;

// What the caller lends: places for the capture, for the cells of its index, and for the image of one in a file.
#[derive(Drop)]
pub struct Buffers<'a> {
    pub words: &'a mut [u64],
    pub inventory: &'a mut [u64],
    pub spill: &'a mut [u64],
    pub image: &'a mut [u8],
}

// The index of a record of `len` samples: from its file, or built. The lent parts stay apart: line in `answer`.
fn index_of<F: Read>(
    request: &mut Request<'_, F>,
    words: &[u64],
    len: u64,
    inventory: &mut [u64],
    spill: &mut [u64],
    image: &mut [u8],
) -> Result<Summary, Stop<'static>> {
    if let Some(file) = &mut request.index {
        return read_index(file, image, inventory, spill);
    }
    Ok(build(
        words,
        len,
        request.origin,
        request.polarity,
        request.choice,
        inventory,
        spill,
    )?)
}

fn check<F>(request: &Request<'_, F>, len: u64, index: &Index<'_>) -> Result<(), Stop<'static>> {
    if check_index(
        index.words,
        len,
        request.origin,
        request.polarity,
        request.choice,
        index.summary,
        index.inventory,
        index.spill,
    )? {
        return Ok(());
    }
    if request.index.is_some() {
        return Err(Stop::Fault(Fault::OtherIndex));
    }
    Err(Stop::Fault(Fault::BadIndex))
}

// No jump before the check says yes, and nothing is saved.
fn answer<'a, R: Files + Input>(
    rt: &R,
    args: &'a [u8],
    buffers: Buffers<'_>,
    out: &impl Print,
) -> Result<(), Stop<'a>> {
    // Apart, since no proof is made of a struct of `&mut`s that goes on after one of them was lent.
    let Buffers {
        words,
        inventory,
        spill,
        image,
    } = buffers;
    let mut request = parse_arguments(rt, args)?;
    let all = request.read(rt, words)?;
    let len = request.samples.unwrap_or(all);
    if len > all {
        return Err(Stop::Fault(Fault::TooManySamples(len, all)));
    }
    let summary = index_of(&mut request, words, len, inventory, spill, image)?;
    let index = Index {
        words,
        summary,
        inventory,
        spill,
    };
    check(&request, len, &index)?;
    if let Some(name) = request.save {
        index.save(rt, name, image, out)?;
    }
    index.show(request.at, &request.edges, out)
}

// The program: arguments that end in a zero byte each, buffers, and where lines and error lines go.
pub fn find_edge<R: Files + Input>(
    rt: &R,
    args: &[u8],
    buffers: Buffers<'_>,
    out: &impl Print,
    err: &impl Print,
) -> io::Result<()> {
    match answer(rt, args, buffers, out) {
        Ok(()) => Ok(()),
        Err(stop) => stop.tell(out, err),
    }
}

// The same on the arguments that the program was started with.
pub fn run<R: Env + Files + Input>(
    rt: &R,
    buffers: Buffers<'_>,
    out: &impl Print,
    err: &impl Print,
) -> io::Result<()> {
    let mut args = [0u8; ARGUMENT_BYTES];
    match gather(rt, &mut args) {
        Ok(n) => find_edge(rt, &args[..n], buffers, out, err),
        Err(fault) => Stop::Fault(fault).tell(out, err),
    }
}
