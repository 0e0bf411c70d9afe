// An index in a file: the image that the library writes and reads.
use crate::capture::read_full;
use crate::report::{Fault, Stop};
use edge_index::{Summary, read_image};
use std::io::{ErrorKind, Read};
use std::rt::Files;
use std::{fs, io, str};

// A name that is no text names no file.
fn path(name: &[u8]) -> io::Result<&str> {
    str::from_utf8(name).map_err(|_| io::Error::from(ErrorKind::InvalidFilename))
}

pub fn open_file<R: Files>(rt: &R, name: &[u8]) -> io::Result<R::File> {
    fs::open(rt, path(name)?)
}

pub fn write_file(rt: &impl Files, name: &[u8], bytes: &[u8]) -> io::Result<()> {
    fs::write(rt, path(name)?, bytes)
}

// Reads an index from a file. One that fills the buffer is longer than any that the cells hold. The lent parts stay apart, as in
// `index_of`.
pub fn read_index(
    file: &mut impl Read,
    image: &mut [u8],
    inventory: &mut [u64],
    spill: &mut [u64],
) -> Result<Summary, Stop<'static>> {
    let Ok(n) = read_full(file, image) else {
        return Err(Stop::Fault(Fault::IndexNotRead));
    };
    if n == image.len() {
        return Err(Stop::Fault(Fault::IndexTooLong));
    }
    Ok(read_image(&image[..n], inventory, spill)?)
}
