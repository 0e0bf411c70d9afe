// Runs document 02's W-203 through the library: A's image written, read, cut, padded and bent; and W-207's images without an edge.
// What it writes is held to stdout.
#![tactic(auto)]

use edge_index::{Parameters, Polarity, Refusal, Summary, read_image, write_image};
use std::io;

// One row each: a field of the header, and the number that takes the place of A's.
const ROWS: [(usize, u64); 14] = [
    (0, 1),
    (0, 2),
    (1, 0x4000_0000_0000_0000),
    (2, 11),
    (3, 0),
    (3, 0x3fff_ffff_ffff_fff6),
    (4, 0x1_0000_0001),
    (5, 11),
    (6, 1),
    (7, 6),
    (8, 96),
    (9, 1),
    (9, 0x2000_0000_0000_0000),
    (10, 136),
];

fn end_refused(rt: &impl Print, refusal: Refusal) -> io::Result<()> {
    println!(rt; ": refused {}", refusal.number())
}

fn end_bytes(rt: &impl Print, bytes: &[u8]) -> io::Result<()> {
    for byte in bytes {
        print!(rt; " {byte:02x}")?;
    }
    println!(rt; "")
}

// Record A, ones, power 1, 0, from sample number 100 on.
fn summary_a() -> Summary {
    let plan = Parameters {
        polarity: Polarity::Ones,
        len: 10,
        num: 4,
        log2_ones_per_inventory: 1,
        log2_words_per_subinventory: 0,
        log2_ones_per_sub16: 0,
    };
    Summary {
        plan,
        origin: 100,
        inventory_len: 5,
        spill_len: 0,
    }
}

// Ten bits without an edge, from sample number 100 on, at this M: by the rules at any M that may be given.
fn summary_edgeless(log2_words_per_subinventory: u32) -> Summary {
    let plan = Parameters {
        num: 0,
        log2_ones_per_inventory: 0,
        log2_words_per_subinventory,
        ..summary_a().plan
    };
    Summary {
        plan,
        inventory_len: 1,
        ..summary_a()
    }
}

// What writing answers, and the bytes afterwards.
fn show_write(
    rt: &impl Print,
    summary: Summary,
    inventory: &[u64],
    bytes: &mut [u8],
) -> io::Result<()> {
    let none = [0u64; 0];
    match write_image(summary, inventory, &none, bytes) {
        Ok(n) => println!(rt; ": {n} bytes")?,
        Err(refusal) => end_refused(rt, refusal)?,
    }
    end_bytes(rt, bytes)
}

// What reading into six cells answers. What was read is shown by writing it back.
fn show_read(rt: &impl Print, bytes: &[u8]) -> io::Result<()> {
    let mut inventory = [77u64; 6];
    let mut none = [0u64; 0];
    let mut place = [0xffu8; 130];
    match read_image(bytes, &mut inventory, &mut none) {
        Ok(summary) => {
            print!(rt; ", sixth cell {}, written back", inventory[5])?;
            show_write(rt, summary, &inventory, &mut place)
        }
        Err(refusal) => end_refused(rt, refusal),
    }
}

// The first n of some bytes, or all where they are fewer: n is told, and may be more.
fn first(bytes: &[u8], n: usize) -> &[u8] {
    bytes.get(..n).unwrap_or(bytes)
}

fn show_cut(rt: &impl Print, image: &[u8], n: usize) -> io::Result<()> {
    print!(rt; "read {n} bytes")?;
    show_read(rt, first(image, n))
}

// Field `field`, the lowest byte first: by its number, which is told too.
fn put_field(bytes: &mut [u8; 130], field: usize, number: u64) {
    if field < 11 {
        let at = 8 * field;
        bytes[at..at + 8].copy_from_slice(&number.to_le_bytes());
    }
}

// Of an image of so many bytes.
fn show_bent(
    rt: &impl Print,
    image: [u8; 130],
    len: usize,
    field: usize,
    number: u64,
) -> io::Result<()> {
    let mut bytes = image;
    put_field(&mut bytes, field, number);
    print!(rt; "field {field} is {number}")?;
    show_read(rt, first(&bytes, len))
}

fn show_rows(rt: &impl Print, image: [u8; 130]) -> io::Result<()> {
    for (field, number) in ROWS {
        show_bent(rt, image, 128, field, number)?;
    }
    Ok(())
}

// An image with the largest M, and what an older one with more is now.
fn show_limit(rt: &impl Print) -> io::Result<()> {
    let mut image = [0xffu8; 130];
    print!(rt; "write no edge, M 10")?;
    show_write(rt, summary_edgeless(10), &[10u64], &mut image)?;
    print!(rt; "write no edge, M 11")?;
    show_write(rt, summary_edgeless(11), &[10u64], &mut image)?;
    show_cut(rt, &image, 96)?;
    show_bent(rt, image, 96, 5, 11)
}

fn main(rt: HostRuntime) -> io::Result<()> {
    let inventory = [1u64, 0x30000, 6, 0x30000, 10];
    let mut image = [0xffu8; 130];
    let mut short = [0xffu8; 127];
    print!(rt; "write A in 130 bytes")?;
    show_write(&rt, summary_a(), &inventory, &mut image)?;
    print!(rt; "write A in 127 bytes")?;
    show_write(&rt, summary_a(), &inventory, &mut short)?;
    show_cut(&rt, &image, 128)?;
    show_cut(&rt, &image, 127)?;
    show_cut(&rt, &image, 129)?;
    show_cut(&rt, &image, 87)?;
    show_cut(&rt, &image, 0)?;
    show_rows(&rt, image)?;
    show_limit(&rt)
}
