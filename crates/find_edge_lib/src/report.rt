// Every line that the program writes. A line goes where the caller says.
ghost use Rattle.std.specs.Prelude.{◌≡◌};
ghost use Rattle.find_edge_lib.specs.declared.report.Stop.TheVariants.{Fault as FaultStop, Io, Refused};

use crate::arguments::MOST_EDGES;
use edge_index::{MAX_LOG2_WORDS_PER_SUBINVENTORY, Parameters, Polarity, Refusal};
use std::{fmt, io};

// No memory holds more.
const MOST_WORDS: u64 = 0x100_0000_0000_0000;

// What is wrong with a text that the user typed, as the line goes on behind it.
#[derive(Clone, Copy)]
pub enum TextError {
    NotANumber,
    NotAPercentage,
    TooLarge(u64),
    UnknownOption,
    Missing,
    NotOpened,
    IndexNotOpened,
    NotSaved,
}

impl fmt::Display for TextError {
    fn fmt<W: fmt::Write>(&self, f: &mut fmt::Formatter<W>) -> fmt::Result {
        match *self {
            TextError::NotANumber => f.write_str(" is not a number: write digits only, as 40000"),
            TextError::NotAPercentage => f.write_str(
                " is not a percentage: write digits, and at most three decimals, as 12.5",
            ),
            TextError::TooLarge(most) => write!(f, " is too large: write at most {most}"),
            TextError::UnknownOption => f.write_str(
                " is no option: use --zeros, --samples N, --origin N, --at N, --span N, --power L, --overhead P, --save FILE, --index FILE or --help",
            ),
            TextError::Missing => f.write_str(
                ": no such file: give the name of a capture, or - for standard input",
            ),
            TextError::NotOpened => f.write_str(
                " cannot be opened: give the name of a capture, or - for standard input",
            ),
            TextError::IndexNotOpened => {
                f.write_str(" cannot be opened: give the name of a file that --save wrote")
            }
            TextError::NotSaved => {
                f.write_str(" cannot be written: give --save the name of a file that can")
            }
        }
    }
}

// What else is wrong.
#[derive(Clone, Copy)]
pub enum Fault {
    NoValue,
    TooManyEdges,
    TooManyArguments,
    SaveAndIndex,
    NotRead,
    // by how many words there are
    TooLong(usize),
    // the samples asked for, and those there are
    TooManySamples(u64, u64),
    IndexNotRead,
    IndexTooLong,
    // the edge, and how many there are
    NoSuchEdge(u64, u64),
    // A saved index that does not pass is another capture's, or another choice's; a built one always passes.
    OtherIndex,
    BadIndex,
}

impl fmt::Display for Fault {
    fn fmt<W: fmt::Write>(&self, f: &mut fmt::Formatter<W>) -> fmt::Result {
        match *self {
            Fault::NoValue => f.write_str(
                "the last option has no value: write one after it, as --span 4096",
            ),
            Fault::TooManyEdges => write!(
                f,
                "too many edge numbers: ask for at most {MOST_EDGES} at a time"
            ),
            Fault::TooManyArguments => f.write_str(
                "the arguments take more than 65536 bytes: give fewer at a time",
            ),
            Fault::SaveAndIndex => f.write_str(
                "an index is either saved or taken: give --save or --index, not both",
            ),
            Fault::NotRead => f.write_str(
                "the capture cannot be read to its end: give a file of raw bytes, and no folder",
            ),
            Fault::TooLong(words) => write!(
                f,
                "the capture is longer than this program's buffers: give at most {} samples, eight to a byte",
                64 * (words as u64).min(MOST_WORDS)
            ),
            Fault::TooManySamples(samples, most) => write!(
                f,
                "the capture has fewer than {samples} samples: give --samples at most {most}"
            ),
            Fault::IndexNotRead => f.write_str(
                "the index cannot be read to its end: give the name of a file that --save wrote",
            ),
            Fault::IndexTooLong => f.write_str(
                "the index is longer than this program's buffers: leave --index out",
            ),
            Fault::NoSuchEdge(rank, count) => write!(
                f,
                "there is no edge {rank}: the count is {count}, so ask for a number below {count}"
            ),
            Fault::OtherIndex => f.write_str(
                "the index belongs to another capture, or was saved with other options: leave --index out",
            ),
            Fault::BadIndex => f.write_str(
                "the index does not pass the check against the record: run the program again",
            ),
        }
    }
}

// What a refusal means, by document 01's table, then document 02's, and what to do in this program's options.
#[derive(Clone, Copy)]
struct Advice(Refusal);

impl fmt::Display for Advice {
    fn fmt<W: fmt::Write>(&self, f: &mut fmt::Formatter<W>) -> fmt::Result {
        match self.0 {
            Refusal::LenTooLarge => f.write_str(
                "the number of samples is over 2^62 - 1: give fewer samples",
            ),
            Refusal::TooFewWords => f.write_str(
                "there are fewer words than the samples need: give fewer samples",
            ),
            Refusal::OnesPerInventoryTooLarge => f.write_str(
                "L is over 63: give --power at most 63",
            ),
            Refusal::WordsPerSubinventoryTooLarge => {
                let most = MAX_LOG2_WORDS_PER_SUBINVENTORY;
                write!(
                    f,
                    "M, or its maximum, is over {most}: give a maximum of at most {most}"
                )
            }
            Refusal::OverheadNotPositive => f.write_str(
                "the percentage is not finite or not above 0: give --overhead above 0, as 10",
            ),
            Refusal::InventoryTooShort => f.write_str(
                "the inventory is shorter than its count: choose a larger span, as --span 65536",
            ),
            Refusal::SpillTooShort => f.write_str(
                "the spill is shorter than its count: choose a smaller span, as --span 4096",
            ),
            Refusal::RankTooLarge => f.write_str("the rank is not below the count: ask for less"),
            Refusal::SummaryUnlawful => f.write_str(
                "the summary is not by the rules: build it anew",
            ),
            Refusal::CellsUnlawful => f.write_str(
                "the cells are not by the rules: build the index anew",
            ),
            Refusal::RanksFall => f.write_str(
                "the first edge comes after the second: ask for the edges in rising order",
            ),
            Refusal::ListFalls => f.write_str(
                "the list of edges falls: ask for them in rising order",
            ),
            Refusal::TooFewPlaces => f.write_str(
                "there are fewer places than edges asked for: lend more",
            ),
            Refusal::OriginTooLarge => f.write_str(
                "the origin and the number of samples come to over 2^62 - 1: give a smaller --origin",
            ),
            Refusal::ImageUnlawful => f.write_str(
                "the bytes are no image of an index: give --index a file that --save wrote",
            ),
            Refusal::PlaceTooShort => f.write_str(
                "the place is shorter than the index's image: choose a larger span, as --span 65536",
            ),
            Refusal::SampleOutside => f.write_str(
                "the sample is not of this capture: give --at a sample from its first to one past its last",
            ),
        }
    }
}

pub fn refused(to: &impl Print, refusal: Refusal) -> io::Result<()> {
    println!(to;
        "find_edge: refusal {}: {}",
        refusal.number(),
        Advice(refusal)
    )
}

// Why the program goes no further.
#[derive(Drop)]
pub enum Stop<'a> {
    Help,
    Text(&'a [u8], TextError),
    Fault(Fault),
    Refused(Refusal),
    // A line could not be written.
    Io(io::Error),
}

impl<'a> From<Fault> for Stop<'a> {
    ghost from_gives = { λ fault stop. stop ≡ FaultStop fault };

    fn from(fault: Fault) -> Stop<'a> {
        Stop::Fault(fault)
    }
}

impl<'a> From<Refusal> for Stop<'a> {
    ghost from_gives = { λ refusal stop. stop ≡ Refused refusal };

    fn from(refusal: Refusal) -> Stop<'a> {
        Stop::Refused(refusal)
    }
}

impl<'a> From<io::Error> for Stop<'a> {
    ghost from_gives = { λ error stop. stop ≡ Io error };

    fn from(error: io::Error) -> Stop<'a> {
        Stop::Io(error)
    }
}

impl<'a> Stop<'a> {
    // Writes the usage or the error line. A text is bytes that need not be UTF-8, and stands between quotes as the user
    // typed it, which a Display cannot write.
    pub fn tell(self, out: &impl Print, err: &impl Print) -> io::Result<()> {
        match self {
            Stop::Help => usage(out),
            Stop::Text(text, error) => {
                err.print("find_edge: '")?;
                err.write_all(text)?;
                println!(err; "'{error}")
            }
            Stop::Fault(fault) => println!(err; "find_edge: {fault}"),
            Stop::Refused(refusal) => refused(err, refusal),
            Stop::Io(error) => Err(error),
        }
    }
}

fn usage(to: &impl Print) -> io::Result<()> {
    to.print(
        "\
find_edge [FILE] [EDGE ..] [--zeros] [--samples N] [--origin N] [--at N]
          [--span N | --power L | --overhead P]
          [--save FILE | --index FILE] [--help]

FILE          the capture, eight samples to a byte; - or none: standard input
EDGE          an edge to find, by its number from 0; several in rising order
--zeros       find the samples without an edge instead
--samples N   take the first N samples only
--origin N    number the samples from N on, and not from 0
--at N        print how many edges lie before sample N, and the edges on either
              side of it: the last before it, and the first from it on
--span N      an index entry for about every N samples; the default, N 4096
--power L     an index entry for every 2^L edges
--overhead P  aim at an index of P percent of the capture's size, as 12.5
--save FILE   save the index to FILE
--index FILE  take the index from FILE, saved with the same options
--help        print this text and stop

With edge numbers it prints the count, each edge's sample, and the period from
the edge before it. Without them and without --at it prints the count, the
spacing (L, M, S) and the cells that the index takes.
",
    )
}

// What is counted.
fn noun(polarity: Polarity) -> &'static str {
    match polarity {
        Polarity::Ones => "edge",
        Polarity::Zeros => "zero",
    }
}

pub fn count_line(to: &impl Print, polarity: Polarity, count: u64) -> io::Result<()> {
    println!(to; "{}s: {count}", noun(polarity))
}

pub fn edge_line(to: &impl Print, polarity: Polarity, rank: u64, sample: u64) -> io::Result<()> {
    println!(to; "{} {rank}: sample {sample}", noun(polarity))
}

pub fn rank_line(to: &impl Print, polarity: Polarity, sample: u64, rank: u64) -> io::Result<()> {
    println!(to; "{}s before sample {sample}: {rank}", noun(polarity))
}

pub fn neighbour_line(
    to: &impl Print,
    polarity: Polarity,
    which: &str,
    edge: Option<u64>,
) -> io::Result<()> {
    match edge {
        Some(sample) => println!(to; "{which} {}: sample {sample}", noun(polarity)),
        None => println!(to; "{which} {}: none", noun(polarity)),
    }
}

pub fn period_line(to: &impl Print, samples: u64) -> io::Result<()> {
    println!(to; "period: {samples} samples")
}

pub fn spacing_line(to: &impl Print, plan: Parameters) -> io::Result<()> {
    let l = plan.log2_ones_per_inventory;
    let m = plan.log2_words_per_subinventory;
    let s = plan.log2_ones_per_sub16;
    println!(to; "spacing: L {l}, M {m}, S {s}")
}

pub fn saved_line(to: &impl Print, bytes: u64) -> io::Result<()> {
    println!(to; "saved: {bytes} bytes")
}

pub fn cells_line(to: &impl Print, inventory: u64, spill: u64) -> io::Result<()> {
    println!(to; "cells: {inventory} of inventory, {spill} of spill")
}
