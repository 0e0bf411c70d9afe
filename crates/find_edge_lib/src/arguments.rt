// The command line: each argument ends in a zero byte. Options stand anywhere; of the others the first names the
// capture, and the rest are edge numbers.
ghost use Rattle.std.specs.Prelude.{IfOk};
ghost use Rattle.std.specs.Counts.{IsPrefixLen};

use crate::capture::{CaptureError, read_capture};
use crate::report::{Fault, Stop, TextError};
use crate::saved::open_file;
use arrayvec::ArrayVec;
use edge_index::{Choice, Polarity};
use find_edge_input::{NumberError, parse_decimal, parse_number};
use std::env::{Env, FillError};
use std::io::{ErrorKind, Read};
use std::rt::Files;

pub const MOST_EDGES: usize = 1024;

// The maximum of M, where the user gives a spacing: that of the default.
const MAX_LOG2_WORDS: u32 = 3;

#[derive(Drop)]
enum Source<F> {
    StandardInput,
    File(F),
}

// What the arguments ask for. With no source named the capture is standard input. The file to save to is opened when there is
// something to save.
#[derive(Drop)]
pub struct Request<'a, F> {
    pub polarity: Polarity,
    pub samples: Option<u64>,
    pub origin: u64,
    pub choice: Choice,
    source: Option<Source<F>>,
    pub at: Option<u64>,
    pub edges: ArrayVec<u64, MOST_EDGES>,
    pub save: Option<&'a [u8]>,
    pub index: Option<F>,
}

// Puts argument i at the start, and a zero byte behind it.
fn put_argument(rt: &impl Env, i: usize, args: &mut [u8]) -> Result<usize, FillError>
    ensures { IfOk result (λ n. IsPrefixLen n args.new) }
{
    let n = rt.arg(i, args)?;
    if n >= args.len() {
        return Err(FillError::TooLong);
    }
    args[n] = 0;
    Ok(n + 1)
}

// Puts the arguments that the program was started with, without its own name, at the start of a buffer, and answers how many
// bytes they take.
pub fn gather(rt: &impl Env, args: &mut [u8]) -> Result<usize, Fault>
    ensures { IfOk result (λ n. IsPrefixLen n args.new) }
{
    let mut at = 0;
    for i in 1..usize::MAX {
        match put_argument(rt, i, &mut args[at..]) {
            Ok(n) => at += n,
            Err(FillError::TooLong) => return Err(Fault::TooManyArguments),
            Err(FillError::NotPresent) => break,
        }
    }
    Ok(at)
}

// A text that is not read as what is wanted: it is none, or it is over the most.
fn misread(text: &[u8], error: NumberError, none: TextError, most: u64) -> Stop<'_> {
    match error {
        NumberError::NotANumber => Stop::Text(text, none),
        NumberError::TooLarge => Stop::Text(text, TextError::TooLarge(most)),
    }
}

fn number(text: &[u8]) -> Result<u64, Stop<'_>> {
    parse_number(text).map_err(|error| misread(text, error, TextError::NotANumber, u64::MAX))
}

fn percentage(text: &[u8]) -> Result<f64, Stop<'_>> {
    parse_decimal(text).map_err(|error| misread(
        text,
        error,
        TextError::NotAPercentage,
        999_999_999,
    ))
}

fn open_source<'a, R: Files>(rt: &R, name: &'a [u8]) -> Result<Source<R::File>, Stop<'a>> {
    if name == b"-".as_slice() {
        return Ok(Source::StandardInput);
    }
    match open_file(rt, name) {
        Ok(file) => Ok(Source::File(file)),
        Err(error) if error.kind() == ErrorKind::NotFound => {
            Err(Stop::Text(name, TextError::Missing))
        }
        Err(_) => Err(Stop::Text(name, TextError::NotOpened)),
    }
}

fn open_index<'a, R: Files>(rt: &R, name: &'a [u8]) -> Result<R::File, Stop<'a>> {
    open_file(rt, name).map_err(|_| Stop::Text(name, TextError::IndexNotOpened))
}

impl<'a, F: Drop> Request<'a, F> {
    // Standard input, every sample, the first of them number 0, the default spacing.
    fn new() -> Request<'a, F> {
        Request {
            polarity: Polarity::Ones,
            samples: None,
            origin: 0,
            choice: Choice::Default,
            source: None,
            at: None,
            edges: ArrayVec::new(),
            save: None,
            index: None,
        }
    }

    fn take_plain<R: Files<File = F>>(&mut self, rt: &R, text: &'a [u8]) -> Result<(), Stop<'a>> {
        if self.source.is_none() {
            self.source = Some(open_source(rt, text)?);
            return Ok(());
        }
        let edge = number(text)?;
        self.edges
            .try_push(edge)
            .map_err(|_| Stop::Fault(Fault::TooManyEdges))
    }

    // An index is read or written, not both.
    fn allowed(&self) -> Result<(), Stop<'a>> {
        if self.save.is_some() && self.index.is_some() {
            return Err(Stop::Fault(Fault::SaveAndIndex));
        }
        Ok(())
    }

    // An option's value is the next argument. Where there is none, all arguments were read.
    fn value(&self, next: Option<&'a [u8]>) -> Result<&'a [u8], Stop<'a>> {
        let Some(text) = next else {
            self.allowed()?;
            return Err(Stop::Fault(Fault::NoValue));
        };
        Ok(text)
    }
}

impl<'a, F: Read> Request<'a, F> {
    // Reads the capture, from its file or from standard input, and answers its samples.
    pub fn read(&mut self, rt: &impl Input, words: &mut [u64]) -> Result<u64, Fault> {
        let read = match &mut self.source {
            Some(Source::File(file)) => read_capture(file, words),
            _ => read_capture(&mut rt.reader(), words),
        };
        match read {
            Ok(samples) => Ok(samples),
            Err(CaptureError::TooLong) => Err(Fault::TooLong(words.len())),
            Err(CaptureError::NotRead) => Err(Fault::NotRead),
        }
    }
}

pub fn parse_arguments<'a, R: Files>(
    rt: &R,
    args: &'a [u8],
) -> Result<Request<'a, R::File>, Stop<'a>> {
    let mut request = Request::new();
    let mut texts = args.split_inclusive(|byte| *byte == 0).map(|argument| argument
        .strip_suffix(b"\0")
        .unwrap_or(argument));
    while let Some(text) = texts.next() {
        match text {
            b"--samples" => request.samples = Some(number(request.value(texts.next())?)?),
            b"--origin" => request.origin = number(request.value(texts.next())?)?,
            b"--at" => request.at = Some(number(request.value(texts.next())?)?),
            b"--span" => {
                let span = number(request.value(texts.next())?)?;
                request.choice = Choice::Span(span, MAX_LOG2_WORDS);
            }
            b"--power" => {
                // Every power above 63 is refused alike, so 64 stands for them.
                let power = number(request.value(texts.next())?)?.min(64) as u32;
                request.choice = Choice::Power(power, MAX_LOG2_WORDS);
            }
            b"--overhead" => {
                let percent = percentage(request.value(texts.next())?)?;
                request.choice = Choice::Overhead(percent, MAX_LOG2_WORDS);
            }
            b"--save" => request.save = Some(request.value(texts.next())?),
            b"--index" => request.index = Some(open_index(rt, request.value(texts.next())?)?),
            b"--help" => return Err(Stop::Help),
            b"--zeros" => request.polarity = Polarity::Zeros,
            // Any other text that begins with two dashes is taken for a misspelt option.
            [b'-', b'-', ..] => return Err(Stop::Text(text, TextError::UnknownOption)),
            _ => request.take_plain(rt, text)?,
        }
    }
    request.allowed()?;
    Ok(request)
}
