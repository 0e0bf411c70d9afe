// Numbers as a user types them: digits in base ten, and a percentage with at most three decimals.
ghost use Rattle.std.specs.Prelude.{◌≡◌, ◌≤◌};
ghost use Rattle.find_edge_input.specs.Number.{all_digits, as_part, decimal_of, fitting, parsed, ratio_of, value_from};

use crate::scan::find;
use std::error::Error;
use std::fmt;

#[derive(Clone, Copy, Debug, PartialEq, Eq)]
pub enum NumberError {
    NotANumber,
    TooLarge,
}

impl fmt::Display for NumberError {
    ghost use Rattle.std.specs.Prelude.{Some};
    ghost use Rattle.find_edge_input.specs.Messages.{error_text};

    ghost output = { λ e. Some (error_text e) };

    fn fmt<W: fmt::Write>(&self, f: &mut fmt::Formatter<W>) -> fmt::Result {
        match self {
            NumberError::NotANumber => f.write_str("not a number"),
            NumberError::TooLarge => f.write_str("too large"),
        }
    }
}

impl Error for NumberError {}

// What a percentage may have on either side of its point: so its digits stay below 2^53, which an f64 holds exactly.
const MOST_IN_PART: u64 = 999_999_999;

const MOST_DECIMALS: usize = 3;

fn all_digits(text: &[u8]) -> bool
    ensures { result ≡ all_digits text.now }
{
    text.iter().all(|byte| byte.is_ascii_digit())
}

fn value(text: &[u8]) -> Result<u64, NumberError>
    ensures { result ≡ fitting (value_from 0 text.now) }
{
    let mut n: u64 = 0;
    for byte in text {
        let digit = u64::from(byte.saturating_sub(b'0'));
        let tens = n.checked_mul(10).ok_or(NumberError::TooLarge)?;
        n = tens.checked_add(digit).ok_or(NumberError::TooLarge)?;
    }
    Ok(n)
}

pub fn parse_number(text: &[u8]) -> Result<u64, NumberError>
    ensures { result ≡ parsed text.now }
{
    if text.is_empty() || !all_digits(text) {
        return Err(NumberError::NotANumber);
    }
    value(text)
}

fn parse_part(text: &[u8]) -> Result<u64, NumberError>
    ensures { result ≡ as_part (parsed text.now) }
{
    let n = parse_number(text)?;
    if n > MOST_IN_PART {
        return Err(NumberError::TooLarge);
    }
    Ok(n)
}

// Both numbers are exact as f64, so the quotient is rounded once.
fn ratio(whole: u64, fraction: u64, decimals: usize) -> f64
    requires { (whole ≤ 999999999) × (fraction ≤ 999999999) × (decimals ≤ 3) }
    ensures { result ≡ ratio_of whole fraction decimals }
{
    let scale = 10u64.pow(decimals as u32);
    let digits = whole * scale + fraction;
    std::num::nearest_u64_to_f64(digits) / std::num::nearest_u64_to_f64(scale)
}

pub fn parse_decimal(text: &[u8]) -> Result<f64, NumberError>
    ensures { result ≡ decimal_of text.now }
{
    let point = find(text, b'.');
    let whole = parse_part(&text[..point])?;
    if point == text.len() {
        return Ok(ratio(whole, 0, 0));
    }
    let decimals = &text[point + 1..];
    if decimals.len() > MOST_DECIMALS {
        return Err(NumberError::NotANumber);
    }
    let fraction = parse_part(decimals)?;
    Ok(ratio(whole, fraction, decimals.len()))
}
