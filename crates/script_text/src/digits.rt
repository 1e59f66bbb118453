// Bytes, numbers and moments at the end of a text.
ghost use Rattle.std.specs.Prelude.{◌+◌, ◌≤◌, ◌∷◌, []};
ghost use Rattle.std.specs.Fmt.{decimal};
ghost use Rattle.script_text.specs.Texts.{hex_byte, last_digits, moment_text, numeral, octal, word};
ghost use Rattle.script_text.specs.Appending.{Appends};

use crate::hex_digits::hex_digit;
use block_id::Memory;
use fs_model::Moment;

/// One byte more.
pub fn push_byte(out: &mut Vec<u8>, byte: u8) -> Result<(), Memory>
    ensures { Appends out.old out.new result (byte ∷ []) }
{
    out.push(byte)?;
    Ok(())
}

/// So many bytes more.
pub fn push_bytes(out: &mut Vec<u8>, bytes: &[u8]) -> Result<(), Memory>
    ensures { Appends out.old out.new result bytes.now }
{
    out.extend_from_slice(bytes)?;
    Ok(())
}

/// A byte as two hexadecimal digits, in lower case.
pub fn push_hex(out: &mut Vec<u8>, byte: u8) -> Result<(), Memory>
    ensures { Appends out.old out.new result (hex_byte byte) }
{
    push_byte(out, hex_digit(byte / 16))?;
    push_byte(out, hex_digit(byte % 16))
}

/// A space and a number in decimal digits.
pub fn push_decimal(out: &mut Vec<u8>, n: u64) -> Result<(), Memory>
    ensures { Appends out.old out.new result (word (decimal n)) }
{
    push_word(out, 10, n as u128)
}

/// A space and a number of up to 128 bits in decimal digits.
pub fn push_numeral(out: &mut Vec<u8>, n: u128) -> Result<(), Memory>
    ensures { Appends out.old out.new result (word (numeral 10 n)) }
{
    push_word(out, 10, n)
}

/// A space and a number in octal digits.
pub fn push_octal(out: &mut Vec<u8>, n: u64) -> Result<(), Memory>
    ensures { Appends out.old out.new result (word (octal n)) }
{
    push_word(out, 8, n as u128)
}

/// A space and a number in a base from 2 to 10.
fn push_word(out: &mut Vec<u8>, base: u128, n: u128) -> Result<(), Memory>
    requires low { 2 ≤ base }
    requires high { base ≤ 10 }
    ensures { Appends out.old out.new result (word (numeral base n)) }
{
    push_byte(out, b' ')?;
    push_number(out, base, n)
}

/// A number in a base from 2 to 10.
fn push_number(out: &mut Vec<u8>, base: u128, n: u128) -> Result<(), Memory>
    requires low { 2 ≤ base }
    requires high { base ≤ 10 }
    ensures { Appends out.old out.new result (numeral base n) }
{
    if n < base {
        return push_byte(out, b'0' + n as u8);
    }
    push_number(out, base, n / base)?;
    push_byte(out, b'0' + (n % base) as u8)
}

/// A space, the seconds, a point and nine digits.
pub fn push_moment(out: &mut Vec<u8>, moment: &Moment) -> Result<(), Memory>
    ensures { Appends out.old out.new result (word (moment_text moment.now)) }
{
    push_decimal(out, moment.secs())?;
    push_byte(out, b'.')?;
    push_last_digits(out, 9, moment.nanos())
}

/// The last `count` decimal digits of a number.
fn push_last_digits(out: &mut Vec<u8>, count: u32, n: u32) -> Result<(), Memory>
    ensures { Appends out.old out.new result (last_digits count n) }
{
    if count == 0 {
        return Ok(());
    }
    push_last_digits(out, count - 1, n / 10)?;
    push_byte(out, b'0' + (n % 10) as u8)
}
