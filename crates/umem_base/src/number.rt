ghost use Rattle.std.specs.Prelude.{◌≡◌, ◌++◌, ◌^◌, ◌<◌, ◌≤◌, false, drop, decimal, SomeIff, OnOk, OnErr};
ghost use Rattle.std.specs.Char.{is_ascii_digit, is_ascii_hexdigit};
ghost use Rattle.std.specs.Fmt.{digits, digit_glyph};
ghost use Rattle.std.specs.List.{list_all};
ghost use Rattle.std.specs.Str.Parse.{AllDigits, digits_value};
ghost use Rattle.umem_base.specs.Numbers.{hexadecimal, right_aligned, decimal_of, hex_of};

use crate::bad_number::BadNumber;
use crate::no_memory::NoMemory;
use crate::text::Text;

// A number of 64 bits has no more digits, whatever the radix.
const MOST_DIGITS: usize = 64;

/// Appends the number in lower-case hexadecimal, without a prefix or leading zeros, right in `width`
/// bytes. On refusal `out` is as before.
pub fn put_hex(out: &mut Text, value: u64, width: usize) -> Result<(), NoMemory>
    ensures ok { OnOk result (out.new ≡ out.old ++ right_aligned width (hexadecimal value)) }
    ensures err { OnErr result (out.new ≡ out.old) }
{
    put_digits(out, value, 16, width)
}

/// Appends the number in decimal, without leading zeros, right in `width` bytes. On refusal `out` is as
/// before.
pub fn put_decimal(out: &mut Text, value: u64, width: usize) -> Result<(), NoMemory>
    ensures ok { OnOk result (out.new ≡ out.old ++ right_aligned width (decimal value)) }
    ensures err { OnErr result (out.new ≡ out.old) }
{
    put_digits(out, value, 10, width)
}

fn put_digits(out: &mut Text, value: u64, radix: u64, width: usize) -> Result<(), NoMemory>
    requires low { 2 ≤ radix }
    requires high { radix ≤ 16 }
    ensures ok { OnOk result (out.new ≡ out.old ++ right_aligned width (digits radix false value)) }
    ensures err { OnErr result (out.new ≡ out.old) }
{
    let mut buffer = [0; MOST_DIGITS];
    let start = write_digits(&mut buffer, value, radix);
    out.push_aligned(&buffer[start..], width)
}

// Writes the digits of a number at the end of the buffer, and answers where they begin.
fn write_digits(buffer: &mut [u8; MOST_DIGITS], value: u64, radix: u64) -> usize
    requires low { 2 ≤ radix }
    requires high { radix ≤ 16 }
    ensures within { result ≤ MOST_DIGITS }
    ensures written { drop result buffer.new ≡ digits radix false value }
{
    let mut start = MOST_DIGITS;
    let mut rest = value;
    while start > 0 {
        start -= 1;
        buffer[start] = glyph((rest % radix) as u8);
        rest /= radix;
        if rest == 0 {
            break;
        }
    }
    start
}

fn glyph(digit: u8) -> u8
    requires { digit < 16 }
    ensures { result ≡ digit_glyph false digit }
{
    if digit < 10 {
        b'0' + digit
    } else {
        b'a' + (digit - 10)
    }
}

/// The number that decimal digits spell. Leading zeros are allowed, a sign is not. It takes no memory.
#[inline]
pub fn read_decimal(bytes: &[u8]) -> Result<u64, BadNumber>
    ensures { result ≡ decimal_of bytes.now }
{
    if bytes.is_empty() || !are_decimal_digits(bytes) {
        return Err(BadNumber::NotDigits);
    }
    digits_value(bytes, 10).ok_or(BadNumber::TooLarge)
}

/// The number that hexadecimal digits of either case spell. Leading zeros are allowed, a sign and a prefix
/// are not. It takes no memory.
#[inline]
pub fn read_hex(bytes: &[u8]) -> Result<u64, BadNumber>
    ensures { result ≡ hex_of bytes.now }
{
    if bytes.is_empty() || !are_hex_digits(bytes) {
        return Err(BadNumber::NotDigits);
    }
    digits_value(bytes, 16).ok_or(BadNumber::TooLarge)
}

#[inline(always)]
fn are_decimal_digits(bytes: &[u8]) -> bool
    ensures { result ≡ list_all is_ascii_digit bytes.now }
{
    bytes.iter().all(|byte| byte.is_ascii_digit())
}

#[inline(always)]
fn are_hex_digits(bytes: &[u8]) -> bool
    ensures { result ≡ list_all is_ascii_hexdigit bytes.now }
{
    bytes.iter().all(|byte| byte.is_ascii_hexdigit())
}

// The value of digits, or none where it passes 64 bits.
#[inline(always)]
fn digits_value(digits: &[u8], radix: u32) -> Option<u64>
    requires low { 2 ≤ radix }
    requires high { radix ≤ 36 }
    requires digits { AllDigits radix digits.now }
    ensures { SomeIff result (digits_value radix digits.now < 2 ^ 64) (digits_value radix digits.now) }
{
    let mut value: u64 = 0;
    for digit in digits {
        let unit = (*digit as char).to_digit(radix)?;
        value = value
            .checked_mul(u64::from(radix))?
            .checked_add(u64::from(unit))?;
    }
    Some(value)
}
