//! Numbers and decimals as texts.

ghost use Rattle.std.specs.Prelude.{◌≡◌, ◌<◌, ◌≤◌, ◌+◌, ◌-◌, length, min, take, IfSome, ◌++◌, ◌==◌};
ghost use Rattle.std.specs.List.{list_all, prefix_len, suffix_len};
ghost use Rattle.std.specs.Char.{is_ascii_digit};
ghost use Rattle.std.specs.Fmt.{decimal};
ghost use Rattle.siri_tables.specs.Scalars.{decimal_of, magnitude_of, number_on, seven_digits, sign_at, units_after, units_of};
ghost use Rattle.siri_tables.specs.Writing.{decimal_text, fraction_text, magnitude_text, seven_wide, without_zeros};

use itoa::Buffer;
use siri_time::put;

/// One more than the units of 180 degrees: the greatest number that is told apart.
const BEYOND: u64 = 1_800_000_001;

/// Whether a text has only digits `0` to `9`; the empty text has.
fn is_all_digits(text: &[u8]) -> bool
    ensures { result ≡ list_all is_ascii_digit text.now }
{
    text.iter().all(|byte| byte.is_ascii_digit())
}

/// The decimal of a text, in 10^-7 degrees: an optional `+` or `-`, digits, optionally `.` and digits, one
/// digit in all at least, at most 64 bytes, at most 180 degrees; digits past the seventh of the fraction are cut.
/// `None` exactly where the text isn't of this form.
#[tactic(auto, unfolding(crate::specs::Scalars::decimal_of))]
pub(crate) fn decimal_of(text: &[u8]) -> Option<i64>
    ensures { result ≡ decimal_of text.now }
{
    if text.len() > 64 {
        return None;
    }
    let (negative, rest) = sign(text);
    let units = magnitude(rest)? as i64;
    Some(if negative { -units } else { units })
}

/// Whether a decimal begins with `-`, and what follows its `-` or `+`; without either that is all of it.
fn sign(text: &[u8]) -> (bool, &[u8])
    ensures { (result.0, result.1.now) ≡ sign_at text.now }
{
    match text {
        [b'-', rest @ ..] => (true, rest),
        [b'+', rest @ ..] => (false, rest),
        _ => (false, text),
    }
}

/// How many digits a text begins with: those of a decimal's whole part.
fn whole_len(text: &[u8]) -> usize
    ensures len { result ≡ prefix_len is_ascii_digit text.now }
    ensures within { result ≤ length text.now }
{
    text.iter().take_while(|byte| byte.is_ascii_digit()).count()
}

/// A decimal without its sign, in 10^-7 degrees; nothing where it isn't of the form or passes 180 degrees.
#[tactic(auto, unfolding(crate::specs::Scalars::magnitude_of))]
fn magnitude(text: &[u8]) -> Option<u64>
    ensures value { result ≡ magnitude_of text.now }
    ensures small { IfSome result (λ units. units ≤ 1800000000) }
{
    let (whole, rest) = text.split_at(whole_len(text));
    units_after(whole, rest)
}

/// The units of a whole part and the rest: nothing, or `.` and digits alone; one digit is needed in all.
#[tactic(auto, unfolding(crate::specs::Scalars::units_after))]
fn units_after(whole: &[u8], rest: &[u8]) -> Option<u64>
    ensures value { result ≡ units_after whole.now rest.now }
    ensures small { IfSome result (λ units. units ≤ 1800000000) }
{
    match rest {
        [] if !whole.is_empty() => units(whole, rest),
        [b'.', fraction @ ..]
            if is_all_digits(fraction) && (!whole.is_empty() || !fraction.is_empty()) => {
            units(whole, fraction)
        }
        _ => None,
    }
}

/// What the digits before and after the `.` spell, in 10^-7 degrees; nothing above 180 degrees.
#[tactic(auto, using(crate::proofs::Capped::capped_twice))]
fn units(whole: &[u8], fraction: &[u8]) -> Option<u64>
    ensures value { result ≡ units_of whole.now fraction.now }
    ensures small { IfSome result (λ units. units ≤ 1800000000) }
{
    let degrees = number_on(0, whole);
    let units = number_on(degrees, &seven_digits(fraction));
    if units < BEYOND { Some(units) } else { None }
}

/// The first seven digits of a fraction, later ones cut and missing ones `0`.
fn seven_digits(fraction: &[u8]) -> [u8; 7]
    ensures { result ≡ seven_digits fraction.now }
{
    let mut digits = [b'0'; 7];
    let count = fraction.len().min(7);
    digits[..count].copy_from_slice(&fraction[..count]);
    digits
}

/// The number that these digits make behind others. All numbers from `BEYOND` on are told as one.
#[tactic(auto)]
fn number_on(before: u64, digits: &[u8]) -> u64
    requires { before ≤ 1800000001 }
    ensures { result ≡ min 1800000001 (number_on before digits.now) }
{
    let mut number = before;
    for byte in digits {
        number = (10 * number + u64::from(byte.saturating_sub(b'0'))).min(BEYOND);
    }
    number
}

/// Writes so many 10^-7 degrees, in degrees: `-` where negative, the whole part, and `.` with the fraction without the
/// zeros at its end where it isn't zero. Gives the length of the text in bytes.
#[tactic(auto, unfolding(crate::specs::Writing::decimal_text))]
pub(crate) fn write_decimal(units: i64, into: &mut [u8; 24]) -> usize
    ensures text { take result into.new ≡ decimal_text units }
    ensures bound { result ≤ 24 }
{
    let at = if units < 0 { put(into, 0, b"-") } else { 0 };
    put_magnitude(into, at, units.unsigned_abs())
}

/// Writes so many 10^-7 degrees without a sign at a place, and gives the place behind it.
#[tactic(auto, unfolding(crate::specs::Writing::magnitude_text))]
fn put_magnitude(into: &mut [u8], at: usize, units: u64) -> usize
    requires { at + 21 ≤ length into.old }
    ensures text { take result into.new ≡ take at into.old ++ magnitude_text units }
    ensures place { result ≤ at + 21 }
{
    let at = put_whole(into, at, units / 10_000_000);
    put_fraction(into, at, units % 10_000_000)
}

/// Writes a number of at most 13 digits at a place, and gives the place behind it.
#[tactic(auto, using(crate::proofs::Digits::decimal_short))]
fn put_whole(into: &mut [u8], at: usize, n: u64) -> usize
    requires room { at + 13 ≤ length into.old }
    requires small { n < 10000000000000 }
    ensures text { take result into.new ≡ take at into.old ++ decimal n }
    ensures place { result ≤ at + 13 }
{
    let mut buffer = Buffer::new();
    put(into, at, buffer.format(n).as_bytes())
}

/// Writes `.` and a fraction in 10^-7 at a place, without the zeros it ends with, nothing where it is 0, and gives the
/// place behind it.
#[tactic(auto, unfolding(crate::specs::Writing::fraction_text))]
fn put_fraction(into: &mut [u8], at: usize, fraction: u64) -> usize
    requires room { at + 8 ≤ length into.old }
    requires small { fraction < 10000000 }
    ensures text { take result into.new ≡ take at into.old ++ fraction_text fraction }
    ensures place { result ≤ at + 8 }
{
    if fraction == 0 {
        return at;
    }
    let at = put(into, at, b".");
    let digits = seven_wide(fraction);
    put(into, at, without_zeros(&digits))
}

/// A fraction below 1, in 10^-7, as seven digits with zeros in front.
fn seven_wide(fraction: u64) -> [u8; 7]
    requires { fraction < 10000000 }
    ensures { result ≡ seven_wide fraction }
{
    [
        b'0' + (fraction / 1_000_000) as u8,
        b'0' + (fraction / 100_000 % 10) as u8,
        b'0' + (fraction / 10_000 % 10) as u8,
        b'0' + (fraction / 1_000 % 10) as u8,
        b'0' + (fraction / 100 % 10) as u8,
        b'0' + (fraction / 10 % 10) as u8,
        b'0' + (fraction % 10) as u8,
    ]
}

/// How many `0` these digits end with.
fn zeros_at_end(digits: &[u8]) -> usize
    ensures zeros { result ≡ suffix_len (λ digit. digit == 48) digits.now }
    ensures within { result ≤ length digits.now }
{
    digits
        .iter()
        .rev()
        .take_while(|digit| **digit == b'0')
        .count()
}

/// The digits of a fraction without the `0` that they end with.
fn without_zeros(digits: &[u8; 7]) -> &[u8]
    ensures text { result.now ≡ without_zeros digits.now }
    ensures short { length result.now ≤ 7 }
{
    &digits[..7 - zeros_at_end(digits)]
}
