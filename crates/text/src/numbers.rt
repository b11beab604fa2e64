// Numbers: hex read and written, decimal written.
ghost use Rattle.std.specs.Prelude.{◌≡◌, ◌≤◌, ◌<◌};
ghost use Rattle.std.proofs.lemmas.List.Edits.{sets};
ghost use Rattle.text.specs.Numbers.{
  digit_in,
  glyph,
  number_in,
  digits,
  digit_count,
};

use crate::writes::store;

// The most digits that a number of 64 bits is read from.
const MOST: usize = 16;

// The number that a text of 1 to 16 hex digits, of either case, is.
#[tactic(auto, unfolding(crate::specs::Numbers::number_in, crate::specs::Numbers::is_number))]
pub fn hex_value(text: &[u8]) -> Option<u64>
    ensures { result ≡ number_in 16 16 text.now }
{
    if text.is_empty() {
        return None;
    }
    if MOST < text.len() {
        return None;
    }
    let mut n: u64 = 0;
    for x in text {
        let digit = digit_of(*x)?;
        n = n * 16 + u64::from(digit);
    }
    Some(n)
}

// The fewest decimal digits that show n.
pub fn decimal_digits(n: u64) -> usize
    ensures { result ≡ digit_count 10 n }
{
    digit_count(n, 10)
}

// The last `width` digits of n, upper case.
pub fn write_hex(buf: &mut [u8], at: usize, n: u64, width: usize)
    ensures { buf.new ≡ sets buf.old at (digits 16 width n) }
{
    write_digits(buf, at, n, width, 16);
}

// The last `width` digits of n.
pub fn write_decimal(buf: &mut [u8], at: usize, n: u64, width: usize)
    ensures { buf.new ≡ sets buf.old at (digits 10 width n) }
{
    write_digits(buf, at, n, width, 10);
}

// The digit that a byte shows.
#[tactic(auto, unfolding(crate::specs::Numbers::digit_in, crate::specs::Numbers::digit_of))]
pub fn digit_of(byte: u8) -> Option<u8>
    ensures { result ≡ digit_in byte }
{
    match byte {
        b'0'..=b'9' => Some(byte - b'0'),
        b'A'..=b'F' => Some(byte - b'A' + 10),
        b'a'..=b'f' => Some(byte - b'a' + 10),
        _ => None,
    }
}

fn glyph_of(d: u64) -> u8
    requires { d < 16 }
    ensures { result ≡ glyph d }
{
    if d < 10 {
        (48 + d) as u8
    } else {
        (55 + d) as u8
    }
}

// By dividing; no index is counted.
fn digit_count(n: u64, base: u64) -> usize
    requires { 1 < base }
    ensures { result ≡ digit_count base n }
{
    let mut rest = n;
    let mut count: usize = 1;
    while base <= rest {
        rest = rest / base;
        count += 1;
    }
    count
}

// From the last digit to the first.
fn write_digits(buf: &mut [u8], at: usize, n: u64, width: usize, base: u64)
    requires { (1 < base) × (base ≤ 16) }
    ensures { buf.new ≡ sets buf.old at (digits base width n) }
{
    let mut rest = n;
    for i in (0..width).rev() {
        store(buf, at, i, glyph_of(rest % base));
        rest = rest / base;
    }
}
