// General event bytes, two hex digits a byte.
ghost use Rattle.std.specs.Prelude.{cond, ◌≡◌, ◌≤◌, length, take, drop};
ghost use Rattle.std.proofs.lemmas.List.Edits.{sets};
ghost use Rattle.records.specs.Bytes.{byte_in, bytes_text, bytes_in};

use crate::parts::part_at;
use text::{hex_value, rest_from, write_hex};

// The most bytes that a block has.
pub const BYTES: usize = 8;

// The first `count` bytes, from a place on. What would lie past the buffer's end is not stored.
pub fn write_bytes(buf: &mut [u8], at: usize, bytes: [u8; BYTES], count: usize)
    ensures { buf.new ≡ sets buf.old at (bytes_text (take count bytes)) }
{
    if buf.len() < at {
        return;
    }
    match bytes.get(..count) {
        Some(first) => write_all(buf, at, first),
        None => write_all(buf, at, &bytes),
    }
}

fn write_all(buf: &mut [u8], at: usize, bytes: &[u8])
    requires { (length bytes.now ≤ 8) × (at ≤ length buf.old) }
    ensures { buf.new ≡ sets buf.old at (bytes_text bytes.now) }
{
    for (i, byte) in bytes.iter().enumerate() {
        write_hex(buf, at + i * 2, u64::from(*byte), 2);
    }
}

// The bytes that the digits from a place on say, `count` of them; 0 past these, and where no number stands.
pub fn read_bytes(text: &[u8], from: usize, count: usize) -> [u8; BYTES]
    ensures { result ≡ bytes_in 8 count (drop from text.now) }
{
    read_first(rest_from(text, from), count)
}

fn read_first(text: &[u8], count: usize) -> [u8; BYTES]
    ensures { result ≡ bytes_in 8 count text.now }
{
    let mut bytes = [0u8; BYTES];
    for (i, byte) in bytes.iter_mut().enumerate() {
        *byte = read_byte(text, i * 2, i < count);
    }
    bytes
}

// The byte whose digits stand at a place, if it is one of those to read.
fn read_byte(text: &[u8], from: usize, here: bool) -> u8
    ensures { result ≡ cond here (byte_in (drop from text.now)) 0 }
{
    if here {
        return hex_value(part_at(text, from, 2)).unwrap_or(0) as u8;
    }
    0
}
