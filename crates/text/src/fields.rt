// The fields of a line, parted by tabs and counted from 0. A field that is not there is empty.
ghost use Rattle.std.specs.Prelude.{◌≡◌, [], length, get_or};
ghost use Rattle.text.specs.Numbers.{number_in};
ghost use Rattle.text.specs.Parts.{fields_of, same_text};

use crate::numbers::hex_value;
use crate::parts::{part, part_count, same};

const TAB: u8 = 9;

pub fn field_count(line: &[u8]) -> usize
    ensures { result ≡ length (fields_of line.now) }
{
    part_count(line, TAB)
}

pub fn field<'a>(line: &'a [u8], n: usize) -> &'a [u8]
    ensures { result.now ≡ get_or (fields_of line.now) n [] }
{
    part(line, TAB, n)
}

pub fn field_is(line: &[u8], n: usize, word: &[u8]) -> bool
    ensures { result ≡ same_text (get_or (fields_of line.now) n []) word.now }
{
    same(field(line, n), word)
}

// The number that field n is, in hex.
pub fn field_hex(line: &[u8], n: usize) -> Option<u64>
    ensures { result ≡ number_in 16 16 (get_or (fields_of line.now) n []) }
{
    hex_value(field(line, n))
}
