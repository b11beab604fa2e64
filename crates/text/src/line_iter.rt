// The lines of a text, one after another.
ghost use Rattle.std.specs.Prelude.{◌≡◌, drop};
ghost use Rattle.std.specs.Iterator.{YieldsFirstRef, item_count};
ghost use Rattle.text.specs.Parts.{lines_of};
ghost use Rattle.text.specs.LineIter.{lines_left};

use crate::parts::{LF, part_end};

// What stands from a place on.
pub fn rest_from<'a>(text: &'a [u8], start: usize) -> &'a [u8]
    ensures { result.now ≡ drop start text.now }
{
    if text.len() < start {
        return &text[0..0];
    }
    &text[start..]
}

#[derive(Drop)]
pub struct LineIter<'a> {
    rest: &'a [u8],
}

// Each without its LF. A final LF starts no further line, and the empty text has none.
pub fn each_line<'a>(text: &'a [u8]) -> LineIter<'a>
    ensures { lines_left result ≡ lines_of text.now }
{
    LineIter { rest: text }
}

impl<'a> Iterator for LineIter<'a> {
    type Item = &'a [u8];

    ghost next_gives = { YieldsFirstRef lines_left };

    ghost remaining = { item_count lines_left };

    fn next(&mut self) -> Option<&'a [u8]> {
        let rest = self.rest;
        if rest.is_empty() {
            return None;
        }
        let end = part_end(rest, 0, LF);
        self.rest = rest_from(rest, end + 1);
        Some(&rest[..end])
    }
}
