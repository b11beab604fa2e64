// A part of a text by its place and its length.
ghost use Rattle.std.specs.Prelude.{◌≡◌, take, drop};

use text::rest_from;

// The `count` bytes from a place on, or those that are there.
pub(crate) fn part_at<'a>(text: &'a [u8], from: usize, count: usize) -> &'a [u8]
    ensures { result.now ≡ take count (drop from text.now) }
{
    let rest = rest_from(text, from);
    match rest.get(..count) {
        Some(part) => part,
        None => rest,
    }
}
