// Parts of a text between stop bytes, and its lines.
ghost use Rattle.std.specs.Prelude.{◌≡◌, ◌==◌, position, [], length, get_or, drop};
ghost use Rattle.text.specs.Parts.{lf, stop_at, front, parts, lines_of, past_stops, end_of, next_line, same_text};

use crate::line_iter::each_line;

pub(crate) const LF: u8 = 10;

// The place of the first stop.
fn first_stop(text: &[u8], stop: u8) -> Option<usize>
    ensures { result ≡ position (λ x. x == stop) text.now }
{
    text.iter().position(|x| *x == stop)
}

// The same; the length where there is none.
fn stop_at(text: &[u8], stop: u8) -> usize
    ensures { result ≡ stop_at stop text.now }
{
    first_stop(text, stop).unwrap_or(text.len())
}

// The end of the part that begins at `start`: the first stop from there on, or else the text's end; past that, `start`.
pub fn part_end(text: &[u8], start: usize, stop: u8) -> usize
    ensures { result ≡ end_of stop text.now start }
{
    match text.get(start..) {
        Some(rest) => start + stop_at(rest, stop),
        None => start,
    }
}

// The part that begins at `start`, without its stop.
pub fn part_from<'a>(text: &'a [u8], start: usize, stop: u8) -> &'a [u8]
    ensures { result.now ≡ front stop (drop start text.now) }
{
    match text.get(start..) {
        Some(rest) => &rest[..stop_at(rest, stop)],
        None => &[],
    }
}

// The start of part n, counted from 0; the text's end where there is none.
fn part_start(text: &[u8], stop: u8, n: usize) -> usize
    ensures { result ≡ past_stops stop n text.now }
{
    let mut left = n;
    for (i, x) in text.iter().enumerate() {
        if left == 0 {
            return i;
        }
        if *x == stop {
            left -= 1;
        }
    }
    text.len()
}

// Part n, counted from 0; empty where there is none.
pub fn part<'a>(text: &'a [u8], stop: u8, n: usize) -> &'a [u8]
    ensures { result.now ≡ get_or (parts stop text.now) n [] }
{
    let start = part_start(text, stop, n);
    part_from(text, start, stop)
}

// One more than the stops.
#[tactic(auto, using(crate::proofs::Cuts::part_total))]
pub fn part_count(text: &[u8], stop: u8) -> usize
    ensures { result ≡ length (parts stop text.now) }
{
    text.iter().filter(|x| **x == stop).count() + 1
}

// The line that begins at `start`, without its LF.
pub fn line_from<'a>(text: &'a [u8], start: usize) -> &'a [u8]
    ensures { result.now ≡ front lf (drop start text.now) }
{
    part_from(text, start, LF)
}

// The start of the line after the one that begins at `start`; the text's end where there is none.
pub fn next_line(text: &[u8], start: usize) -> usize
    ensures { result ≡ next_line text.now start }
{
    let end = part_end(text, start, LF);
    if end < text.len() {
        end + 1
    } else {
        text.len()
    }
}

pub fn line_count(text: &[u8]) -> usize
    ensures { result ≡ length (lines_of text.now) }
{
    let mut count: usize = 0;
    for _line in each_line(text) {
        count += 1;
    }
    count
}

#[tactic(auto, using(crate::proofs::Equal::same_pointwise))]
pub fn same(a: &[u8], b: &[u8]) -> bool
    ensures { result ≡ same_text a.now b.now }
{
    a == b
}
