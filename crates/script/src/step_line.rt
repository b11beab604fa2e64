// A line as a step.
ghost use Rattle.std.specs.Prelude.{◌≡◌};
ghost use Rattle.script.specs.StepLine.{lone_line, pin_line, count_line, access_at, read_line, write_line, line_of};

use crate::hex_fields::hex32;
use model::{Access, Event, Step};
use text::{field, field_count, field_hex, field_is, same};

#[tactic(auto, unfolding(crate::specs::StepLine::lone_line))]
fn lone_line(word: &[u8]) -> Option<Step>
    ensures { result ≡ lone_line word.now }
{
    if same(word, b"press") {
        return Some(Step::Event(Event::Press));
    }
    if same(word, b"release") {
        return Some(Step::Event(Event::Release));
    }
    if same(word, b"sleep") {
        return Some(Step::Event(Event::SleepPress));
    }
    if same(word, b"alarm") {
        return Some(Step::Event(Event::Alarm));
    }
    if same(word, b"master") {
        return Some(Step::Event(Event::BusMaster));
    }
    if same(word, b"unlock") {
        return Some(Step::Event(Event::Unlock));
    }
    if same(word, b"take") {
        return Some(Step::Take);
    }
    if same(word, b"drop") {
        return Some(Step::Drop);
    }
    None
}

// "pin 1", "pin 0".
#[tactic(auto, unfolding(crate::specs::StepLine::pin_line))]
fn pin_line(digit: &[u8]) -> Option<Step>
    ensures { result ≡ pin_line digit.now }
{
    if same(digit, b"1") {
        return Some(Step::Event(Event::PinActive));
    }
    if same(digit, b"0") {
        return Some(Step::Event(Event::PinInactive));
    }
    None
}

// "event N", "tick N".
#[tactic(auto, unfolding(crate::specs::StepLine::count_line, crate::specs::Fields::number_below))]
fn count_line(line: &[u8]) -> Option<Step>
    ensures { result ≡ count_line line.now }
{
    let n = hex32(field(line, 1))?;
    if field_is(line, 0, b"event") {
        return Some(Step::Event(Event::General(n)));
    }
    if field_is(line, 0, b"tick") {
        return Some(Step::Event(Event::Ticks(n)));
    }
    None
}

// "PORT WIDTH".
#[tactic(auto, unfolding(crate::specs::StepLine::access_at, crate::specs::StepLine::access_reads, crate::specs::Fields::number_below, text::specs::Numbers::number_in, text::specs::Numbers::number_of))]
fn access(line: &[u8]) -> Option<Access>
    ensures { result ≡ access_at line.now }
{
    let port = field_hex(line, 1)?;
    let width = hex32(field(line, 2))?;
    Some(Access { port, width })
}

// "r PORT WIDTH".
#[tactic(auto, unfolding(crate::specs::StepLine::read_line, crate::specs::StepLine::access_at))]
fn read_line(line: &[u8]) -> Option<Step>
    ensures { result ≡ read_line line.now }
{
    if field_is(line, 0, b"r") {
        let access = access(line)?;
        return Some(Step::Read(access));
    }
    None
}

// "w PORT WIDTH DATA".
#[tactic(auto, unfolding(crate::specs::StepLine::write_line, crate::specs::StepLine::access_at, text::specs::Numbers::number_in, text::specs::Numbers::number_of))]
fn write_line(line: &[u8]) -> Option<Step>
    ensures { result ≡ write_line line.now }
{
    if field_is(line, 0, b"w") {
        let access = access(line)?;
        let data = field_hex(line, 3)?;
        return Some(Step::Write(access, data));
    }
    None
}

// What a line after the first says: a step, or nothing that reads.
#[tactic(auto, unfolding(crate::specs::StepLine::line_of))]
pub fn line_of(line: &[u8]) -> Option<Step>
    ensures { result ≡ line_of line.now }
{
    match field_count(line) {
        1 => lone_line(field(line, 0)),
        2 => {
            if field_is(line, 0, b"pin") {
                pin_line(field(line, 1))
            } else {
                count_line(line)
            }
        }
        3 => read_line(line),
        4 => write_line(line),
        _ => None,
    }
}
