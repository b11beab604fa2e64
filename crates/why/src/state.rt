// What a saved text, and steps on its machine, come to.
use crate::clauses::clause;
use crate::line::step_unread;
use crate::say::{Shown, say};
use machine::Machine;
use saved::ReadRefusal;
use session::EndRefusal;
use std::io;

const LF: u8 = b'\n';

// More than the longest saved text.
const ROOM: usize = 1024;

pub(crate) fn tell(out: &impl Print, text: &[u8], steps: &[u8]) -> io::Result<()> {
    let back = saved::read(text);
    match back.answer {
        Ok(()) => tell_steps(out, back.machine, text, steps),
        Err(ReadRefusal::NoEdition) => say(out, b"40: the first line names no known edition\n"),
        Err(ReadRefusal::Malformed(line)) => malformed(out, text, line),
        Err(ReadRefusal::Illegal(broken)) => {
            say(out, b"42: ")?;
            clause(out, broken)
        }
        Err(ReadRefusal::Stray(line)) => stray(out, text, line),
    }
}

fn tell_steps(out: &impl Print, m: Machine, text: &[u8], steps: &[u8]) -> io::Result<()> {
    let ended = session::resume_end(m, steps);
    match ended.answer {
        Err(EndRefusal::Line(line)) => step_unread(out, steps, line, false),
        _ => all_is_well(out, text, m.state),
    }
}

fn all_is_well(out: &impl Print, text: &[u8], state: u8) -> io::Result<()> {
    let edition = Shown(text::field(text::line_from(text, 0), 1));
    println!(out; "all is well: edition {edition}, S{state}")
}

// The name of the record in a line, counted from 1; there is no line 0.
fn record(text: &[u8], line: usize) -> &[u8] {
    match line.checked_sub(1) {
        Some(n) => text::field(text::part(text, LF, n), 0),
        None => &[],
    }
}

fn stray(out: &impl Print, text: &[u8], line: usize) -> io::Result<()> {
    print!(out; "42: line {line}: ")?;
    say(out, record(text, line))?;
    println!(out;
        " has a bit that this register does not have, or whose home is the other block; or a bit of its own stands there"
    )
}

// Any text of the newest edition says which record a line is to be.
fn malformed(out: &impl Print, text: &[u8], line: usize) -> io::Result<()> {
    let mut newest = [0u8; ROOM];
    let _ = saved::write(machine::all_zero(), &mut newest);
    print!(out; "41: line {line}")?;
    against(out, text, &newest, line)
}

// An older edition may have other lines. What follows the last LF is no line.
fn against(out: &impl Print, text: &[u8], newest: &[u8], line: usize) -> io::Result<()> {
    if text::line_from(text, 0) != text::line_from(newest, 0) {
        return println!(out; " is malformed, missing or surplus");
    }
    if text::part_count(newest, LF) <= line {
        return println!(out; " is surplus");
    }
    print!(out; " is malformed or missing: ")?;
    say(out, record(newest, line))?;
    println!(out; " is due there")
}
