// A case: a script, run from power-on.
use crate::platforms::{power_on, session};
use machine::Machine;
use model::{Answer, Step};
use std::io;
use text::part;

// More than a step's text or a listing's line has.
const ROOM: usize = 64;

// Runs the cases, a line a step.
pub(crate) fn all(out: &impl Print, source: &[u8]) -> io::Result<()> {
    let mut m = session();
    for words in source.split(|byte| *byte == b'\n') {
        line(out, &mut m, words)?;
    }
    Ok(())
}

fn line(out: &impl Print, m: &mut Machine, words: &[u8]) -> io::Result<()> {
    if is_silent(words) {
        return Ok(());
    }
    match part(words, b' ', 0) {
        b"platform" => {
            *m = power_on(out, part(words, b' ', 1))?;
            Ok(())
        }
        _ => said(out, m, words),
    }
}

// An empty line, or one that begins with a slash.
fn is_silent(words: &[u8]) -> bool {
    matches!(words, [] | [b'/', ..])
}

// Writes a line and, if it says a step, does it and writes what came of it.
fn said(out: &impl Print, m: &mut Machine, words: &[u8]) -> io::Result<()> {
    out.write_all(words)?;
    heard(out, m, words)?;
    out.write_all(b"\n")
}

fn heard(out: &impl Print, m: &mut Machine, words: &[u8]) -> io::Result<()> {
    if is_remark(words) {
        return Ok(());
    }
    match read(words) {
        Some(s) => done(out, m, s),
        None => out.write_all(b"\tunread"),
    }
}

fn is_remark(words: &[u8]) -> bool {
    matches!(words, [b'#', ..])
}

// A script parts its fields by tabs, a case by single spaces.
fn read(words: &[u8]) -> Option<Step> {
    let mut line = [b'\n'; ROOM];
    text::write_text(&mut line, 0, words);
    for byte in line.iter_mut() {
        *byte = if *byte == b' ' { b'\t' } else { *byte };
    }
    script::line_of(text::line_from(&line, 0))
}

fn done(out: &impl Print, m: &mut Machine, s: Step) -> io::Result<()> {
    let stepped = step::step(*m, s);
    let answer = stepped.answer;
    *m = stepped.machine;
    show(out, answer, *m)
}

// A listing's line without the step's number, which is one digit here.
fn show(out: &impl Print, answer: Answer, m: Machine) -> io::Result<()> {
    let mut entry = [0; ROOM];
    listing::write_entry(&mut entry, 0, 0, answer, m);
    out.write_all(text::line_from(&entry, 1))
}
