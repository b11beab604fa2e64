// Says in one line what a session's table and script come to: what is wrong and where, or how many steps there are. Where there is no table but a saved
// text, the file `state`: what that and the steps come to. Which line does not read, and which line of setting up refuses, the proved libraries say; what is
// said beside it comes from a closer look.
#![tactic(auto)]

mod blocks;
mod clauses;
mod line;
mod nearest;
mod say;
mod state;
mod table;
mod words;

use files::LeavesOut;
use session::{EndRefusal, SessionRefusal};
use std::fs::{File, Files};
use std::io;
use std::io::Read;

fn main(rt: HostRuntime) {
    let _ = tell_all(&rt, &LeavesOut(&rt), &mut rt.stdin());
}

fn tell_all(rt: &impl Files, out: &impl Print, input: &mut impl Read) -> io::Result<()> {
    let opened = File::open(rt, "platform.fadt");
    if opened.is_err() {
        return without_table(rt, out, input);
    }
    let mut table = files::large_buffer();
    // The file is closed before the script is read.
    let table_length = files::read_opened(opened, &mut table);
    let table = &table[..table_length];
    let mut script = session::text_buffer();
    let Some(script_length) = files::read_whole(input, &mut script) else {
        return println!(out; "the script cannot be read to its end");
    };
    let source = &script[..script_length];
    // Room is judged last: no room for the listing means that all of it reads.
    let mut listing = [0; 1];
    let answer = session::session(table, source, &mut listing);
    tell(out, answer, table, source)
}

fn without_table(rt: &impl Files, out: &impl Print, input: &mut impl Read) -> io::Result<()> {
    let opened = File::open(rt, "state");
    if opened.is_err() {
        return println!(out; "the file platform.fadt does not open");
    }
    let mut text = session::text_buffer();
    let text_length = files::read_opened(opened, &mut text);
    let mut steps = session::text_buffer();
    let Some(steps_length) = files::read_whole(input, &mut steps) else {
        return println!(out; "the steps cannot be read to their end");
    };
    state::tell(out, &text[..text_length], &steps[..steps_length])
}

fn tell(
    out: &impl Print,
    answer: Result<usize, SessionRefusal>,
    table: &[u8],
    source: &[u8],
) -> io::Result<()> {
    match answer {
        Ok(_) | Err(SessionRefusal::NoRoom) => all_is_well(out, source),
        Err(SessionRefusal::NoEnd(EndRefusal::PlatformLine)) => line::platform_unread(out, source),
        Err(SessionRefusal::NoEnd(EndRefusal::SetUp(refusal))) => {
            let number = platform::refusal_number(refusal);
            print!(out; "setting up is refused: {number}, ")?;
            table::closer(out, refusal, table, text::line_from(source, 0))
        }
        Err(SessionRefusal::NoEnd(EndRefusal::Line(line))) => {
            line::step_unread(out, source, line, true)
        }
    }
}

// All lines but the platform line are steps.
fn all_is_well(out: &impl Print, source: &[u8]) -> io::Result<()> {
    match text::line_count(source).saturating_sub(1) {
        1 => println!(out; "all is well: 1 step"),
        steps => println!(out; "all is well: {steps} steps"),
    }
}
