// A session: a script run on a table's machine, or steps on a given one, and its listing or the machine at its end.
#![tactic(auto)]

ghost use Rattle.std.specs.Prelude.{◌≡◌, ◌+◌, ◌/◌, ◌≤◌, ◌&&◌, leb, length, drop, replicate};
ghost use Rattle.std.proofs.lemmas.List.Edits.{sets};
ghost use Rattle.text.specs.Numbers.{digit_count};
ghost use Rattle.text.specs.Parts.{lines_of};
ghost use Rattle.session.specs.Answer.{session_number, session_value, end_number, end_value};
ghost use Rattle.session.specs.declared.SessionRefusal.TheVariants as refusal;
ghost use Rattle.session.specs.Session.{limit, line_end, is_step, step_in, entries, ended, listing_of, answer_for, text_for, no_end, unread, run_answer, run_buffer, run_end, platform_line_reads, set_up_by, once_set_up, answer_of, buffer_after, session_end, resumed_answer, resumed_buffer, resumed_end};
ghost use Rattle.model.specs.Step.{step_of};
ghost use Rattle.script.specs.StepLine.{line_of};

use listing::{HEADER_LENGTH, entry_length, write_entry, write_header};
use machine::{Machine, SetUp, all_zero};
use model::{Step, Stepped};
use platform::SetUpRefusal;
use script::{host, line_of, platform_reads};
use text::{decimal_digits, each_line, line_count, line_from, next_line, rest_from};

// Why a session has no end.
#[derive(Clone, Copy)]
pub enum EndRefusal {
    // the platform line does not read
    PlatformLine,
    // setting up is refused, by this line of its table
    SetUp(SetUpRefusal),
    // a later line, or one of the steps resumed with, does not read: its number
    Line(usize),
}

// Why a session has no listing.
#[derive(Clone, Copy)]
pub enum SessionRefusal {
    // nor an end
    NoEnd(EndRefusal),
    NoRoom,
}

impl From<EndRefusal> for SessionRefusal {
    ghost from_gives = { λ why r. r ≡ refusal.NoEnd why };

    fn from(why: EndRefusal) -> SessionRefusal {
        SessionRefusal::NoEnd(why)
    }
}

// The machine at the end; all zero where there is none, and so no `Result`: "any refusal to make one gives it all zero".
#[derive(Clone, Copy)]
pub struct Ended {
    pub answer: Result<(), EndRefusal>,
    pub machine: Machine,
}

// A script's bytes past this many do not read.
pub const LIMIT: usize = 65536;

// For a script or a saved text, and one byte more, to see that it is longer.
pub fn text_buffer() -> [u8; LIMIT + 1]
    ensures { result ≡ replicate (limit + 1) 0 }
{
    [0; LIMIT + 1]
}

// A script has at most 13,107 steps, and a line of the listing at most 25 bytes.
pub fn listing_buffer() -> [u8; 330000]
    ensures { result ≡ replicate 330000 0 }
{
    [0; 330000]
}

// Where a line that begins at a place ends, its LF with it, in a script of this size.
fn line_end(size: usize, at: usize, line: &[u8]) -> usize
    ensures { result ≡ line_end size at line.now }
{
    if at < size && line.len() < size - at {
        at + line.len() + 1
    } else {
        size
    }
}

// Whether a line is a step and ends, here, within the limit.
fn step_reads(line: &[u8], end: usize) -> bool
    ensures { result ≡ (is_step (line_of line.now) && leb end limit) }
{
    match line_of(line) {
        Some(_) => end <= LIMIT,
        None => false,
    }
}

// The first line from a place on that does not read, by its number, where the line at that place has the number `first`.
fn first_unread(source: &[u8], from: usize, first: usize) -> Option<usize>
    requires { first ≤ 2 }
    ensures { result ≡ unread source.now from first }
{
    let mut k = first;
    let mut at = from;
    for line in each_line(rest_from(source, from)) {
        at = line_end(source.len(), at, line);
        if !step_reads(line, at) {
            return Some(k);
        }
        k += 1;
    }
    None
}

#[tactic(auto, unfolding(crate::specs::Session::step_in))]
fn step_in(line: Option<Step>) -> Step
    ensures { result ≡ step_in line }
{
    line.unwrap_or(Step::Drop)
}

// The step of a line, done.
fn stepped(m: Machine, line: &[u8]) -> Stepped
    ensures { result ≡ step_of m (step_in (line_of line.now)) }
{
    step::step(m, step_in(line_of(line)))
}

// Whether the lines of so many steps fit the room whatever they answer: a line has 18 bytes beside its two numbers, and no answer's number more than two digits.
fn any_entries_fit(steps: usize, room: usize) -> bool
    ensures { result ≡ leb steps (room / (20 + digit_count 10 steps)) }
{
    steps <= room / (20 + decimal_digits(steps as u64))
}

// Whether the lines of the steps fit the room, by running the steps.
fn run_fits(m: Machine, steps: &[u8], room: usize) -> bool
    ensures { result ≡ leb (length (entries 1 m (lines_of steps.now))) room }
{
    let mut current = m;
    let mut k: u64 = 1;
    let mut left = room;
    for line in each_line(steps) {
        let done = stepped(current, line);
        let n = entry_length(k, done.answer);
        if left < n {
            return false;
        }
        left -= n;
        current = done.machine;
        k += 1;
    }
    true
}

// The same; in a room that is large enough for any answers no step is run.
fn entries_fit(m: Machine, steps: &[u8], room: usize) -> bool
    ensures { result ≡ leb (length (entries 1 m (lines_of steps.now))) room }
{
    any_entries_fit(line_count(steps), room) || run_fits(m, steps, room)
}

// Writes the lines of the steps, which fit, at a place, and says where they end.
fn write_entries(buf: &mut [u8], at: usize, m: Machine, steps: &[u8]) -> usize
    requires { at + length (entries 1 m (lines_of steps.now)) ≤ length buf.old }
    ensures { (result ≡ at + length (entries 1 m (lines_of steps.now))) × (buf.new ≡ sets buf.old at (entries 1 m (lines_of steps.now))) }
{
    let mut current = m;
    let mut k: u64 = 1;
    let mut o = at;
    for line in each_line(steps) {
        let done = stepped(current, line);
        let answer = done.answer;
        let next = done.machine;
        write_entry(buf, o, k, answer, next);
        o += entry_length(k, answer);
        current = next;
        k += 1;
    }
    o
}

// The header and the lines of the steps, where all of it fits.
fn write_listing(buf: &mut [u8], m: Machine, steps: &[u8]) -> Result<usize, SessionRefusal>
    ensures { (result ≡ answer_for (length (listing_of m (lines_of steps.now))) (length buf.old)) × (buf.new ≡ text_for (listing_of m (lines_of steps.now)) buf.old) }
{
    let room = buf.len();
    if HEADER_LENGTH <= room {
        if entries_fit(m, steps, room - HEADER_LENGTH) {
            write_header(buf);
            let end = write_entries(buf, HEADER_LENGTH, m, steps);
            return Ok(end);
        }
    }
    Err(SessionRefusal::NoRoom)
}

// The machine after the steps.
fn machine_after(m: Machine, steps: &[u8]) -> Machine
    ensures { result ≡ ended m (lines_of steps.now) }
{
    let mut current = m;
    for line in each_line(steps) {
        let done = stepped(current, line);
        current = done.machine;
    }
    current
}

fn no_end(why: EndRefusal) -> Ended
    ensures { result ≡ no_end why }
{
    let machine = all_zero();
    Ended {
        answer: Err(why),
        machine,
    }
}

fn platform_line_reads(source: &[u8]) -> bool
    ensures { result ≡ platform_line_reads source.now }
{
    let next = next_line(source, 0);
    platform_reads(line_from(source, 0)) & (next <= LIMIT)
}

// The machine that the table and the platform line give.
fn set_up_by(table: &[u8], source: &[u8]) -> SetUp
    ensures { result ≡ set_up_by table.now source.now }
{
    let line = line_from(source, 0);
    machine::set_up(table, host(line))
}

// The machine that a session begins with.
fn start(table: &[u8], source: &[u8]) -> Result<Machine, EndRefusal>
    ensures { result ≡ once_set_up table.now source.now Ok Err }
{
    if !platform_line_reads(source) {
        return Err(EndRefusal::PlatformLine);
    }
    let made = set_up_by(table, source);
    let answer = made.answer;
    match answer {
        Ok(()) => Ok(made.machine),
        Err(line) => Err(EndRefusal::SetUp(line)),
    }
}

// Lists the steps from a place on, on a machine, where every line from there reads.
fn run(
    buf: &mut [u8],
    m: Machine,
    source: &[u8],
    from: usize,
    first: usize,
) -> Result<usize, SessionRefusal>
    requires { first ≤ 2 }
    ensures { (result ≡ run_answer m source.now from first (length buf.old)) × (buf.new ≡ run_buffer m source.now from first buf.old) }
{
    match first_unread(source, from, first) {
        None => write_listing(buf, m, rest_from(source, from)),
        Some(line) => Err(SessionRefusal::NoEnd(EndRefusal::Line(line))),
    }
}

// The machine at the end of the same. Beside `run`, and with a loop of its own: a closure over the buffer would need an invariant of what it
// has written.
fn run_end(m: Machine, source: &[u8], from: usize, first: usize) -> Ended
    requires { first ≤ 2 }
    ensures { result ≡ run_end m source.now from first }
{
    match first_unread(source, from, first) {
        None => Ended {
            answer: Ok(()),
            machine: machine_after(m, rest_from(source, from)),
        },
        Some(line) => no_end(EndRefusal::Line(line)),
    }
}

// Runs a script on the machine of a table and writes the listing, and gives its length; the lent buffer is touched only where all of it reads and fits.
pub fn session(table: &[u8], source: &[u8], buf: &mut [u8]) -> Result<usize, SessionRefusal>
    ensures { (result ≡ answer_of table.now source.now (length buf.old)) × (buf.new ≡ buffer_after table.now source.now buf.old) }
{
    let m = start(table, source)?;
    run(buf, m, source, next_line(source, 0), 2)
}

// The machine at the end of a session.
pub fn end(table: &[u8], source: &[u8]) -> Ended
    ensures { result ≡ session_end table.now source.now }
{
    match start(table, source) {
        Ok(m) => run_end(m, source, next_line(source, 0), 2),
        Err(why) => no_end(why),
    }
}

// Goes on from a machine: all lines are steps, and the first is line 1. Writes the listing, its steps counted from 1; the lent buffer is touched only where all of it reads and fits.
pub fn resume(m: Machine, source: &[u8], buf: &mut [u8]) -> Result<usize, SessionRefusal>
    ensures { (result ≡ resumed_answer m source.now (length buf.old)) × (buf.new ≡ resumed_buffer m source.now buf.old) }
{
    run(buf, m, source, 0, 1)
}

// The machine at the end of the same.
pub fn resume_end(m: Machine, source: &[u8]) -> Ended
    ensures { result ≡ resumed_end m source.now }
{
    run_end(m, source, 0, 1)
}

// The number of an answer, and its value.
pub fn number(a: Result<usize, SessionRefusal>) -> u8
    ensures { result ≡ session_number a }
{
    match a {
        Ok(_) => 0,
        Err(SessionRefusal::NoEnd(why)) => end_number(Err(why)),
        Err(SessionRefusal::NoRoom) => 43,
    }
}

pub fn value(a: Result<usize, SessionRefusal>) -> usize
    ensures { result ≡ session_value a }
{
    match a {
        Ok(length) => length,
        Err(SessionRefusal::NoEnd(why)) => end_value(Err(why)),
        Err(SessionRefusal::NoRoom) => 0,
    }
}

// The number of an end's answer, and its value.
pub fn end_number(a: Result<(), EndRefusal>) -> u8
    ensures { result ≡ end_number a }
{
    match a {
        Ok(()) => 0,
        Err(EndRefusal::PlatformLine) => 46,
        Err(EndRefusal::SetUp(line)) => platform::refusal_number(line),
        Err(EndRefusal::Line(_)) => 46,
    }
}

pub fn end_value(a: Result<(), EndRefusal>) -> usize
    ensures { result ≡ end_value a }
{
    match a {
        Ok(()) => 0,
        Err(EndRefusal::PlatformLine) => 1,
        Err(EndRefusal::SetUp(line)) => platform::refusal_value(line) as usize,
        Err(EndRefusal::Line(line)) => line,
    }
}
