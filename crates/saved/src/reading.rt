// A text read: what it says by its places, whether that prints the same text, and whether it is legal.
ghost use Rattle.std.specs.Prelude.{◌≡◌, cond, ◌+◌, ◌^◌, ◌<◌, ◌≤◌, eqb};
ghost use Rattle.records.specs.Rows.{row_count};
ghost use Rattle.values.specs.Agree.{agreeing};
ghost use Rattle.saved.specs.Text.{newest, text_of, gpe_at};
ghost use Rattle.saved.specs.Reading.{edition_up_to, malformed_line, text_answer, legal_answer, parts_in, read_as, read_parts, read_of};

use crate::parts::{Parts, gpe_at};
use crate::{ReadBack, ReadRefusal};
use machine::{Machine, all_zero};
use records::RECORDS;
use text::{line_from, part_count, same};
use values::{VALUES, first_stray};

const LF: u8 = 10;

// More than the longest text.
const ROOM: usize = 1024;

// The edition whose first line this is; 0 where it is none, and no Option: theorems speak of the number (`older-reads-inactive`).
fn edition_of(line: &[u8]) -> u64
    ensures { result ≡ edition_up_to newest line.now }
{
    if same(line, b"edition\t2") {
        2
    } else {
        if same(line, b"edition\t1") { 1 } else { 0 }
    }
}

// How many bytes stand alike at the start of both texts.
fn agreeing(left: &[u8], right: &[u8]) -> usize
    ensures { result ≡ agreeing left.now right.now }
{
    for (i, x) in left.iter().enumerate() {
        if right.len() <= i {
            return i;
        }
        if *x != right[i] {
            return i;
        }
    }
    left.len()
}

// The line in which a text first differs from another.
fn malformed_line(text: &[u8], printed: &[u8]) -> usize
    ensures { result ≡ malformed_line text.now printed.now }
{
    let n = agreeing(text, printed);
    part_count(&text[..n], LF)
}

// By the place of the first value that is not the machine's. Record 0 stands in line 2.
fn judge_values(stray: usize) -> Result<(), ReadRefusal>
    requires { stray ≤ row_count }
    ensures { result ≡ cond (eqb stray row_count) (Ok tt) (Err (ReadRefusal.Stray (stray + 2))) }
{
    if stray == VALUES {
        Ok(())
    } else {
        Err(ReadRefusal::Stray(stray + 2))
    }
}

// The machine judged, and whether it has these values.
fn judge_machine(m: Machine, values: [u64; RECORDS]) -> Result<(), ReadRefusal>
    ensures { result ≡ legal_answer m values }
{
    match legality::judge(m) {
        Ok(()) => judge_values(first_stray(m, values)),
        Err(clause) => Err(ReadRefusal::Illegal(clause)),
    }
}

// The text compared with what its own parts print.
fn compare(text: &[u8], printed: &[u8]) -> Result<(), ReadRefusal>
    ensures { result ≡ text_answer text.now printed.now }
{
    if same(text, printed) {
        return Ok(());
    }
    Err(ReadRefusal::Malformed(malformed_line(text, printed)))
}

// The parts printed, and the text compared with that.
fn judge_text(text: &[u8], edition: u64, at: usize, parts: &Parts) -> Result<(), ReadRefusal>
    requires { (at ≡ gpe_at edition) × (at + 200 < 2 ^ 64) }
    ensures { result ≡ text_answer text.now (text_of edition parts.now) }
{
    let mut printed = [0u8; ROOM];
    let n = parts.text_length(edition, at);
    parts.print(&mut printed, edition, at);
    compare(text, &printed[..n])
}

// The machine where the text is accepted.
fn read_as(answer: Result<(), ReadRefusal>, m: Machine) -> ReadBack
    ensures { result ≡ read_as answer m }
{
    let machine = if answer.is_ok() { m } else { all_zero() };
    ReadBack { answer, machine }
}

// The text judged by its parts, and then the machine of them.
fn read_in(text: &[u8], edition: u64) -> ReadBack
    ensures { result ≡ read_parts edition text.now (parts_in edition text.now) }
{
    let at = gpe_at(edition);
    let parts = Parts::read(text, edition, at);
    let m = parts.machine();
    match judge_text(text, edition, at, &parts) {
        Ok(()) => read_as(judge_machine(m, parts.values), m),
        Err(why) => read_as(Err(why), m),
    }
}

// Reads a machine; a refusal gives the machine all zero.
pub fn read(text: &[u8]) -> ReadBack
    ensures { result ≡ read_of text.now }
{
    let edition = edition_of(line_from(text, 0));
    if edition == 0 {
        return read_as(Err(ReadRefusal::NoEdition), all_zero());
    }
    read_in(text, edition)
}
