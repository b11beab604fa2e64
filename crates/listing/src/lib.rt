// The lines of a listing, written into a lent buffer.
#![tactic(auto)]

ghost use Rattle.std.specs.Prelude.{◌≡◌, [], ◌∷◌, ◌++◌, ◌+◌, ◌^◌, ◌<◌};
ghost use Rattle.std.proofs.lemmas.List.Edits.{sets};
ghost use Rattle.text.specs.Numbers.{digits, digit_count};
ghost use Rattle.text.specs.Parts.{tab, lf};
ghost use Rattle.listing.specs.Entry.{header, decimal, flag, state_digit, state_text, tail, entry_of, text_of, entry, entry_length, put_at};

use bits::pick;
use machine::Machine;
use model::Answer;
use text::{decimal_digits, write_byte, write_decimal, write_hex};

const TAB: u8 = 9;

const LF: u8 = 10;

// A decimal number and a tab.
fn put_decimal(buf: &mut [u8], at: usize, n: u64)
    requires { at + digit_count 10 n < 2 ^ 64 }
    ensures { buf.new ≡ sets buf.old at (decimal n ++ (tab ∷ [])) }
{
    let width = decimal_digits(n);
    write_decimal(buf, at, n, width);
    write_byte(buf, at + width, TAB);
}

// The value and a tab.
fn put_value(buf: &mut [u8], at: usize, value: u32)
    requires { at + 8 < 2 ^ 64 }
    ensures { buf.new ≡ sets buf.old at (digits 16 8 value ++ (tab ∷ [])) }
{
    write_hex(buf, at, value as u64, 8);
    write_byte(buf, at + 8, TAB);
}

// SCI or SMI, and a tab.
fn put_flag(buf: &mut [u8], at: usize, up: bool)
    requires { at + 1 < 2 ^ 64 }
    ensures { buf.new ≡ sets buf.old at (flag up ++ (tab ∷ [])) }
{
    write_decimal(buf, at, pick(up, 1, 0), 1);
    write_byte(buf, at + 1, TAB);
}

// The digit of S0 to S5; a number that is no state shows as a question mark.
fn state_digit(state: u8) -> u8
    ensures { result ≡ state_digit state }
{
    if state <= 5 { 48 + state } else { b'?' }
}

// The state and the line's end.
fn put_state(buf: &mut [u8], at: usize, state: u8)
    requires { at + 2 < 2 ^ 64 }
    ensures { buf.new ≡ sets buf.old at (state_text state ++ (lf ∷ [])) }
{
    let digit = state_digit(state);
    write_byte(buf, at, 83);
    write_byte(buf, at + 1, digit);
    write_byte(buf, at + 2, LF);
}

// What a line says: the step's number, its answer's number and value, and SCI, SMI and the state after it.
#[derive(Clone, Copy, Debug, PartialEq, Eq)]
struct Entry {
    step: u64,
    number: u64,
    value: u32,
    sci: bool,
    smi: bool,
    state: u8,
}

impl Entry {
    fn new(step: u64, answer: Answer, m: Machine) -> Entry
        ensures { result ≡ entry_of step answer m }
    {
        Entry {
            step,
            number: model::number(answer) as u64,
            value: model::value(answer),
            sci: machine::sci(m),
            smi: machine::smi(m),
            state: m.state,
        }
    }

    // From the value on.
    fn put_tail(self, buf: &mut [u8], at: usize)
        requires { at + 16 < 2 ^ 64 }
        ensures { buf.new ≡ sets buf.old at (tail self.value self.sci self.smi self.state) }
    {
        put_value(buf, at, self.value);
        put_flag(buf, at + 9, self.sci);
        put_flag(buf, at + 11, self.smi);
        put_state(buf, at + 13, self.state);
    }

    // All of it; the second and the third field begin at these places.
    fn put_fields(self, buf: &mut [u8], at: usize, second: usize, third: usize)
        requires { (second ≡ at + (digit_count 10 self.step + 1)) × (third ≡ second + (digit_count 10 self.number + 1)) × (third + 16 < 2 ^ 64) }
        ensures { buf.new ≡ sets buf.old at (text_of self) }
    {
        put_decimal(buf, at, self.step);
        put_decimal(buf, second, self.number);
        self.put_tail(buf, third);
    }

    fn put(self, buf: &mut [u8], at: usize)
        requires { at + (digit_count 10 self.step + digit_count 10 self.number + 18) < 2 ^ 64 }
        ensures { buf.new ≡ sets buf.old at (text_of self) }
    {
        let second = at + (decimal_digits(self.step) + 1);
        let third = second + (decimal_digits(self.number) + 1);
        self.put_fields(buf, at, second, third);
    }
}

pub fn entry_length(k: u64, answer: Answer) -> usize
    ensures { result ≡ entry_length k answer }
{
    decimal_digits(k) + decimal_digits(model::number(answer) as u64) + 18
}

// The line of a step, where it fits; else nothing is written.
pub fn write_entry(buf: &mut [u8], at: usize, k: u64, answer: Answer, m: Machine)
    ensures { buf.new ≡ put_at buf.old at (entry k answer m) }
{
    let room = buf.len();
    if at <= room {
        if entry_length(k, answer) <= room - at {
            Entry::new(k, answer, m).put(buf, at);
        }
    }
}

pub const HEADER_LENGTH: usize = 32;

// The header, at the buffer's start.
pub fn write_header(buf: &mut [u8])
    ensures { buf.new ≡ sets buf.old 0 header }
{
    text::write_text(buf, 0, b"step\tanswer\tvalue\tsci\tsmi\tstate\n");
}
