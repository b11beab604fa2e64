// The table of the records, and what each of them says.
ghost use Rattle.std.specs.Prelude.{◌≡◌, ◌+◌, ◌≤◌, ◌<◌, ◌^◌, length, drop};
ghost use Rattle.std.proofs.lemmas.List.Edits.{sets};
ghost use Rattle.records.specs.Rows.{form_numbered};
ghost use Rattle.records.specs.Records.{
  command_of,
  formed,
  record_text,
  text_in,
  is_in,
  record_length,
  length_in,
  value_in,
  read_in,
};

use crate::parts::part_at;
use text::{hex_value, write_byte, write_hex, write_text};

const TAB: u8 = 9;

const LF: u8 = 10;

// The forms of a value: hex digits; a flag, 0 or 1; a command, 000, or 1 and the byte.
#[derive(Clone, Copy, Debug, PartialEq, Eq)]
pub enum Form {
    Hex,
    Flag,
    Command,
}

// A form's number; every further number is hex digits too.
impl From<u8> for Form {
    ghost from_gives = { λ n form. form ≡ form_numbered n };

    #[tactic(auto, unfolding(crate::specs::Rows::form_numbered))]
    fn from(n: u8) -> Form {
        match n {
            1 => Form::Flag,
            2 => Form::Command,
            _ => Form::Hex,
        }
    }
}

// A record: its name, its form, how many hex digits its value has, the edition since which it is there, and its power-on setting, with which an older
// text reads.
#[derive(Clone, Copy)]
pub(crate) struct Record {
    name: &'static [u8],
    form: Form,
    width: usize,
    since: u64,
    initial: u64,
    ghost short: { (length name.now ≤ 16) × (width ≤ 16) },
}

// A record that an edition added.
macro_rules! added {
    ($name:literal, $form:ident, $width:literal, $since:literal, $initial:literal) => {
        Record {
            name: $name,
            form: Form::$form,
            width: $width,
            since: $since,
            initial: $initial,
        }
    };
}

// A record of the first edition.
macro_rules! row {
    ($name:literal, $form:ident, $width:literal) => {
        added!($name, $form, $width, 1, 0)
    };
}

// How many records have a number.
pub const RECORDS: usize = 43;

pub(crate) const TABLE: [Record; RECORDS] = [
    row!(b"SMI_CMD", Hex, 16),
    row!(b"ACPI_ENABLE", Hex, 2),
    row!(b"ACPI_DISABLE", Hex, 2),
    row!(b"PM1a_EVT_BLK", Hex, 16),
    row!(b"PM1b_EVT_BLK", Hex, 16),
    row!(b"PM1a_CNT_BLK", Hex, 16),
    row!(b"PM1b_CNT_BLK", Hex, 16),
    row!(b"PM2_CNT_BLK", Hex, 16),
    row!(b"PM_TMR_BLK", Hex, 16),
    row!(b"GPE0_BLK", Hex, 16),
    row!(b"GPE1_BLK", Hex, 16),
    row!(b"PM1_EVT_LEN", Hex, 2),
    row!(b"PM1_CNT_LEN", Hex, 2),
    row!(b"PM2_CNT_LEN", Hex, 2),
    row!(b"PM_TMR_LEN", Hex, 2),
    row!(b"GPE0_BLK_LEN", Hex, 2),
    row!(b"GPE1_BLK_LEN", Hex, 2),
    row!(b"GPE1_BASE", Hex, 2),
    row!(b"FLAGS", Hex, 8),
    row!(b"EVENT_HOMES", Hex, 4),
    row!(b"CONTROL_HOMES", Hex, 4),
    row!(b"OVERRIDE", Flag, 1),
    row!(b"S0", Hex, 4),
    row!(b"S1", Hex, 4),
    row!(b"S2", Hex, 4),
    row!(b"S3", Hex, 4),
    row!(b"S4", Hex, 4),
    row!(b"S5", Hex, 4),
    row!(b"PM1a_STS", Hex, 4),
    row!(b"PM1b_STS", Hex, 4),
    row!(b"PM1a_EN", Hex, 4),
    row!(b"PM1b_EN", Hex, 4),
    row!(b"PM1a_CNT", Hex, 4),
    row!(b"PM1b_CNT", Hex, 4),
    row!(b"PM2_CNT", Hex, 2),
    row!(b"PM_TMR", Hex, 8),
    row!(b"HOLD", Hex, 8),
    row!(b"BUTTON", Flag, 1),
    row!(b"COMMAND", Command, 3),
    row!(b"RELEASE", Flag, 1),
    row!(b"ARMED", Flag, 1),
    row!(b"STATE", Hex, 1),
    added!(b"WAKE_PIN", Flag, 1, 2, 0),
];

impl Form {
    #[tactic(auto, unfolding(crate::specs::Records::formed))]
    fn of(self, v: u64) -> u64
        ensures { result ≡ formed self v }
    {
        match self {
            Form::Hex => v,
            Form::Flag => v % 2,
            Form::Command => command_of(v),
        }
    }
}

// What a form, given as it is or by its number, writes of a value.
pub fn formed<F: Into<Form>>(form: F, v: u64) -> u64
    ensures { (is : Form) × F.converts form is × (result ≡ formed is v) }
{
    form.into().of(v)
}

// A waiting command: none, or 1 and the byte.
#[tactic(auto, unfolding(crate::specs::Records::command_of))]
fn command_of(v: u64) -> u64
    ensures { result ≡ command_of v }
{
    if v / 256 % 2 == 1 { 256 + v % 256 } else { 0 }
}

impl Record {
    ghost use Rattle.records.specs.Table.{row_of};

    fn is_in(&self, edition: u64) -> bool
        ensures { result ≡ is_in edition (row_of self.now) }
    {
        self.since <= edition
    }

    fn length(&self) -> usize
        ensures { result ≡ record_length (row_of self.now) }
    {
        self.name.len() + 1 + self.width + 1
    }

    pub(crate) fn length_in(&self, edition: u64) -> usize
        ensures { result ≡ length_in edition (row_of self.now) }
    {
        if self.is_in(edition) {
            self.length()
        } else {
            0
        }
    }

    // The record, if the edition has it; the answer is how many bytes that is.
    pub(crate) fn write_in(&self, buf: &mut [u8], at: usize, edition: u64, v: u64) -> usize
        requires { at + record_length (row_of self.now) < 2 ^ 64 }
        ensures { (result ≡ length_in edition (row_of self.now)) × (buf.new ≡ sets buf.old at (text_in edition (row_of self.now) v)) }
    {
        if self.is_in(edition) {
            return self.write(buf, at, v);
        }
        0
    }

    fn write(&self, buf: &mut [u8], at: usize, v: u64) -> usize
        requires { at + record_length (row_of self.now) < 2 ^ 64 }
        ensures { (result ≡ record_length (row_of self.now)) × (buf.new ≡ sets buf.old at (record_text (row_of self.now) v)) }
    {
        let tab = at + self.write_name(buf, at);
        let digits = tab + 1;
        write_byte(buf, tab, TAB);
        write_hex(buf, digits, formed(self.form, v), self.width);
        write_byte(buf, digits + self.width, LF);
        self.length()
    }

    // The name; the answer is its length.
    pub(crate) fn write_name(&self, buf: &mut [u8], at: usize) -> usize
        ensures { (result ≡ length (row_of self.now).name) × (buf.new ≡ sets buf.old at (row_of self.now).name) }
    {
        write_text(buf, at, self.name);
        self.name.len()
    }

    // What the record reads as, if the edition has it, and else its power-on setting.
    pub(crate) fn read_in(&self, text: &[u8], from: usize, edition: u64) -> u64
        requires { from + record_length (row_of self.now) < 2 ^ 64 }
        ensures { result ≡ read_in edition (row_of self.now) (drop from text.now) }
    {
        if self.is_in(edition) {
            return self.read(text, from);
        }
        self.initial
    }

    // 0 where no number stands.
    fn read(&self, text: &[u8], from: usize) -> u64
        requires { from + record_length (row_of self.now) < 2 ^ 64 }
        ensures { result ≡ value_in (row_of self.now) (drop from text.now) }
    {
        let digits = from + self.name.len() + 1;
        hex_value(part_at(text, digits, self.width)).unwrap_or(0)
    }
}
