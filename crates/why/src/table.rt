// What in the table, or in the platform line, a line of setting up refuses.
use crate::say::{Shown, byte};
use crate::{blocks, words};
use platform::{SetUpRefusal, Settings, is_present};
use std::{fmt, io};

const LENGTH: usize = 4;

const CHECKSUM: usize = 9;

// The event bits and the control bits that have a home.
const EVENT_BITS: u16 = 0xC731;

const CONTROL_BITS: u16 = 0x0007;

// The line's own words stand where the closer look finds nothing, or needs them.
pub(crate) fn closer(
    out: &impl Print,
    refusal: SetUpRefusal,
    table: &[u8],
    line: &[u8],
) -> io::Result<()> {
    let host = script::host(line);
    let settings = fadt::settings(table, host);
    if !in_settings(out, refusal, settings, host.pairs)? {
        print!(out; "{}", words::refusal(refusal))?;
    }
    no_table(out, refusal, table)?;
    println!(out)
}

// Whether something was found in the settings, and said. Lines 1 to 5 are about the table, and line 5 needs no more words.
fn in_settings(
    out: &impl Print,
    refusal: SetUpRefusal,
    s: Settings,
    pairs: [[u8; 2]; 6],
) -> io::Result<bool> {
    match refusal {
        SetUpRefusal::BlockLength | SetUpRefusal::BlockPlace | SetUpRefusal::BlocksOverlap => {
            blocks::first_wrong(out, refusal, platform::blocks(s))
        }
        SetUpRefusal::Gpe1Numbers => {
            blocks::wrong_numbers(out, s.gpe1_base, s.gpe0, s.gpe1)?;
            Ok(true)
        }
        SetUpRefusal::SameCommands => {
            let command = s.acpi_enable;
            print!(out; "ACPI_ENABLE and ACPI_DISABLE are both {command:02X}")?;
            Ok(true)
        }
        SetUpRefusal::WrongHomes => homes(out, s),
        SetUpRefusal::SleepPairs => wrong_pairs(out, pairs, is_present(s.pm1b_cnt)),
        _ => Ok(false),
    }
}

// Lines 1 to 4.
fn no_table(out: &impl Print, refusal: SetUpRefusal, table: &[u8]) -> io::Result<()> {
    let length = table.len();
    match refusal {
        SetUpRefusal::TableShort
        | SetUpRefusal::NoSignature
        | SetUpRefusal::WrongLength
        | SetUpRefusal::WrongSum
            if is_text(table) => { print!(out; ": platform.fadt is text, and a table is binary") }
        SetUpRefusal::TableShort => print!(out; ": platform.fadt has {length}"),
        SetUpRefusal::NoSignature => {
            print!(out; ": they are {}", Shown(table.get(..4).unwrap_or_default()))
        }
        SetUpRefusal::WrongLength => {
            let field = table_length(table);
            print!(out; ": the field is {field}, and platform.fadt has {length}")
        }
        SetUpRefusal::WrongSum => sum(out, table),
        _ => Ok(()),
    }
}

fn table_length(table: &[u8]) -> u32 {
    u32::from_le_bytes([
        byte(table, LENGTH),
        byte(table, LENGTH + 1),
        byte(table, LENGTH + 2),
        byte(table, LENGTH + 3),
    ])
}

fn sum(out: &impl Print, table: &[u8]) -> io::Result<()> {
    let n = table_length(table) as usize;
    let bytes = table.get(..n).unwrap_or_default();
    let total = bytes.iter().fold(0u8, |sum, byte| sum.wrapping_add(*byte));
    let checksum = byte(table, CHECKSUM);
    let right = checksum.wrapping_sub(total);
    print!(out;
        ": they sum to {total:02X} (byte 9, the checksum, is {checksum:02X}, and {right:02X} would be right)"
    )
}

// Nothing but printable characters, tabs and line ends, and at least one.
fn is_text(table: &[u8]) -> bool {
    !table.is_empty() && table.iter().all(|byte| is_letter(*byte))
}

fn is_letter(byte: u8) -> bool {
    matches!(byte, b' '..=b'~' | b'\t' | b'\n' | b'\r')
}

// Line 11.
fn homes(out: &impl Print, s: Settings) -> io::Result<bool> {
    let Settings {
        event_homes,
        control_homes,
        ..
    } = s;
    if outside(EVENT_BITS, event_homes) != 0 {
        strays(out, "EVENT_HOMES", EVENT_BITS, event_homes)?;
        return Ok(true);
    }
    if outside(CONTROL_BITS, control_homes) != 0 {
        strays(out, "CONTROL_HOMES", CONTROL_BITS, control_homes)?;
        return Ok(true);
    }
    if !is_present(s.pm1b_evt) && event_homes != 0 {
        print!(out; "EVENT_HOMES is {event_homes:04X}, and without PM1b_EVT_BLK it is 0")?;
        return Ok(true);
    }
    if !is_present(s.pm1b_cnt) && control_homes != 0 {
        print!(out; "CONTROL_HOMES is {control_homes:04X}, and without PM1b_CNT_BLK it is 0")?;
        return Ok(true);
    }
    Ok(false)
}

fn outside(known: u16, homes: u16) -> u16 {
    bits::clear16(homes, known, 0xFFFF)
}

fn strays(out: &impl Print, name: &str, known: u16, homes: u16) -> io::Result<()> {
    let strays = outside(known, homes);
    print!(out; "{name} is {homes:04X}, and {strays:04X} of it is outside {known:04X}")
}

// Line 12: the first state that has a number above 7, or else the first two that share theirs.
fn wrong_pairs(out: &impl Print, pairs: [[u8; 2]; 6], b_control: bool) -> io::Result<bool> {
    if let Some(state) = first_above(pairs) {
        print!(out; "{state}, and no SLP_TYP is above 7")?;
        return Ok(true);
    }
    let Some((state, later)) = first_shared(pairs, b_control) else {
        return Ok(false);
    };
    print!(out; "{state} and {later}")?;
    if b_control {
        print!(out; ", the same pair")?;
    } else {
        print!(out; ", and without PM1b_CNT_BLK the first digits tell states apart")?;
    }
    Ok(true)
}

// A sleep state and its pair.
#[derive(Clone, Copy, Debug)]
struct State {
    number: usize,
    pair: [u8; 2],
}

// As the platform line has it.
impl fmt::Display for State {
    fn fmt<W: fmt::Write>(&self, f: &mut fmt::Formatter<W>) -> fmt::Result {
        let State { number, pair } = *self;
        let [a, b] = pair;
        write!(f, "S{number} is {a:X}{b:X}")
    }
}

fn first_above(pairs: [[u8; 2]; 6]) -> Option<State> {
    for (number, p) in pairs.iter().enumerate() {
        let pair = *p;
        if !sleep::absent(pair) && (7 < pair[0] || 7 < pair[1]) {
            return Some(State { number, pair });
        }
    }
    None
}

// The first state that shares its pair with a later one, and the first of these.
fn first_shared(pairs: [[u8; 2]; 6], b_control: bool) -> Option<(State, State)> {
    for (number, pair) in pairs.iter().enumerate() {
        let state = State {
            number,
            pair: *pair,
        };
        for (number, pair) in pairs.iter().enumerate().skip(number + 1) {
            let later = State {
                number,
                pair: *pair,
            };
            if share(state.pair, later.pair, b_control) {
                return Some((state, later));
            }
        }
    }
    None
}

fn share(p: [u8; 2], q: [u8; 2], b_control: bool) -> bool {
    !sleep::absent(p) && !sleep::absent(q) && p[0] == q[0] && (!b_control || p[1] == q[1])
}
