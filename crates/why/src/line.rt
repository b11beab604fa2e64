// A line that does not read. Each sentence is a fact that keeps such a line from reading; where none is found, it is only said that it does not.
use crate::nearest::{first_field, nearest};
use crate::say::Shown;
use session::LIMIT;
use std::str::from_utf8;
use std::{fmt, io};
use text::{field, field_count, hex_value, line_from, next_line, part_count};

const TAB: u8 = b'\t';

const PLATFORM: &str = "platform EVENT_HOMES CONTROL_HOMES OVERRIDE S0 S1 S2 S3 S4 S5";

// The forms of the steps, each with its fields parted by spaces.
const STEPS: [&str; 13] = [
    "r PORT WIDTH",
    "w PORT WIDTH DATA",
    "press",
    "release",
    "sleep",
    "alarm",
    "pin LEVEL",
    "master",
    "unlock",
    "event N",
    "tick N",
    "take",
    "drop",
];

// The start of a line, counted from 1.
fn line_start(source: &[u8], line: usize) -> usize {
    let mut start = 0;
    for _ in 1..line {
        start = next_line(source, start);
    }
    start
}

pub(crate) fn platform_unread(out: &impl Print, source: &[u8]) -> io::Result<()> {
    print!(out; "line 1")?;
    if let Some(fault) = first_fault(source, 0) {
        return println!(out; "{fault}");
    }
    let line = line_from(source, 0);
    match field(line, 0) {
        b"platform" => against(out, line, PLATFORM),
        word => {
            let word = Shown(word);
            println!(out;
                ", field 1: {word} stands where platform is due (the first line is the platform line)"
            )
        }
    }
}

// after_platform: the script has a platform line, its first.
pub(crate) fn step_unread(
    out: &impl Print,
    source: &[u8],
    line: usize,
    after_platform: bool,
) -> io::Result<()> {
    print!(out; "line {line}")?;
    let start = line_start(source, line);
    if let Some(fault) = first_fault(source, start) {
        return println!(out; "{fault}");
    }
    let bytes = line_from(source, start);
    match field(bytes, 0) {
        b"platform" if after_platform => {
            println!(out; ", field 1: a second platform line (only the first line is one)")
        }
        b"platform" => {
            println!(out;
                ", field 1: a platform line (steps that go on from a saved text have none)"
            )
        }
        word => step(out, bytes, word),
    }
}

// What keeps any line from reading.
#[derive(Clone, Copy, Debug)]
enum Fault {
    PastLimit,
    EmptyScript,
    EmptyLine,
    ByteOrderMark,
    Comment(u8),
    TabAtStart,
    CrAtEnd,
    // in this field, counted from 1, a byte that no line has
    Odd(usize, u8),
}

impl fmt::Display for Fault {
    fn fmt<W: fmt::Write>(&self, f: &mut fmt::Formatter<W>) -> fmt::Result {
        match *self {
            Fault::PastLimit => write!(
                f,
                ": it passes byte 65,536, where a script ends at the latest"
            ),
            Fault::EmptyScript => write!(f, ": the script is empty"),
            Fault::EmptyLine => write!(f, ": it is empty"),
            Fault::ByteOrderMark => write!(
                f,
                ": a byte order mark stands at its start (sed -i '1s/^\\xEF\\xBB\\xBF//' FILE takes it out)"
            ),
            Fault::Comment(byte) => {
                let sign = char::from(byte);
                write!(f, ": it begins with {sign} (a script has no comments)")
            }
            Fault::TabAtStart => write!(
                f,
                ", field 1: it is empty (a tab stands at the line's start)"
            ),
            Fault::CrAtEnd => write!(
                f,
                ": CR stands at its end (sed -i 's/\\r$//' FILE takes it out of every line)"
            ),
            Fault::Odd(n, b' ') => write!(
                f,
                ", field {n}: a space stands in it (one tab parts two fields)"
            ),
            Fault::Odd(n, b'\r') => write!(f, ", field {n}: CR stands in it (lines end in LF)"),
            Fault::Odd(n, byte) => write!(
                f,
                ", field {n}: the byte {byte:02X} stands in it (a script is ASCII text)"
            ),
        }
    }
}

fn first_fault(source: &[u8], start: usize) -> Option<Fault> {
    if LIMIT < next_line(source, start) {
        return Some(Fault::PastLimit);
    }
    if source.is_empty() {
        return Some(Fault::EmptyScript);
    }
    let line = line_from(source, start);
    if line.starts_with(b"\xEF\xBB\xBF") {
        return Some(Fault::ByteOrderMark);
    }
    match line.first() {
        None => return Some(Fault::EmptyLine),
        Some(b'\t') => return Some(Fault::TabAtStart),
        Some(sign @ (b'#' | b'/' | b';')) => return Some(Fault::Comment(*sign)),
        Some(_) => {}
    }
    if ends_in_cr(line) {
        return Some(Fault::CrAtEnd);
    }
    for (at, byte) in line.iter().enumerate() {
        if is_odd(*byte) {
            return Some(Fault::Odd(part_count(&line[..at], TAB), *byte));
        }
    }
    None
}

// CR at the end, and at no other place.
fn ends_in_cr(line: &[u8]) -> bool {
    match line.strip_suffix(b"\r") {
        Some(rest) => !rest.contains(&b'\r'),
        None => false,
    }
}

// Neither a tab nor a printable character beside the space.
fn is_odd(byte: u8) -> bool {
    !matches!(byte, TAB | b'!'..=b'~')
}

// A step that is a word alone, also one that the forms do not have.
fn stands_alone(word: &[u8]) -> bool {
    script::line_of(word).is_some()
}

fn step(out: &impl Print, line: &[u8], word: &[u8]) -> io::Result<()> {
    let near = nearest(&STEPS, word);
    if let Some(form) = near {
        if first_field(form).as_bytes() == word {
            return against(out, line, form);
        }
    }
    if stands_alone(word) {
        if let Ok(form) = from_utf8(word) {
            return against(out, line, form);
        }
    }
    print!(out; ", field 1: {} is no word", Shown(word))?;
    match word {
        b"read" => println!(out; " (write r)"),
        b"write" => println!(out; " (write w)"),
        b"wake" => {
            println!(out;
                " (the wake pin is a level: write pin and 1, or pin and 0, with a tab between)"
            )
        }
        _ => match near {
            Some(form) => println!(out; " (the nearest is {})", first_field(form)),
            None => println!(out),
        },
    }
}

// The line's word is the form's: the first field that the form asks for and the line does not have, missing or other than it is to be; or one too many.
fn against(out: &impl Print, line: &[u8], form: &str) -> io::Result<()> {
    let there = field_count(line);
    for (n, name) in form.split(' ').enumerate().skip(1) {
        if there <= n {
            return println!(out; ": {name} is missing ({form})");
        }
        let value = field(line, n);
        if !reads(Kind::of(name), value) {
            print!(out; ", field {}: ", n + 1)?;
            return value_wrong(out, name, value);
        }
    }
    let due = form.split(' ').count();
    if there <= due {
        return println!(out; " does not read");
    }
    print!(out; ", field {}: ", due + 1)?;
    if field(line, due).is_empty() {
        println!(out; "it is empty (a tab too many)")
    } else {
        println!(out; "a field too many ({form})")
    }
}

// What a field takes.
#[derive(Clone, Copy, Debug)]
enum Kind {
    // one digit, 0 or 1: the override, and the wake pin's level
    Flag,
    // a sleep state: -, or two hex digits
    State,
    // in hex, at most this
    Number(u64),
}

impl Kind {
    // By the field's name in a form.
    fn of(name: &str) -> Kind {
        match name {
            "OVERRIDE" | "LEVEL" => Kind::Flag,
            "S0" | "S1" | "S2" | "S3" | "S4" | "S5" => Kind::State,
            "EVENT_HOMES" | "CONTROL_HOMES" => Kind::Number(0xFFFF),
            "WIDTH" | "N" => Kind::Number(0xFFFFFFFF),
            _ => Kind::Number(0xFFFFFFFFFFFFFFFF),
        }
    }
}

fn reads(kind: Kind, value: &[u8]) -> bool {
    match kind {
        Kind::Flag => matches!(value, b"0" | b"1"),
        Kind::State => matches!(value, b"-") || (value.len() == 2 && hex_value(value).is_some()),
        Kind::Number(most) => hex_value(value).is_some_and(|n| n <= most),
    }
}

fn value_wrong(out: &impl Print, name: &str, value: &[u8]) -> io::Result<()> {
    if value.is_empty() {
        return println!(out; "{name} is empty (one tab parts two fields)");
    }
    let shown = Shown(value);
    match Kind::of(name) {
        Kind::Flag => println!(out; "{shown} is no {name} (write 0 or 1)"),
        Kind::State => {
            println!(out;
                "{shown} is no {name} (write - or two hex digits, the SLP_TYP of block A and of block B)"
            )
        }
        Kind::Number(most) if hex_value(value).is_some() => {
            println!(out; "{shown} does not fit {name} (at most {most:X})")
        }
        Kind::Number(_) => no_number(out, value),
    }
}

fn no_number(out: &impl Print, value: &[u8]) -> io::Result<()> {
    let shown = Shown(value);
    let Some(at) = value.iter().position(|b| !b.is_ascii_hexdigit()) else {
        return println!(out;
            "{shown} has {} digits (a number has 16 at most)",
            value.len()
        );
    };
    print!(out; "{shown} is no hex number")?;
    let (digits, rest) = value.split_at(at);
    match (value, rest) {
        ([b'0', b'x' | b'X', meant @ ..], _) => instead(out, meant),
        (_, b"h" | b"H") => instead(out, digits),
        (_, _) => println!(out; " ({} is no hex digit)", Shown(&rest[..1])),
    }
}

// What to write, where it is a number.
fn instead(out: &impl Print, digits: &[u8]) -> io::Result<()> {
    if hex_value(digits).is_some() {
        print!(out; " (write {})", Shown(digits))?;
    }
    println!(out)
}
