// A case: its name and the number that setting up answers, in one line.
use crate::fields::offset;
use crate::numbers::number;
use platform::Host;
use std::io;
use test_tables::{COMMON, NO_STATE, ROOM, SESSION, SESSION_STATES, filled, pairs_of, summing_to};
use text::part;

// What is given to setting up, and what the bytes of the table sum to.
#[derive(Clone, Copy, Debug)]
struct Case {
    table: [u8; ROOM],
    lent: usize,
    sum: u8,
    host: Host,
}

// A case a line.
pub(crate) fn all(out: &impl Print, source: &[u8]) -> io::Result<()> {
    for words in source.split(|byte| *byte == b'\n') {
        if !is_silent(words) {
            let case = read(out, part(words, b':', 1))?;
            lend(out, part(words, b':', 0), case)?;
        }
    }
    Ok(())
}

// An empty line, or one that begins with a slash.
fn is_silent(words: &[u8]) -> bool {
    matches!(words, [] | [b'/', ..])
}

// The worked session, with what each word says.
fn read(out: &impl Print, words: &[u8]) -> io::Result<Case> {
    let mut c = session();
    for word in words.split(|byte| *byte == b' ') {
        c = with_word(out, c, word)?;
    }
    Ok(c)
}

fn session() -> Case {
    Case {
        table: filled(filled([0; ROOM], &COMMON), &SESSION),
        lent: 116,
        sum: 0,
        host: Host {
            event_homes: 0,
            control_homes: 0,
            power_override: false,
            pairs: pairs_of(SESSION_STATES),
        },
    }
}

// A word is a name, = and a value.
fn with_word(out: &impl Print, case: Case, word: &[u8]) -> io::Result<Case> {
    if word.is_empty() {
        return Ok(case);
    }
    let name = part(word, b'=', 0);
    let value = part(word, b'=', 1);
    let mut c = case;
    if let b"states" = name {
        c.host.pairs = pairs_of(states(out, value)?);
        return Ok(c);
    }
    let n = number(out, value)?;
    match name {
        b"lent" => c.lent = n as usize,
        b"sum" => c.sum = (n % 256) as u8,
        b"event_homes" => c.host.event_homes = (n % 65536) as u16,
        b"control_homes" => c.host.control_homes = (n % 65536) as u16,
        b"power_override" => c.host.power_override = n == 1,
        _ => c.table = filled(c.table, &[[offset(out, name)?, n]]),
    }
    Ok(c)
}

// S0 to S5, parted by commas.
fn states(out: &impl Print, value: &[u8]) -> io::Result<[u16; 6]> {
    Ok([
        state(out, part(value, b',', 0))?,
        state(out, part(value, b',', 1))?,
        state(out, part(value, b',', 2))?,
        state(out, part(value, b',', 3))?,
        state(out, part(value, b',', 4))?,
        state(out, part(value, b',', 5))?,
    ])
}

// A pair a.b, or - for an absent state.
fn state(out: &impl Print, value: &[u8]) -> io::Result<u16> {
    if let b"-" = value {
        return Ok(NO_STATE);
    }
    let a = number(out, part(value, b'.', 0))?;
    let b = number(out, part(value, b'.', 1))?;
    Ok((a % 256 * 256 + b % 256) as u16)
}

// The table's first bytes are lent.
fn lend(out: &impl Print, name: &[u8], c: Case) -> io::Result<()> {
    let table = summing_to(c.sum, c.table);
    match table.get(..c.lent) {
        Some(bytes) => answer(out, name, bytes, c.host),
        None => Ok(()),
    }
}

pub(crate) fn answer(out: &impl Print, name: &[u8], table: &[u8], host: Host) -> io::Result<()> {
    let made = machine::set_up(table, host);
    let answer = made.answer;
    out.write_all(name)?;
    println!(out; "\t{}", platform::number(answer))
}
