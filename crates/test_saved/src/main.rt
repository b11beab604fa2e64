// The limits of the saved text, shown: a buffer exactly as long, one short and one longer; and each of 40 to 42 before the next. The text is standard
// input's; for each case its name, the number and the value.
#![tactic(auto)]

ghost use Rattle.std.specs.Prelude.{◌≡◌, length};

use files::LeavesOut;
use std::io;

const ROOM: usize = 1024;

// What stands in a buffer before anything is written.
const FILL: u8 = 0xEE;

// Where the first line has its edition, the first record a digit, and STATE its digit.
const EDITION: usize = 8;

const DIGIT: usize = 18;

const STATE: usize = 677;

// The editions that a text is given: the newest, which is its own; an older one; and one that no reader knows.
const NEWEST: u8 = b'2';

const OLDER: u8 = b'1';

const UNKNOWN: u8 = b'3';

// What a text is given: an edition; a letter that is no digit; state 9.
#[derive(Clone, Copy, Debug)]
struct Damage {
    edition: u8,
    malformed: bool,
    illegal: bool,
}

fn empty() -> [u8; ROOM]
    ensures { 1024 ≡ length result }
{
    [FILL; ROOM]
}

fn main(rt: HostRuntime) {
    let mut text = empty();
    let n = files::read_full(&mut rt.stdin(), &mut text);
    let _ = all(&LeavesOut(&rt), &text[..n]);
}

fn all(out: &impl Print, text: &[u8]) -> io::Result<()> {
    room(out, "a buffer one short", text, 1)?;
    room(out, "a buffer exactly as long", text, 0)?;
    room(out, "no buffer", text, ROOM)?;
    let whole = Damage {
        edition: NEWEST,
        malformed: false,
        illegal: false,
    };
    answer(out, "nothing wrong", text, whole)?;
    let illegal = Damage {
        illegal: true,
        ..whole
    };
    answer(out, "illegal", text, illegal)?;
    let malformed = Damage {
        malformed: true,
        ..whole
    };
    answer(out, "malformed", text, malformed)?;
    let both = Damage {
        illegal: true,
        ..malformed
    };
    answer(out, "malformed and illegal", text, both)?;
    let in_edition = |edition: u8, d: Damage| Damage { edition, ..d };
    let older = in_edition(OLDER, whole);
    answer(out, "a record that edition 1 does not have", text, older)?;
    let unknown = in_edition(UNKNOWN, whole);
    answer(out, "no known edition", text, unknown)?;
    let unknown = in_edition(UNKNOWN, illegal);
    answer(out, "no known edition, and illegal", text, unknown)?;
    let unknown = in_edition(UNKNOWN, both);
    answer(
        out,
        "no known edition, malformed and illegal",
        text,
        unknown,
    )
}

fn line(out: &impl Print, name: &str, number: u8, value: u64) -> io::Result<()> {
    println!(out; "{name}\t{number}\t{value}")
}

// The text's machine into a buffer that is so many bytes short of it, the start of a longer one; then the byte at the start, the one that would be the
// text's last, and the one after it.
fn room(out: &impl Print, name: &str, text: &[u8], short: usize) -> io::Result<()> {
    let mut buf = empty();
    let n = text.len();
    let room = n.saturating_sub(short).min(ROOM);
    write(out, name, text, &mut buf[..room])?;
    byte(out, "  first", &buf, 0)?;
    byte(out, "  last", &buf, n.saturating_sub(1))?;
    byte(out, "  past it", &buf, n)
}

fn write(out: &impl Print, name: &str, text: &[u8], buf: &mut [u8]) -> io::Result<()> {
    let back = saved::read(text);
    let m = back.machine;
    let answer = saved::write(m, buf);
    line(
        out,
        name,
        saved::written_number(answer),
        saved::written_value(answer),
    )
}

fn byte(out: &impl Print, name: &str, buf: &[u8], i: usize) -> io::Result<()> {
    match buf.get(i) {
        Some(&FILL) => println!(out; "{name}\tas it was"),
        Some(_) => println!(out; "{name}\twritten"),
        None => print!(out; "{name}"),
    }
}

// What the text is answered with this damage.
fn answer(out: &impl Print, name: &str, text: &[u8], damage: Damage) -> io::Result<()> {
    let mut buf = empty();
    text::write_text(&mut buf, 0, text);
    text::write_byte(&mut buf, EDITION, damage.edition);
    if damage.malformed {
        text::write_byte(&mut buf, DIGIT, b'G');
    }
    if damage.illegal {
        text::write_byte(&mut buf, STATE, b'9');
    }
    read(out, name, buf.get(..text.len()).unwrap_or_default())
}

fn read(out: &impl Print, name: &str, text: &[u8]) -> io::Result<()> {
    let back = saved::read(text);
    let answered = back.answer;
    line(
        out,
        name,
        saved::read_number(answered),
        saved::read_value(answered),
    )
}
