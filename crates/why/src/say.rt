// Bytes and numbers as a message shows them.
use std::{fmt, io};

// No more of a text is shown.
const MOST: usize = 40;

pub(crate) fn say(out: &impl Print, text: &[u8]) -> io::Result<()> {
    out.write_all(text)
}

// A byte of the text; zero past its end.
pub(crate) fn byte(text: &[u8], i: usize) -> u8 {
    text.get(i).copied().unwrap_or(0)
}

// A port, or what an address of 32 bits and a length add up to: as few digits as show it up to five, else 8 or 16.
#[derive(Clone, Copy, Debug)]
pub(crate) struct Port(pub(crate) u64);

impl fmt::Display for Port {
    fn fmt<W: fmt::Write>(&self, f: &mut fmt::Formatter<W>) -> fmt::Result {
        let n = self.0;
        if n < 0x100000 {
            write!(f, "{n:X}")
        } else if n < 0x100000000 {
            write!(f, "{n:08X}")
        } else {
            write!(f, "{n:016X}")
        }
    }
}

// A text as it stands, cut where it is long; a byte that is no printable character by its number.
#[derive(Clone, Copy, Debug)]
pub(crate) struct Shown<'a>(pub(crate) &'a [u8]);

impl fmt::Display for Shown<'_> {
    fn fmt<W: fmt::Write>(&self, f: &mut fmt::Formatter<W>) -> fmt::Result {
        for byte in self.0.iter().take(MOST) {
            glyph(f, *byte)?;
        }
        if MOST < self.0.len() {
            return f.write_str("..");
        }
        Ok(())
    }
}

fn glyph<W: fmt::Write>(f: &mut fmt::Formatter<W>, byte: u8) -> fmt::Result {
    match byte {
        b' '..=b'~' => f.write_char(char::from(byte)),
        _ => write!(f, "\\x{byte:02X}"),
    }
}
