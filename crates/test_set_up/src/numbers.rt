// Numbers in a case: decimal, or hex after 0x.
use std::io;

// What does not read is written out, and the output is then not what is expected.
fn unread(out: &impl Print, word: &[u8]) -> io::Result<()> {
    print!(out; "unread ")?;
    out.write_all(word)?;
    println!(out)
}

pub(crate) fn number(out: &impl Print, digits: &[u8]) -> io::Result<u32> {
    match digits {
        [] => unread(out, b"nothing")?,
        [_, b'x', _, ..] => return hex(out, &digits[2..]),
        _ => {}
    }
    decimal(out, digits)
}

fn hex(out: &impl Print, digits: &[u8]) -> io::Result<u32> {
    let read = text::hex_value(digits);
    if read.is_none() {
        unread(out, digits)?;
    }
    let n = read.unwrap_or(0);
    if 0xFFFFFFFF < n {
        unread(out, digits)?;
    }
    Ok((n % 0x100000000) as u32)
}

fn decimal(out: &impl Print, digits: &[u8]) -> io::Result<u32> {
    let mut n: u32 = 0;
    for byte in digits {
        let digit = text::digit_of(*byte).unwrap_or(16);
        if 9 < digit {
            unread(out, digits)?;
        }
        if n < 100000000 {
            n = n * 10 + u32::from(digit);
        } else {
            unread(out, digits)?;
        }
    }
    Ok(n)
}
