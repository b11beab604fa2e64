// What the programs read and write: a file or standard input up to the end of a buffer, and bytes. Nothing is allocated, and no failure is an error: a read
// that fails ends the input, and what cannot be written is left out.
#![tactic(auto)]

ghost use Rattle.std.specs.Prelude.{◌≡◌, ◌<◌, length, take, true, Ok, OnErr, IfOk, IfSome};
ghost use Rattle.std.specs.Io.{StartsWith};
ghost use Rattle.std.specs.Io.KnownBytes.{Consumes, IsAtEnd};
ghost use Rattle.files.specs.Counts.{IsPrefixLen};

use std::fmt::Display;
use std::io;
use std::io::Read;

// As much as is read of a table, and more than the longest list of cases.
pub fn large_buffer() -> [u8; 65536]
    ensures { 65536 ≡ length result }
{
    [0; 65536]
}

// Reads until the buffer is full, the input ends or a read fails, and returns how many bytes it put at the buffer's start. No index is counted:
// each read says how far it comes.
pub fn read_full<R: Read>(reader: &mut R, buf: &mut [u8]) -> usize
    ensures in_bounds { IsPrefixLen result buf.new }
    ensures bytes { Consumes (R.remaining reader.old) (R.remaining reader.new) (take result buf.new) }
{
    let mut done = 0;
    while done < buf.len() {
        let n = read_some(reader, &mut buf[done..]);
        if n == 0 {
            break;
        }
        done += n;
    }
    done
}

// One read; a read that fails gives no byte.
fn read_some<R: Read>(reader: &mut R, buf: &mut [u8]) -> usize
    ensures in_bounds { IsPrefixLen result buf.new }
    ensures bytes { Consumes (R.remaining reader.old) (R.remaining reader.new) (take result buf.new) }
{
    reader.read(buf).unwrap_or(0)
}

// Whether nothing is left to read. A read that fails does not show it.
pub fn is_at_end<R: Read>(reader: &mut R) -> bool
    ensures { result ≡ true → IsAtEnd (R.remaining reader.old) }
{
    let mut next = [0u8; 1];
    matches!(reader.read(&mut next), Ok(0))
}

// Reads what was opened, as `read_full` does; what did not open has no byte.
pub fn read_opened<R: Read + Drop>(opened: io::Result<R>, buf: &mut [u8]) -> usize
    ensures in_bounds { IsPrefixLen result buf.new }
    ensures missing { OnErr opened (result ≡ 0) }
    ensures bytes { IfOk opened (λ r. IfSome (R.remaining r) (λ xs. StartsWith xs (take result buf.new))) }
{
    match opened {
        Ok(mut reader) => read_full(&mut reader, buf),
        Err(_) => 0,
    }
}

// Reads as `read_full` does. `None` where the buffer is not full and the input is not at its end: it goes on, or cannot be read.
pub fn read_whole<R: Read>(reader: &mut R, buf: &mut [u8]) -> Option<usize>
    ensures in_bounds { IfSome result (λ n. IsPrefixLen n buf.new) }
    ensures bytes { IfSome result (λ n. IfSome (R.remaining reader.old) (λ xs. StartsWith xs (take n buf.new))) }
    ensures whole { IfSome result (λ n. n < length buf.new → IfSome (R.remaining reader.old) (λ xs. xs ≡ take n buf.new)) }
{
    let n = read_full(reader, buf);
    if n < buf.len() && !is_at_end(reader) {
        return None;
    }
    Some(n)
}

// Prints as what it holds does, but for a write that fails, which is no error: what it cannot write is left out, and what comes after it is tried.
#[derive(Drop)]
pub struct LeavesOut<'a, P: Print>(pub &'a P);

impl<'a, P: Print> Print for LeavesOut<'a, P> {
    fn print<D: Display + Drop>(&self, value: D) -> io::Result<()>
        ensures { result ≡ Ok tt }
    {
        let _ = self.0.print(value);
        Ok(())
    }

    fn println<D: Display + Drop>(&self, value: D) -> io::Result<()>
        ensures { result ≡ Ok tt }
    {
        let _ = self.0.println(value);
        Ok(())
    }

    fn write_all(&self, bytes: &[u8]) -> io::Result<()>
        ensures { result ≡ Ok tt }
    {
        let _ = self.0.write_all(bytes);
        Ok(())
    }
}

// Writes the bytes out, or as many as can be written. No clause can name what an output shows: the methods of `Print` have none. Over a writer whose bytes
// a clause names, this is std's `Write::write_all`, which has one.
pub fn say(out: &impl Print, text: &[u8]) {
    let _ = out.write_all(text);
}

#[cfg(test)]
mod tests {
    use super::*;
    use std::io::ErrorKind;
    use std::test::Fail;

    // Gives one byte, and then fails.
    #[derive(Drop)]
    struct Failing {
        is_spent: bool,
    }

    impl Read for Failing {
        fn read(&mut self, buf: &mut [u8]) -> io::Result<usize> {
            if self.is_spent {
                return Err(io::Error::from(ErrorKind::Other));
            }
            self.is_spent = true;
            match buf.first_mut() {
                Some(first) => {
                    *first = 7;
                    Ok(1)
                }
                None => Ok(0),
            }
        }
    }

    #[test]
    fn reads_to_the_end(rt: HostRuntime) -> Result<(), Fail> {
        let mut reader: &[u8] = b"abc";
        let mut buf = [0u8; 5];
        assert_eq!(rt; read_full(&mut reader, &mut buf), 3);
        assert_eq!(rt; &buf, b"abc\0\0");
        assert!(rt; is_at_end(&mut reader));
        Ok(())
    }

    #[test]
    fn stops_where_the_buffer_is_full(rt: HostRuntime) -> Result<(), Fail> {
        let mut reader: &[u8] = b"abc";
        let mut buf = [0u8; 2];
        assert_eq!(rt; read_full(&mut reader, &mut buf), 2);
        assert_eq!(rt; &buf, b"ab");
        assert!(rt; !is_at_end(&mut reader));
        Ok(())
    }

    #[test]
    fn a_read_that_fails_ends_the_input(rt: HostRuntime) -> Result<(), Fail> {
        let mut reader = Failing { is_spent: false };
        let mut buf = [0u8; 3];
        assert_eq!(rt; read_full(&mut reader, &mut buf), 1);
        assert_eq!(rt; &buf, b"\x07\0\0");
        assert!(rt; !is_at_end(&mut reader));
        Ok(())
    }

    #[test]
    fn a_whole_input_ends_or_fills_the_buffer(rt: HostRuntime) -> Result<(), Fail> {
        let mut reader: &[u8] = b"abc";
        let mut buf = [0u8; 3];
        assert_eq!(rt; read_whole(&mut reader, &mut buf), Some(3));
        let mut failing = Failing { is_spent: false };
        assert_eq!(rt; read_whole(&mut failing, &mut buf), None);
        Ok(())
    }

    #[test]
    fn what_does_not_open_has_no_byte(rt: HostRuntime) -> Result<(), Fail> {
        let mut buf = [0u8; 3];
        let missing: io::Result<Failing> = Err(io::Error::from(ErrorKind::NotFound));
        assert_eq!(rt; read_opened(missing, &mut buf), 0);
        let there: io::Result<&[u8]> = Ok(b"ab");
        assert_eq!(rt; read_opened(there, &mut buf), 2);
        assert_eq!(rt; &buf, b"ab\0");
        Ok(())
    }
}
