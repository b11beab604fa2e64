// The text of a machine, into a lent buffer.
ghost use Rattle.std.specs.Prelude.{◌≡◌, length};
ghost use Rattle.saved.specs.Text.{write_answer, written_buffer};

use crate::parts::{Parts, gpe_at};
use crate::{NEWEST, WriteRefusal};
use machine::Machine;

// Writes the machine's text at the buffer's start, and says its length, or writes nothing where it is longer than the buffer.
pub fn write(m: Machine, buf: &mut [u8]) -> Result<u64, WriteRefusal>
    ensures { (result ≡ write_answer m (length buf.old)) × (buf.new ≡ written_buffer m buf.old) }
{
    let parts = Parts::of(m);
    let at = gpe_at(NEWEST);
    let n = parts.text_length(NEWEST, at);
    if n <= buf.len() {
        parts.print(buf, NEWEST, at);
        return Ok(n as u64);
    }
    Err(WriteRefusal::NoRoom)
}
