// The saved text of a machine: written into a lent buffer, and read back.
#![tactic(auto)]

mod parts;
mod print;
mod reading;

ghost use Rattle.std.specs.Prelude.{◌≡◌};
ghost use Rattle.saved.specs.Answer.{written_number, written_value, read_number, read_value};

use legality::Clause;
use machine::Machine;
pub use print::write;
pub use reading::read;

// The edition that writing gives.
pub const NEWEST: u64 = 2;

// Why no text is written.
#[derive(Clone, Copy, Debug, PartialEq, Eq)]
pub enum WriteRefusal {
    // it is longer than the buffer
    NoRoom,
}

// Why a text is refused.
#[derive(Clone, Copy)]
pub enum ReadRefusal {
    NoEdition,
    // a malformed, missing or surplus line: its number
    Malformed(usize),
    // the clause that the machine breaks
    Illegal(Clause),
    // the line of a register with a bit outside its home, or that no cell of it has
    Stray(usize),
}

// A refusal gives the machine all zero, and so this is no `Result`: "any refusal to make one gives it all zero".
#[derive(Clone, Copy)]
pub struct ReadBack {
    pub answer: Result<(), ReadRefusal>,
    pub machine: Machine,
}

pub fn written_number(a: Result<u64, WriteRefusal>) -> u8
    ensures { result ≡ written_number a }
{
    match a {
        Ok(_) => 0,
        Err(WriteRefusal::NoRoom) => 43,
    }
}

pub fn written_value(a: Result<u64, WriteRefusal>) -> u64
    ensures { result ≡ written_value a }
{
    match a {
        Ok(length) => length,
        Err(WriteRefusal::NoRoom) => 0,
    }
}

pub fn read_number(a: Result<(), ReadRefusal>) -> u8
    ensures { result ≡ read_number a }
{
    match a {
        Ok(()) => 0,
        Err(ReadRefusal::NoEdition) => 40,
        Err(ReadRefusal::Malformed(_)) => 41,
        Err(ReadRefusal::Illegal(_)) => 42,
        Err(ReadRefusal::Stray(_)) => 42,
    }
}

pub fn read_value(a: Result<(), ReadRefusal>) -> u64
    ensures { result ≡ read_value a }
{
    match a {
        Ok(()) => 0,
        Err(ReadRefusal::NoEdition) => 0,
        Err(ReadRefusal::Malformed(_)) => 0,
        Err(ReadRefusal::Illegal(_)) => 0,
        Err(ReadRefusal::Stray(_)) => 0,
    }
}
