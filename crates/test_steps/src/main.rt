// The steps, case by case: each line is a step of a script, what it answers, and the lines and the state after it. The
// cases are read on standard input. A case starts at power-on of one of four platforms; a line that begins with # says
// what the steps below it show.
#![tactic(auto)]

mod case;
mod platforms;

use files::LeavesOut;
use listing::HEADER_LENGTH;
use std::io::{self, Read};

fn main(rt: HostRuntime) {
    let _ = all(&LeavesOut(&rt), &mut rt.stdin());
}

// The header stands before anything is read.
fn all(out: &impl Print, input: &mut impl Read) -> io::Result<()> {
    let mut header = [0; HEADER_LENGTH];
    listing::write_header(&mut header);
    out.write_all(&header)?;
    let mut source = files::large_buffer();
    let n = files::read_full(input, &mut source);
    case::all(out, &source[..n])
}
