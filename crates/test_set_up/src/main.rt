// Setting up, case by case: each line is a case's name and the number that setting up answers. The cases are read on
// standard input: the worked session's table with a few fields edited, another number of bytes lent, or other homes and
// sleep states. The last few are a table that QEMU makes.
#![tactic(auto)]

mod case;
mod fields;
mod numbers;
mod real_table;

use files::LeavesOut;
use std::fs::Files;
use std::io;

fn main(rt: HostRuntime) {
    let mut source = files::large_buffer();
    let n = files::read_full(&mut rt.stdin(), &mut source);
    let _ = all(&rt, &LeavesOut(&rt), &source[..n]);
}

fn all(
    rt: &(impl Files + Eprint + AllocGlobal),
    out: &impl Print,
    source: &[u8],
) -> io::Result<()> {
    case::all(out, source)?;
    real_table::real_table(rt, out)
}
