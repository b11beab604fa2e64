// The table that QEMU makes for its machine type pc.
use crate::case::answer;
use platform::Host;
use std::fs::{File, Files};
use std::io::{self, Error, Read};
use test_tables::{NO_STATE, pairs_of};

pub(crate) fn real_table(
    rt: &(impl Files + Eprint + AllocGlobal),
    out: &impl Print,
) -> io::Result<()> {
    let path = "qemu-pc.fadt";
    match File::open(rt, path) {
        Ok(mut file) => answers(out, &mut file),
        Err(error) => {
            fail(rt, path, error);
            Ok(())
        }
    }
}

// Says on standard error why the file does not open.
fn fail(rt: &(impl Eprint + AllocGlobal), path: &str, error: Error) {
    if let Ok(text) = error.to_string(rt.alloc()) {
        let words = without_number(text.as_str());
        let _ = eprintln!(rt; "{path}: {words}");
    }
}

// The system's words for an error, without its number behind them.
fn without_number(text: &str) -> &str {
    match text.split_once(" (os error ") {
        Some((words, _)) => words,
        None => text,
    }
}

// The platform has no B block, and so no home.
fn host(states: [u16; 6]) -> Host {
    Host {
        event_homes: 0,
        control_homes: 0,
        power_override: false,
        pairs: pairs_of(states),
    }
}

fn answers(out: &impl Print, file: &mut impl Read) -> io::Result<()> {
    let mut bytes = [0u8; 4096];
    let n = files::read_full(file, &mut bytes);
    let table = &bytes[..n];
    let own = host([0x0000, NO_STATE, NO_STATE, 0x0101, 0x0202, 0x0303]);
    answer(out, b"qemu-pc.fadt", table, own)?;
    let no_s0 = host([NO_STATE, NO_STATE, NO_STATE, 0x0101, 0x0202, 0x0000]);
    answer(out, b"qemu-pc.fadt, S0 absent and S5 (0, 0)", table, no_s0)?;
    let shared = host([0x0000, NO_STATE, NO_STATE, 0x0101, 0x0202, 0x0000]);
    answer(out, b"qemu-pc.fadt, S0 and S5 (0, 0)", table, shared)?;
    let mut homed = own;
    homed.event_homes = 0x0100;
    answer(out, b"qemu-pc.fadt, event home 8", table, homed)
}
