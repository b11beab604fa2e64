// Reads a script on standard input and prints the saved text of the machine at its end, or nothing. The machine is the one that `platform.fadt` and the
// script's first line set up; or, where there is no such file, that of the saved text `state`, and all lines are steps.
#![tactic(auto)]

use session::Ended;
use std::fs::{File, Files};
use std::io::Read;

// More than the longest saved text.
const ROOM: usize = 1024;

fn main(rt: HostRuntime) {
    let mut script = session::text_buffer();
    let Some(length) = files::read_whole(&mut rt.stdin(), &mut script) else {
        return;
    };
    match File::open(&rt, "platform.fadt") {
        Ok(mut file) => from_table(&rt, &mut file, &script[..length]),
        Err(_) => from_state(&rt, &script[..length]),
    }
}

fn from_table(rt: &impl Print, file: &mut impl Read, script: &[u8]) {
    let mut table = files::large_buffer();
    let length = files::read_full(file, &mut table);
    print(rt, session::end(&table[..length], script));
}

fn from_state(rt: &(impl Files + Print), steps: &[u8]) {
    let Ok(mut file) = File::open(rt, "state") else {
        return;
    };
    let mut state = session::text_buffer();
    let length = files::read_full(&mut file, &mut state);
    let back = saved::read(&state[..length]);
    if back.answer.is_ok() {
        print(rt, session::resume_end(back.machine, steps));
    }
}

fn print(rt: &impl Print, ended: Ended) {
    if ended.answer.is_ok() {
        let mut text = [0; ROOM];
        let written = saved::write(ended.machine, &mut text);
        let n = saved::written_value(written) as usize;
        files::say(rt, text.get(..n).unwrap_or_default());
    }
}
