// Reads a saved text, the file `state`, and steps on standard input, and prints the listing of these, or nothing.
#![tactic(auto)]

use machine::Machine;
use session::SessionRefusal;
use std::fs::File;

fn main(rt: HostRuntime) {
    let mut state = session::text_buffer();
    // A text that is not there is empty.
    let state_length = files::read_opened(File::open(&rt, "state"), &mut state);
    let mut steps = session::text_buffer();
    let Some(steps_length) = files::read_whole(&mut rt.stdin(), &mut steps) else {
        return;
    };
    let back = saved::read(&state[..state_length]);
    if back.answer.is_ok() {
        list(&rt, back.machine, &steps[..steps_length]);
    }
}

fn list(rt: &impl Print, m: Machine, steps: &[u8]) {
    let mut listing = session::listing_buffer();
    let answer = session::resume(m, steps, &mut listing);
    print(rt, answer, &listing);
}

fn print(rt: &impl Print, answer: Result<usize, SessionRefusal>, listing: &[u8]) {
    if let Ok(length) = answer {
        files::say(rt, listing.get(..length).unwrap_or_default());
    }
}
