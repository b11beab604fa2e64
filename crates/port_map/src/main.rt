// Prints the port map of the table `platform.fadt`, or nothing where setting up refuses it. Homes, override and sleep states, which move no port, are none.
#![tactic(auto)]

use platform::{Host, Settings};
use std::fs::File;

// An absent state.
const NO: [u8; 2] = [255, 255];

// More than nine lines take.
const ROOM: usize = 512;

fn main(rt: HostRuntime) {
    let mut table = files::large_buffer();
    // A table that is not there has no byte.
    let length = files::read_opened(File::open(&rt, "platform.fadt"), &mut table);
    let host = Host {
        event_homes: 0,
        control_homes: 0,
        power_override: false,
        pairs: [NO; 6],
    };
    let made = machine::set_up(&table[..length], host);
    if made.answer.is_ok() {
        print(&rt, made.machine.settings);
    }
}

fn print(rt: &impl Print, s: Settings) {
    let mut text = [0; ROOM];
    let n = map_lines::write_map(&mut text, s);
    files::say(rt, text.get(..n).unwrap_or_default());
}
