// The technicians' program: reads `platform.fadt` and a script on standard input, and prints the listing, or nothing.
#![tactic(auto)]

use session::SessionRefusal;
use std::fs::File;

fn main(rt: HostRuntime) {
    let mut table = files::large_buffer();
    // A table that is not there has no byte.
    let table_length = files::read_opened(File::open(&rt, "platform.fadt"), &mut table);
    let mut script = session::text_buffer();
    let Some(script_length) = files::read_whole(&mut rt.stdin(), &mut script) else {
        return;
    };
    let mut listing = session::listing_buffer();
    let answer = session::session(
        &table[..table_length],
        &script[..script_length],
        &mut listing,
    );
    print(&rt, answer, &listing);
}

fn print(rt: &impl Print, answer: Result<usize, SessionRefusal>, listing: &[u8]) {
    if let Ok(length) = answer {
        files::say(rt, listing.get(..length).unwrap_or_default());
    }
}
