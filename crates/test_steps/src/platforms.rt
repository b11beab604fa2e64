// The platforms that the cases start from.
use machine::Machine;
use platform::Host;
use std::io;
use test_tables::{
    COMMON, FLAGS, GPE0_BLK, GPE0_BLK_LEN, GPE1_BASE, GPE1_BLK, GPE1_BLK_LEN, NO_STATE, PM_TMR_BLK,
    PM_TMR_LEN, PM1b_CNT_BLK, PM1b_EVT_BLK, PM2_CNT_BLK, PM2_CNT_LEN, ROOM, SESSION,
    SESSION_STATES, filled, pairs_of, summing_to,
};

// Beside the session's fields.
const FULL: [[u32; 2]; 6] = [
    [PM2_CNT_BLK, 0x410],
    [PM2_CNT_LEN, 1],
    [GPE1_BLK, 0x430],
    [GPE1_BLK_LEN, 4],
    [GPE1_BASE, 0x20],
    // flags 7 and 14
    [FLAGS, 0x4080],
];

// Beside the common fields.
const SINGLE: [[u32; 2]; 5] = [
    [PM_TMR_BLK, 0x408],
    [PM_TMR_LEN, 4],
    // its last port is 65,535
    [GPE0_BLK, 0xFFF8],
    [GPE0_BLK_LEN, 8],
    // flags 8 and 14
    [FLAGS, 0x4100],
];

// Beside the common fields.
const BARE: [[u32; 2]; 3] = [
    [PM1b_EVT_BLK, 0x440],
    [PM1b_CNT_BLK, 0x444],
    // flags 4, 5 and 6
    [FLAGS, 0x0070],
];

pub(crate) fn power_on(out: &impl Print, name: &[u8]) -> io::Result<Machine> {
    match name {
        b"full" => Ok(full()),
        b"single" => Ok(single()),
        b"bare" => Ok(bare()),
        b"session" => Ok(session()),
        _ => {
            println!(out; "unread")?;
            Ok(session())
        }
    }
}

// Document 01's worked session: RTC has home B, the wake pin is not fitted.
pub(crate) fn session() -> Machine {
    let host = Host {
        event_homes: 0x0400,
        control_homes: 0x0000,
        power_override: false,
        pairs: pairs_of(SESSION_STATES),
    };
    set_up(session_table(), host)
}

// All fitted, with flag 7 and the override; all homes A; events 0 to F and 20 to 2F.
fn full() -> Machine {
    let host = Host {
        event_homes: 0x0000,
        control_homes: 0x0000,
        power_override: true,
        pairs: pairs_of([0x0000, 0x0106, 0x0205, 0x0304, 0x0403, 0x0502]),
    };
    set_up(filled(session_table(), &FULL), host)
}

// Block A alone, no SMI_CMD, no override; 32 bits; events 0 to 1F.
fn single() -> Machine {
    let host = Host {
        event_homes: 0x0000,
        control_homes: 0x0000,
        power_override: false,
        pairs: pairs_of([0x0000, 0x0100, 0x0200, 0x0300, 0x0400, 0x0500]),
    };
    set_up(filled(common_table(), &SINGLE), host)
}

// Blocks A and B with all homes B, and nothing else; no sleep state.
fn bare() -> Machine {
    let host = Host {
        event_homes: 0xC731,
        control_homes: 0x0007,
        power_override: true,
        pairs: pairs_of([NO_STATE; 6]),
    };
    set_up(filled(common_table(), &BARE), host)
}

fn common_table() -> [u8; ROOM] {
    filled([0; ROOM], &COMMON)
}

fn session_table() -> [u8; ROOM] {
    filled(common_table(), &SESSION)
}

fn set_up(table: [u8; ROOM], host: Host) -> Machine {
    let t = summing_to(0, table);
    let made = machine::set_up(&t[..116], host);
    made.machine
}
