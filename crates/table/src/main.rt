// Prints what the table `platform.fadt` says, by the FADT's own names: a line each, name and value parted by a tab; ports and events are hex, as a script
// writes them. The last line is a platform line to start from, which asks nothing of the table.
#![tactic(auto)]

use files::LeavesOut;
use platform::{Block, Host, Settings, is_present};
use std::fs::{File, Files};
use std::{fmt, io};

// An absent state.
const NO: [u8; 2] = [255, 255];

fn main(rt: HostRuntime) {
    let _ = print_all(&rt, &LeavesOut(&rt));
}

fn print_all(rt: &impl Files, out: &impl Print) -> io::Result<()> {
    let mut table = files::large_buffer();
    let length = files::read_opened(File::open(rt, "platform.fadt"), &mut table);
    let table = &table[..length];
    header(out, table)?;
    let host = Host {
        event_homes: 0,
        control_homes: 0,
        power_override: false,
        pairs: [NO; 6],
    };
    let settings = fadt::settings(table, host);
    commands(out, settings)?;
    blocks(out, settings)?;
    flags(out, settings.flags)?;
    println!(out; "platform\t0000\t0000\t0\t-\t-\t-\t-\t-\t-")
}

// A port or an event: as few digits as show it up to four, else 8 or 16.
#[derive(Clone, Copy, Debug)]
struct Number(u64);

impl fmt::Display for Number {
    fn fmt<W: fmt::Write>(&self, f: &mut fmt::Formatter<W>) -> fmt::Result {
        let n = self.0;
        if n < 0x10000 {
            write!(f, "{n:X}")
        } else if n < 0x100000000 {
            write!(f, "{n:08X}")
        } else {
            write!(f, "{n:016X}")
        }
    }
}

// A byte of the table; zero past its end.
fn byte(table: &[u8], at: u8) -> u8 {
    table.get(at as usize).copied().unwrap_or(0)
}

fn header(out: &impl Print, table: &[u8]) -> io::Result<()> {
    let length = u32::from_le_bytes([
        byte(table, acpi::LENGTH),
        byte(table, acpi::LENGTH + 1),
        byte(table, acpi::LENGTH + 2),
        byte(table, acpi::LENGTH + 3),
    ]);
    print!(out; "signature\t")?;
    out.write_all(table.get(..4).unwrap_or_default())?;
    println!(out; "\nrevision\t{}", byte(table, acpi::REVISION))?;
    println!(out;
        "length\t{length} (platform.fadt has {} bytes)",
        table.len()
    )?;
    checksum(out, table, length as usize)
}

fn checksum(out: &impl Print, table: &[u8], length: usize) -> io::Result<()> {
    let own = byte(table, acpi::CHECKSUM);
    print!(out; "checksum\t{own:02X}")?;
    let Some(bytes) = table.get(..length) else {
        return println!(out; ", which cannot be judged without the missing bytes");
    };
    match bytes.iter().fold(0u8, |sum, b| sum.wrapping_add(*b)) {
        0 => println!(out; ", right"),
        sum => println!(out; ", wrong: {:02X} would be right", own.wrapping_sub(sum)),
    }
}

fn commands(out: &impl Print, s: Settings) -> io::Result<()> {
    if s.smi_cmd == 0 {
        println!(out; "SMI_CMD\tabsent")?;
    } else {
        println!(out; "SMI_CMD\tport {}", Number(s.smi_cmd))?;
    }
    println!(out; "ACPI_ENABLE\t{:02X}", s.acpi_enable)?;
    println!(out; "ACPI_DISABLE\t{:02X}", s.acpi_disable)
}

fn blocks(out: &impl Print, s: Settings) -> io::Result<()> {
    let gpe1_base = u64::from(s.gpe1_base);
    block(out, "PM1a_EVT_BLK", s.pm1a_evt)?;
    block(out, "\nPM1b_EVT_BLK", s.pm1b_evt)?;
    block(out, "\nPM1a_CNT_BLK", s.pm1a_cnt)?;
    block(out, "\nPM1b_CNT_BLK", s.pm1b_cnt)?;
    block(out, "\nPM2_CNT_BLK", s.pm2_cnt)?;
    block(out, "\nPM_TMR_BLK", s.pm_tmr)?;
    block(out, "\nGPE0_BLK", s.gpe0)?;
    events(out, s.gpe0, 0)?;
    block(out, "\nGPE1_BLK", s.gpe1)?;
    events(out, s.gpe1, gpe1_base)?;
    println!(out; "\nGPE1_BASE\t{}", Number(gpe1_base))
}

// Where just one of address and length is zero, both are said.
fn block(out: &impl Print, name: &str, b: Block) -> io::Result<()> {
    let first = Number(b.address);
    match (is_present(b), u64::from(b.length)) {
        (false, 0) => print!(out; "{name}\tabsent"),
        (true, n @ 1..) => {
            let last = Number(b.address.wrapping_add(n - 1));
            print!(out; "{name}\tports {first} to {last}")
        }
        (_, n) => print!(out; "{name}\taddress {first}, length {n}"),
    }
}

fn events(out: &impl Print, b: Block, first: u64) -> io::Result<()> {
    let n = platform::event_count(b);
    if is_present(b) && n != 0 {
        let last = Number(first.wrapping_add(n - 1));
        print!(out; ", events {} to {last} (hex)", Number(first))?;
    }
    Ok(())
}

// A flag's bit, and what it says where it is set and where it is clear.
#[derive(Clone, Copy)]
struct Flag {
    name: &'static str,
    bit: u8,
    set: &'static str,
    clear: &'static str,
}

const FLAGS: [Flag; 7] = [
    Flag {
        name: "PWR_BUTTON",
        bit: acpi::PWR_BUTTON,
        set: "no fixed power button",
        clear: "a fixed power button",
    },
    Flag {
        name: "SLP_BUTTON",
        bit: acpi::SLP_BUTTON,
        set: "no fixed sleep button",
        clear: "a fixed sleep button",
    },
    Flag {
        name: "FIX_RTC",
        bit: acpi::FIX_RTC,
        set: "no fixed alarm",
        clear: "a fixed alarm",
    },
    Flag {
        name: "RTC_S4",
        bit: acpi::RTC_S4,
        set: "the alarm wakes from S4 too",
        clear: "the alarm does not wake from S4",
    },
    Flag {
        name: "TMR_VAL_EXT",
        bit: acpi::TMR_VAL_EXT,
        set: "the timer has 32 bits",
        clear: "the timer has 24 bits",
    },
    Flag {
        name: "PCI_EXP_WAK",
        bit: acpi::PCI_EXP_WAK,
        set: "a PCI Express wake",
        clear: "no PCI Express wake",
    },
    Flag {
        name: "HW_REDUCED_ACPI",
        bit: acpi::HW_REDUCED_ACPI,
        set: "none of these registers",
        clear: "these registers",
    },
];

fn flags(out: &impl Print, all: u32) -> io::Result<()> {
    println!(out; "FLAGS\t{all:08X}")?;
    for flag in FLAGS.iter() {
        let Flag {
            name,
            bit,
            set,
            clear,
        } = *flag;
        if cells::flag(all, bit) {
            println!(out; "{name}\t1: {set}")?;
        } else {
            println!(out; "{name}\t0: {clear}")?;
        }
    }
    Ok(())
}
