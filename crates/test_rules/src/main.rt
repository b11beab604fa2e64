// The rules below the steps, shown: for each case its name and the number that comes of it, in hex, on each side of a limit.
#![tactic(auto)]

use cells::Column;
use files::LeavesOut;
use platform::{Block, Settings};
use std::io;

fn main(rt: HostRuntime) {
    let _ = all(&LeavesOut(&rt));
}

fn all(out: &impl Print) -> io::Result<()> {
    status(out)?;
    enable(out)?;
    masks(out)?;
    counter(out)?;
    hold(out)?;
    states(out)?;
    power_on(out)?;
    walk(out)
}

fn line(out: &impl Print, name: &str, value: impl Into<u64>) -> io::Result<()> {
    let value: u64 = value.into();
    println!(out; "{name}\t{value:x}")
}

fn status(out: &impl Print) -> io::Result<()> {
    line(
        out,
        "status C731, FFFF written",
        bits::clear16(0xC731, 0xFFFF, 0xC731),
    )?;
    line(
        out,
        "status C731, 0100 written",
        bits::clear16(0xC731, 0x0100, 0xC731),
    )?;
    line(
        out,
        "status C731, 0000 written",
        bits::clear16(0xC731, 0x0000, 0xC731),
    )?;
    line(
        out,
        "status C731, high byte FF",
        bits::clear16(0xC731, 0xFF00, 0xC731),
    )?;
    line(
        out,
        "status C731, low byte FF",
        bits::clear16(0xC731, 0x00FF, 0xC731),
    )?;
    line(
        out,
        "status C731, FFFF written, RTC in the other block",
        bits::clear16(0xC731, 0xFFFF, 0xC331),
    )
}

fn enable(out: &impl Print) -> io::Result<()> {
    line(
        out,
        "enable 0000, FFFF written",
        bits::take16(0x0000, 0xFFFF, 0x4721),
    )?;
    line(
        out,
        "enable 4721, 0000 written",
        bits::take16(0x4721, 0x0000, 0x4721),
    )?;
    line(
        out,
        "enable 4721, high byte 00",
        bits::take16(0x4721, 0x0000, 0x4721 & 0xFF00),
    )?;
    line(
        out,
        "enable 4721, low byte 00",
        bits::take16(0x4721, 0x0000, 0x4721 & 0x00FF),
    )
}

fn masks(out: &impl Print) -> io::Result<()> {
    line(
        out,
        "status cells, all fitted",
        cells::mask(Column::Status, 0x4000, true),
    )?;
    line(
        out,
        "status cells, no timer",
        cells::mask(Column::Status, 0x4000, false),
    )?;
    line(
        out,
        "status cells, flag 4 set",
        cells::mask(Column::Status, 0x4010, true),
    )?;
    line(
        out,
        "status cells, flag 14 clear",
        cells::mask(Column::Status, 0x0000, true),
    )?;
    line(
        out,
        "enable cells, all fitted",
        cells::mask(Column::Enable, 0x4000, true),
    )?;
    line(out, "events", cells::mask(Column::Event, 0, false))
}

// Counter, turns of the top bit, 24 and 32 bits.
fn counter(out: &impl Print) -> io::Result<()> {
    let top = clock::ticks(false, false, false, 8388607, 0, 1);
    line(out, "24 bits, 8388607 by 1: turns", top.turns)?;
    let wrap = clock::ticks(false, false, false, 16777215, 0, 1);
    line(out, "24 bits, 16777215 by 1: counter", wrap.counter)?;
    line(out, "24 bits, 16777215 by 1: turns", wrap.turns)?;
    let half = clock::ticks(false, false, false, 0, 0, 8388607);
    line(out, "24 bits, 0 by 8388607: turns", half.turns)?;
    let round = clock::ticks(false, false, false, 0, 0, 16777216);
    line(out, "24 bits, 0 by 16777216: turns", round.turns)?;
    let none = clock::ticks(false, false, false, 8388607, 0, 0);
    line(out, "24 bits, 8388607 by 0: turns", none.turns)?;
    let wide = clock::ticks(true, false, false, 8388607, 0, 1);
    line(out, "32 bits, 8388607 by 1: turns", wide.turns)?;
    let most = clock::ticks(false, false, false, 0, 0, 4294967295);
    line(out, "24 bits, 0 by 4294967295: turns", most.turns)
}

fn hold(out: &impl Print) -> io::Result<()> {
    let below = clock::ticks(false, true, true, 0, 0, 14318179);
    line(out, "held for 14318179 ticks: off", below.off)?;
    let at = clock::ticks(false, true, true, 0, 0, 14318180);
    line(out, "held for 14318180 ticks: off", at.off)?;
    let past = clock::ticks(false, true, true, 0, 0, 14318181);
    line(out, "held for 14318181 ticks: counter", past.counter)?;
    let plain = clock::ticks(false, true, false, 0, 0, 14318181);
    line(
        out,
        "held for 14318181 ticks, no override: hold",
        plain.hold,
    )?;
    let up = clock::ticks(false, false, true, 0, 5, 14318181);
    line(out, "button up, hold 5: hold", up.hold)
}

// 0 where the pair names none.
fn states(out: &impl Print) -> io::Result<()> {
    let pairs = [[0, 0], [255, 255], [255, 255], [5, 2], [255, 255], [7, 0]];
    line(
        out,
        "pair (5, 2)",
        sleep::state_of(pairs, true, 5, 2).unwrap_or(0),
    )?;
    line(
        out,
        "pair (5, 3)",
        sleep::state_of(pairs, true, 5, 3).unwrap_or(0),
    )?;
    line(
        out,
        "pair (5, 3), B absent",
        sleep::state_of(pairs, false, 5, 3).unwrap_or(0),
    )?;
    line(
        out,
        "pair (0, 0), which is S0's",
        sleep::state_of(pairs, true, 0, 0).unwrap_or(0),
    )?;
    line(
        out,
        "pair (255, 255)",
        sleep::state_of(pairs, true, 255, 255).unwrap_or(0),
    )
}

fn power_on(out: &impl Print) -> io::Result<()> {
    let zero = machine::all_zero();
    line(out, "SCI_EN of a machine all zero", zero.sci_en)?;
    let mut s = zero.settings;
    let plain = machine::power_on(s);
    line(out, "SCI_EN at power-on, no SMI_CMD", plain.sci_en)?;
    s.smi_cmd = 0xB2;
    let acpi = machine::power_on(s);
    line(out, "SCI_EN at power-on, SMI_CMD B2", acpi.sci_en)
}

// The offset that the walk finds; FF where it finds none.
fn offset(s: Settings, port: u64) -> u64 {
    ports::walk(s, port).map_or(0xFF, |p| p.offset)
}

// Two blocks that share ports, as no rule has judged them: the port is the first one's.
fn walk(out: &impl Print) -> io::Result<()> {
    let zero = machine::all_zero();
    let mut s = zero.settings;
    line(out, "walk, no block: port 0", offset(s, 0))?;
    s.pm1a_cnt = Block::new(0x402, 2);
    s.gpe0 = Block::new(0x400, 8);
    line(
        out,
        "walk, PM1a_CNT_BLK 402 and GPE0_BLK 400: port 401",
        offset(s, 0x401),
    )?;
    line(
        out,
        "walk, PM1a_CNT_BLK 402 and GPE0_BLK 400: port 402",
        offset(s, 0x402),
    )?;
    line(
        out,
        "walk, PM1a_CNT_BLK 402 and GPE0_BLK 400: port 404",
        offset(s, 0x404),
    )?;
    line(
        out,
        "walk, PM1a_CNT_BLK 402 and GPE0_BLK 400: port 408",
        offset(s, 0x408),
    )
}
