// The FADT's bytes: rules 1 to 4 of setting up, and the settings read from them.
#![tactic(auto)]

ghost use Rattle.std.specs.Prelude.{◌≡◌, ◌+◌, ◌*◌, ◌%◌, take, slice_index};
ghost use Rattle.platform.specs.Answer.{first_failing};
ghost use Rattle.fadt.specs.Table.{
  sum,
  table_short,
  no_signature,
  wrong_table_length,
  wrong_sum,
  set_up_rules,
};
ghost use Rattle.fadt.specs.Fields.{dword, block_from, pm1_block, settings_of};

use acpi::{
    ACPI_DISABLE, ACPI_ENABLE, FLAGS, GPE0_BLK, GPE0_BLK_LEN, GPE1_BASE, GPE1_BLK, GPE1_BLK_LEN,
    LENGTH, PM_TMR_BLK, PM_TMR_LEN, PM1_CNT_LEN, PM1_EVT_LEN, PM1a_CNT_BLK, PM1a_EVT_BLK,
    PM1b_CNT_BLK, PM1b_EVT_BLK, PM2_CNT_BLK, PM2_CNT_LEN, SMI_CMD,
};
use platform::{Block, Host, SetUpRefusal, Settings};
use sleep::SleepTable;
use std::num::wrapping_add_u8;

const FACP: [u8; 4] = *b"FACP";

// Lines 1 to 12 of the table: the first that refuses these bytes or these settings, wherever the settings come from.
#[tactic(auto, unfolding(platform::specs::Answer::first_failing))]
pub fn judge(table: &[u8], s: Settings) -> Result<(), SetUpRefusal>
    ensures { result ≡ first_failing (set_up_rules table.now s) }
{
    if table_short(table) {
        return Err(SetUpRefusal::TableShort);
    }
    if no_signature(table) {
        return Err(SetUpRefusal::NoSignature);
    }
    if wrong_table_length(table) {
        return Err(SetUpRefusal::WrongLength);
    }
    if wrong_sum(table) {
        return Err(SetUpRefusal::WrongSum);
    }
    platform::judge(s)
}

// The settings that the table and the host give; what lies past the table's end reads as zero.
pub fn settings(table: &[u8], host: Host) -> Settings
    ensures { result ≡ settings_of table.now host.event_homes host.control_homes host.power_override host.pairs }
{
    let smi_cmd = dword_at(table, SMI_CMD) as u64;
    let acpi_enable = byte_at(table, ACPI_ENABLE);
    let acpi_disable = byte_at(table, ACPI_DISABLE);
    let pm1a_evt = pm1_block(table, PM1a_EVT_BLK, PM1_EVT_LEN);
    let pm1b_evt = pm1_block(table, PM1b_EVT_BLK, PM1_EVT_LEN);
    let pm1a_cnt = pm1_block(table, PM1a_CNT_BLK, PM1_CNT_LEN);
    let pm1b_cnt = pm1_block(table, PM1b_CNT_BLK, PM1_CNT_LEN);
    let pm2_cnt = block(table, PM2_CNT_BLK, PM2_CNT_LEN);
    let pm_tmr = block(table, PM_TMR_BLK, PM_TMR_LEN);
    let gpe0 = block(table, GPE0_BLK, GPE0_BLK_LEN);
    let gpe1 = block(table, GPE1_BLK, GPE1_BLK_LEN);
    let gpe1_base = byte_at(table, GPE1_BASE);
    let flags = dword_at(table, FLAGS);
    let sleep = SleepTable::new(host.pairs);
    Settings {
        smi_cmd,
        acpi_enable,
        acpi_disable,
        pm1a_evt,
        pm1b_evt,
        pm1a_cnt,
        pm1b_cnt,
        pm2_cnt,
        pm_tmr,
        gpe0,
        gpe1,
        gpe1_base,
        flags,
        event_homes: host.event_homes,
        control_homes: host.control_homes,
        power_override: host.power_override,
        sleep,
    }
}

// A byte of the table; zero past its end.
fn byte(table: &[u8], i: usize) -> u8
    ensures { result ≡ slice_index table.now i }
{
    if i < table.len() { table[i] } else { 0 }
}

fn byte_at(table: &[u8], at: u8) -> u8
    ensures { result ≡ slice_index table.now at }
{
    byte(table, at as usize)
}

// Four bytes, the lowest first.
fn joined(b0: u8, b1: u8, b2: u8, b3: u8) -> u32
    ensures { result ≡ b0 + 256 * b1 + 65536 * b2 + 16777216 * b3 }
{
    u32::from_le_bytes([b0, b1, b2, b3])
}

// The four bytes from a place on; within the table they are read at once.
fn dword_at(table: &[u8], at: u8) -> u32
    ensures { result ≡ dword table.now at }
{
    let i = at as usize;
    if i + 3 < table.len() {
        return joined(table[i], table[i + 1], table[i + 2], table[i + 3]);
    }
    joined(
        byte(table, i),
        byte(table, i + 1),
        byte(table, i + 2),
        byte(table, i + 3),
    )
}

// Line 1 of the table.
pub fn table_short(table: &[u8]) -> bool
    ensures { result ≡ table_short table.now }
{
    table.len() < 116
}

fn no_signature(table: &[u8]) -> bool
    ensures { result ≡ no_signature table.now }
{
    let b0 = byte(table, 0);
    let b1 = byte(table, 1);
    let b2 = byte(table, 2);
    let b3 = byte(table, 3);
    !((b0 == FACP[0]) & ((b1 == FACP[1]) & ((b2 == FACP[2]) & (b3 == FACP[3]))))
}

fn wrong_table_length(table: &[u8]) -> bool
    ensures { result ≡ wrong_table_length table.now }
{
    let n = dword_at(table, LENGTH) as usize;
    (n < 116) | (table.len() < n)
}

// The sum of the bytes, modulo 256.
fn sum_all(bytes: &[u8]) -> u8
    ensures { result ≡ sum bytes.now % 256 }
{
    let mut total = 0;
    for byte in bytes {
        total = wrapping_add_u8(total, *byte);
    }
    total
}

// The sum of the first n, or of all where there are fewer.
fn sum_of(table: &[u8], n: usize) -> u8
    ensures { result ≡ sum (take n table.now) % 256 }
{
    if n < table.len() {
        sum_all(&table[..n])
    } else {
        sum_all(table)
    }
}

fn wrong_sum(table: &[u8]) -> bool
    ensures { result ≡ wrong_sum table.now }
{
    let n = dword_at(table, LENGTH) as usize;
    sum_of(table, n) != 0
}

fn block(table: &[u8], address: u8, length: u8) -> Block
    ensures { result ≡ block_from table.now address length }
{
    let first = dword_at(table, address) as u64;
    let n = byte_at(table, length) as u32;
    Block::new(first, n)
}

// Both PM1 blocks of a group share one length field; that of an absent block is zero.
fn pm1_block(table: &[u8], address: u8, length: u8) -> Block
    ensures { result ≡ pm1_block table.now address length }
{
    let first = dword_at(table, address) as u64;
    let n = byte_at(table, length) as u32;
    Block::new(first, bits::pick(first != 0, n, 0))
}
