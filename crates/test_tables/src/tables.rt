// A table, field by field.
ghost use Rattle.std.specs.Prelude.{◌≡◌, ◌%◌, take};
ghost use Rattle.test_tables.specs.Tables.{is_wide, field_set, filled_of, sum, summing_to};

use crate::fields::{CHECKSUM, FLAGS, GPE1_BLK, LENGTH, PM1a_EVT_BLK, SMI_CMD};

// Room for a table of 116 bytes and a few past its length.
pub const ROOM: usize = 124;

// The table with these fields set, each its offset and its value.
pub fn filled(table: [u8; ROOM], fields: &[[u32; 2]]) -> [u8; ROOM]
    ensures { result ≡ filled_of table fields.now }
{
    let mut t = table;
    for field in fields {
        let next = put(t, field[0], field[1]);
        t = next;
    }
    t
}

// The table with the checksum that makes as many bytes as the lowest byte of its length says sum to this, modulo 256.
pub fn summing_to(sum: u8, table: [u8; ROOM]) -> [u8; ROOM]
    ensures { result ≡ summing_to sum table }
{
    let n = table[LENGTH as usize] as usize;
    let mut cleared = table;
    cleared[CHECKSUM as usize] = 0;
    let others = sum_of(&cleared, n);
    let mut t = table;
    t[CHECKSUM as usize] = low_byte(sum as u32 + 256 - others as u32);
    t
}

// The table with the field at this offset set, the lowest byte first; none is set where four bytes have no room.
fn put(table: [u8; ROOM], offset: u32, value: u32) -> [u8; ROOM]
    ensures { result ≡ field_set table offset value }
{
    let at = offset as usize;
    if ROOM < at + 4 {
        return table;
    }
    let mut t = table;
    t[at] = low_byte(value);
    if is_wide(offset) {
        t[at + 1] = low_byte(value / 0x100);
        t[at + 2] = low_byte(value / 0x10000);
        t[at + 3] = low_byte(value / 0x1000000);
        return t;
    }
    t
}

// Whether the field at this offset has four bytes: the length, SMI_CMD, the addresses and the flags.
fn is_wide(offset: u32) -> bool
    ensures { result ≡ is_wide offset }
{
    (offset == LENGTH)
        | (offset == SMI_CMD)
        | ((PM1a_EVT_BLK <= offset) & (offset <= GPE1_BLK))
        | (offset == FLAGS)
}

fn low_byte(value: u32) -> u8
    ensures { result ≡ value % 256 }
{
    (value % 256) as u8
}

// The sum of the bytes, modulo 256. `fadt` has its own: what makes the tables shares nothing with the code under test.
fn sum_all(bytes: &[u8]) -> u8
    ensures { result ≡ sum bytes.now % 256 }
{
    let mut total: u8 = 0;
    for byte in bytes {
        total = total.wrapping_add(*byte);
    }
    total
}

// The sum of the first n, or of all where there are fewer.
fn sum_of(table: &[u8], n: usize) -> u8
    ensures { result ≡ sum (take n table.now) % 256 }
{
    if n < table.len() {
        sum_all(&table[..n])
    } else {
        sum_all(table)
    }
}
