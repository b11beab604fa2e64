// The records of the saved text: one table of them, and the loops that write and read their values. It knows no machine.
#![tactic(auto)]

mod bytes;
mod parts;
mod table;

ghost use Rattle.std.specs.Prelude.{◌≡◌, map, length, drop};
ghost use Rattle.std.proofs.lemmas.List.Edits.{sets};
ghost use Rattle.records.specs.Rows.{rows, record_name};
ghost use Rattle.records.specs.Table.{row_of};
ghost use Rattle.records.specs.Records.{records_text, records_length, values_in};

pub use bytes::{BYTES, read_bytes, write_bytes};
use table::{Record, TABLE};
pub use table::{Form, RECORDS, formed};
use text::rest_from;

fn records() -> [Record; RECORDS]
    ensures { map row_of result ≡ rows }
{
    TABLE
}

// The bytes that an edition's records take.
pub fn records_length(edition: u64) -> usize
    ensures { result ≡ records_length edition rows }
{
    let mut n: usize = 0;
    for record in &records()[..] {
        n += record.length_in(edition);
    }
    n
}

// The records of an edition with these values, from a place on. What would lie past the buffer's end is not stored.
pub fn write_records(buf: &mut [u8], at: usize, edition: u64, values: [u64; RECORDS])
    ensures { buf.new ≡ sets buf.old at (records_text edition rows values) }
{
    if buf.len() < at {
        return;
    }
    let mut o = at;
    for (i, record) in records()[..].iter().enumerate() {
        o += record.write_in(buf, o, edition, values[i]);
    }
}

// A record's name, by its place in the table, from a place on; the answer is its length. Past the table there is none.
pub fn write_name(buf: &mut [u8], at: usize, i: usize) -> usize
    ensures { (result ≡ length (record_name i)) × (buf.new ≡ sets buf.old at (record_name i)) }
{
    match records()[..].get(i) {
        Some(record) => record.write_name(buf, at),
        None => 0,
    }
}

// The values of an edition's records from a place on, whatever the text is: 0 where no number stands, and its power-on setting for a record that the
// edition does not have.
pub fn read_records(text: &[u8], from: usize, edition: u64) -> [u64; RECORDS]
    ensures { result ≡ values_in edition rows (drop from text.now) }
{
    let text = rest_from(text, from);
    let mut values = [0u64; RECORDS];
    let mut o: usize = 0;
    for (i, record) in records()[..].iter().enumerate() {
        values[i] = record.read_in(text, o, edition);
        o += record.length_in(edition);
    }
    values
}
