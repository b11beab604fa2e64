// What a text says, written and found by its places.
ghost use Rattle.std.specs.Prelude.{◌≡◌, ◌++◌, ◌∷◌, [], ◌+◌, ◌*◌, ◌^◌, ◌<◌, ◌≤◌, length, take};
ghost use Rattle.std.proofs.lemmas.List.Edits.{sets};
ghost use Rattle.text.specs.Parts.{lf};
ghost use Rattle.records.specs.Bytes.{bytes_text};
ghost use Rattle.machine.specs.PowerOn.{gpe_bytes};
ghost use Rattle.saved.specs.Text.{edition_line, own_bytes, own0, own1, gpe_text, text_of, records_at, gpe_at, parts_of};
ghost use Rattle.saved.specs.Reading.{parts_in, machine_of};

use machine::{GPE_BYTES, Machine};
use records::{RECORDS, read_bytes, read_records, records_length, write_bytes, write_records};
use text::{decimal_digits, write_byte, write_decimal, write_text};
use values::{machine_from, values_of};

const LF: u8 = 10;

// The values of the records, and the general event bytes.
#[derive(Clone, Copy, Debug)]
pub struct Parts {
    pub values: [u64; RECORDS],
    pub gpe0_sts: [u8; GPE_BYTES],
    pub gpe0_en: [u8; GPE_BYTES],
    pub gpe1_sts: [u8; GPE_BYTES],
    pub gpe1_en: [u8; GPE_BYTES],
}

fn records_at(edition: u64) -> usize
    ensures { result ≡ records_at edition }
{
    9 + decimal_digits(edition)
}

pub(crate) fn gpe_at(edition: u64) -> usize
    ensures { (result ≡ gpe_at edition) × (result + 200 < 2 ^ 64) }
{
    records_at(edition) + records_length(edition)
}

// The bytes of a GPE block that the text has, by the block's length.
fn own(length: u64) -> usize
    ensures { (result ≡ own_bytes length) × (result ≤ gpe_bytes) }
{
    let half = (length / 2) as usize;
    half.min(GPE_BYTES)
}

// The first line.
fn put_edition(buf: &mut [u8], edition: u64)
    ensures { buf.new ≡ sets buf.old 0 (edition_line edition ++ (lf ∷ [])) }
{
    let digits = decimal_digits(edition);
    write_text(buf, 0, b"edition\t");
    write_decimal(buf, 8, edition, digits);
    write_byte(buf, 8 + digits, LF);
}

// A record of general event bytes: its name and a tab, the digits of the bytes that it has, and LF.
fn put_bytes(buf: &mut [u8], at: usize, name: &[u8], own: usize, bytes: [u8; GPE_BYTES])
    requires { (own ≤ gpe_bytes) × (at + length name.now + 17 < 2 ^ 64) }
    ensures { buf.new ≡ sets buf.old at (name.now ++ (bytes_text (take own bytes) ++ (lf ∷ []))) }
{
    let digits = at + name.len();
    write_text(buf, at, name);
    write_bytes(buf, digits, bytes, own);
    write_byte(buf, digits + own * 2, LF);
}

impl Parts {
    pub(crate) fn of(m: Machine) -> Parts
        ensures { result ≡ parts_of m }
    {
        let values = values_of(m);
        let gpe0_sts = m.gpe0_sts;
        let gpe0_en = m.gpe0_en;
        let gpe1_sts = m.gpe1_sts;
        let gpe1_en = m.gpe1_en;
        Parts {
            values,
            gpe0_sts,
            gpe0_en,
            gpe1_sts,
            gpe1_en,
        }
    }

    // Those that a text of an edition has, each by its place, whatever the text is.
    pub(crate) fn read(text: &[u8], edition: u64, at: usize) -> Parts
        requires { (at ≡ gpe_at edition) × (at + 200 < 2 ^ 64) }
        ensures { result ≡ parts_in edition text.now }
    {
        let values = read_records(text, records_at(edition), edition);
        let own0 = own(values[15]);
        let own1 = own(values[16]);
        let en0 = at + (10 + own0 * 2);
        let sts1 = en0 + (9 + own0 * 2);
        let en1 = sts1 + (10 + own1 * 2);
        Parts {
            values,
            gpe0_sts: read_bytes(text, at + 9, own0),
            gpe0_en: read_bytes(text, en0 + 8, own0),
            gpe1_sts: read_bytes(text, sts1 + 9, own1),
            gpe1_en: read_bytes(text, en1 + 8, own1),
        }
    }

    pub(crate) fn machine(&self) -> Machine
        ensures { result ≡ machine_of self.now }
    {
        machine_from(
            self.values,
            self.gpe0_sts,
            self.gpe0_en,
            self.gpe1_sts,
            self.gpe1_en,
        )
    }

    // The four records of general event bytes, from a place on.
    fn put_gpe(&self, buf: &mut [u8], at: usize)
        requires { at + 200 < 2 ^ 64 }
        ensures { buf.new ≡ sets buf.old at (gpe_text (own0 self.now.values) (own1 self.now.values) self.now.gpe0_sts self.now.gpe0_en self.now.gpe1_sts self.now.gpe1_en) }
    {
        let own0 = own(self.values[15]);
        let own1 = own(self.values[16]);
        let en0 = at + (10 + own0 * 2);
        let sts1 = en0 + (9 + own0 * 2);
        let en1 = sts1 + (10 + own1 * 2);
        put_bytes(buf, at, b"GPE0_STS\t", own0, self.gpe0_sts);
        put_bytes(buf, en0, b"GPE0_EN\t", own0, self.gpe0_en);
        put_bytes(buf, sts1, b"GPE1_STS\t", own1, self.gpe1_sts);
        put_bytes(buf, en1, b"GPE1_EN\t", own1, self.gpe1_en);
    }

    // The whole text, at the buffer's start; where the general event bytes begin is given.
    pub(crate) fn print(&self, buf: &mut [u8], edition: u64, at: usize)
        requires { (at ≡ gpe_at edition) × (at + 200 < 2 ^ 64) }
        ensures { buf.new ≡ sets buf.old 0 (text_of edition self.now) }
    {
        put_edition(buf, edition);
        write_records(buf, records_at(edition), edition, self.values);
        self.put_gpe(buf, at);
    }

    // The text's length: all but the general event bytes' digits is fixed.
    pub(crate) fn text_length(&self, edition: u64, at: usize) -> usize
        requires { (at ≡ gpe_at edition) × (at + 200 < 2 ^ 64) }
        ensures { (result ≡ length (text_of edition self.now)) × (result ≤ 1024) }
    {
        at + (38 + (own(self.values[15]) * 4 + own(self.values[16]) * 4))
    }
}
