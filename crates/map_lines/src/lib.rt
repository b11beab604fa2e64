// The lines of the port map, written into a lent buffer. What would lie past the buffer's end is not stored.
#![tactic(auto)]

ghost use Rattle.std.specs.Prelude.{◌≡◌, ◌+◌, ◌%◌, ◌^◌, ◌<◌, [], ◌∷◌, ◌++◌, length, slice_index_or};
ghost use Rattle.std.proofs.lemmas.List.Edits.{sets};
ghost use Rattle.platform.specs.FadtBlocks.{block_count, fadt_order};
ghost use Rattle.platform.specs.declared.block.FadtBlock.TheVariants as fadt;
ghost use Rattle.text.specs.Parts.{lf};
ghost use Rattle.map_lines.specs.MapText.{last_port, port_field, block_text, map_text};

use platform::{BLOCKS, Block, Settings, is_present};
use records::write_name;
use std::num::wrapping_add_u64;
use text::{write_byte, write_hex};

const TAB: u8 = 9;

const LF: u8 = 10;

// The places of the address records among those of the saved text, in the FADT's order.
const ADDRESS_RECORDS: [usize; BLOCKS] = [0, 3, 4, 5, 6, 7, 8, 9, 10];

// The last port, in 64 bits: only a block that no rule has judged passes them.
fn last_port(b: Block) -> u64
    ensures { result ≡ last_port b % 2 ^ 64 }
{
    wrapping_add_u64(b.address, bits::past(b.length as u64, 1))
}

fn put_port(buf: &mut [u8], at: usize, port: u64)
    requires { at + 1 < 2 ^ 64 }
    ensures { buf.new ≡ sets buf.old at (port_field port) }
{
    write_byte(buf, at, TAB);
    write_hex(buf, at + 1, port, 16);
}

// A block's first and last port, and the line's end.
fn put_ports(buf: &mut [u8], at: usize, b: Block)
    requires { at + 35 < 2 ^ 64 }
    ensures { buf.new ≡ sets buf.old at (port_field b.address ++ (port_field (last_port b) ++ (lf ∷ []))) }
{
    put_port(buf, at, b.address);
    put_port(buf, at + 17, last_port(b));
    write_byte(buf, at + 34, LF);
}

// The line of the block at a place of the FADT's order, if it is present; the answer is the line's length.
fn put_block(buf: &mut [u8], at: usize, i: usize, b: Block) -> usize
    requires { (i < block_count) × (at < 1000) }
    ensures { (result ≡ length (block_text (slice_index_or fadt_order i fadt.SmiCmd) b))
        × (buf.new ≡ sets buf.old at (block_text (slice_index_or fadt_order i fadt.SmiCmd) b)) }
{
    if is_present(b) {
        let named = write_name(buf, at, ADDRESS_RECORDS[i]);
        put_ports(buf, at + named, b);
        return named + 35;
    }
    0
}

// The map, from the buffer's start; the answer is its length.
pub fn write_map(buf: &mut [u8], s: Settings) -> usize
    ensures { (result ≡ length (map_text s)) × (buf.new ≡ sets buf.old 0 (map_text s)) }
{
    let blocks = platform::blocks(s);
    let mut at: usize = 0;
    for i in 0..BLOCKS {
        at += put_block(buf, at, i, blocks[i]);
    }
    at
}
