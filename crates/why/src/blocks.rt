// The blocks, by the order of their FADT address fields.
use crate::say::Port;
use platform::{
    BLOCKS, Block, FadtBlock, GPE_LONGEST, PORTS, SetUpRefusal, holds_port, is_present,
};
use std::io;

const ORDER: [FadtBlock; BLOCKS] = [
    FadtBlock::SmiCmd,
    FadtBlock::Pm1aEvtBlk,
    FadtBlock::Pm1bEvtBlk,
    FadtBlock::Pm1aCntBlk,
    FadtBlock::Pm1bCntBlk,
    FadtBlock::Pm2CntBlk,
    FadtBlock::PmTmrBlk,
    FadtBlock::Gpe0Blk,
    FadtBlock::Gpe1Blk,
];

// A block and which it is.
#[derive(Clone, Copy)]
struct Named {
    of: FadtBlock,
    block: Block,
}

impl Named {
    fn name(self) -> &'static str {
        match self.of {
            FadtBlock::SmiCmd => "SMI_CMD",
            FadtBlock::Pm1aEvtBlk => "PM1a_EVT_BLK",
            FadtBlock::Pm1bEvtBlk => "PM1b_EVT_BLK",
            FadtBlock::Pm1aCntBlk => "PM1a_CNT_BLK",
            FadtBlock::Pm1bCntBlk => "PM1b_CNT_BLK",
            FadtBlock::Pm2CntBlk => "PM2_CNT_BLK",
            FadtBlock::PmTmrBlk => "PM_TMR_BLK",
            FadtBlock::Gpe0Blk => "GPE0_BLK",
            FadtBlock::Gpe1Blk => "GPE1_BLK",
        }
    }

    // SMI_CMD is a port and has no length field.
    fn length_name(self) -> &'static str {
        match self.of {
            FadtBlock::SmiCmd => "",
            FadtBlock::Pm1aEvtBlk | FadtBlock::Pm1bEvtBlk => "PM1_EVT_LEN",
            FadtBlock::Pm1aCntBlk | FadtBlock::Pm1bCntBlk => "PM1_CNT_LEN",
            FadtBlock::Pm2CntBlk => "PM2_CNT_LEN",
            FadtBlock::PmTmrBlk => "PM_TMR_LEN",
            FadtBlock::Gpe0Blk => "GPE0_BLK_LEN",
            FadtBlock::Gpe1Blk => "GPE1_BLK_LEN",
        }
    }

    // The one length that a block may have, and what its address is a multiple of; a GPE block may have several lengths, and lie anywhere.
    fn due_length(self) -> u64 {
        match self.of {
            FadtBlock::Pm1aEvtBlk | FadtBlock::Pm1bEvtBlk | FadtBlock::PmTmrBlk => 4,
            FadtBlock::Pm1aCntBlk | FadtBlock::Pm1bCntBlk => 2,
            _ => 1,
        }
    }

    fn is_gpe(self) -> bool {
        matches!(self.of, FadtBlock::Gpe0Blk | FadtBlock::Gpe1Blk)
    }

    // Whether the length field is this block's alone; both PM1 blocks of a group share one.
    fn has_own_length(self) -> bool {
        self.is_gpe() || matches!(self.of, FadtBlock::Pm2CntBlk | FadtBlock::PmTmrBlk)
    }

    fn length(self) -> u64 {
        u64::from(self.block.length)
    }

    // The last port of a block that has one.
    fn last(self) -> u64 {
        self.block
            .address
            .wrapping_add(self.length())
            .wrapping_sub(1)
    }

    fn length_is_wrong(self) -> bool {
        let n = self.length();
        if matches!(self.of, FadtBlock::SmiCmd) {
            return false;
        }
        if !is_present(self.block) {
            return self.has_own_length() && n != 0;
        }
        if self.is_gpe() {
            return n % 2 != 0 || n < 2 || u64::from(GPE_LONGEST) < n;
        }
        n != self.due_length()
    }

    // PM1a event and control have to be there.
    fn is_missing(self) -> bool {
        matches!(self.of, FadtBlock::Pm1aEvtBlk | FadtBlock::Pm1aCntBlk) && !is_present(self.block)
    }

    fn is_misaligned(self) -> bool {
        match self.due_length() {
            4 => self.block.address % 4 != 0,
            2 => self.block.address % 2 != 0,
            _ => false,
        }
    }

    fn passes(self) -> bool {
        match PORTS.checked_sub(self.block.address) {
            Some(room) => room < self.length(),
            None => true,
        }
    }
}

// Of lines 6, 7 and 8 of setting up the one that refuses: says the first block that it fails for, and why; whether there is one.
pub(crate) fn first_wrong(
    out: &impl Print,
    refusal: SetUpRefusal,
    blocks: [Block; BLOCKS],
) -> io::Result<bool> {
    for (i, of) in ORDER.iter().enumerate() {
        let b = Named {
            of: *of,
            block: blocks[i],
        };
        let found = match refusal {
            SetUpRefusal::BlockLength => tell_length(out, b)?,
            SetUpRefusal::BlockPlace => tell_place(out, b)?,
            _ => tell_overlap(out, i, b, blocks)?,
        };
        if found {
            return Ok(true);
        }
    }
    Ok(false)
}

fn tell_length(out: &impl Print, b: Named) -> io::Result<bool> {
    if !b.length_is_wrong() {
        return Ok(false);
    }
    let address = Port(b.block.address);
    print!(out;
        "{} is {address} and {} is {}",
        b.name(),
        b.length_name(),
        b.length()
    )?;
    if b.is_gpe() {
        print!(out; " (an even number from 2 to {GPE_LONGEST}")?;
    } else {
        print!(out; " ({}", b.due_length())?;
    }
    if b.has_own_length() {
        print!(out; " is allowed, or both zero)")?;
    } else {
        print!(out; " is allowed)")?;
    }
    Ok(true)
}

fn tell_place(out: &impl Print, b: Named) -> io::Result<bool> {
    if b.is_missing() {
        print!(out; "{} is 0, and this block has to be there", b.name())?;
        return Ok(true);
    }
    if b.is_misaligned() {
        let address = Port(b.block.address);
        print!(out;
            "{} is {address}, no multiple of {}",
            b.name(),
            b.due_length()
        )?;
        return Ok(true);
    }
    if b.passes() {
        named_ports(out, b)?;
        print!(out; ", and the last port is FFFF")?;
        return Ok(true);
    }
    Ok(false)
}

// A present block and its ports.
fn named_ports(out: &impl Print, b: Named) -> io::Result<()> {
    let first = Port(b.block.address);
    if b.length() < 2 {
        print!(out; "{} has port {first}", b.name())
    } else {
        print!(out; "{} has ports {first} to {}", b.name(), Port(b.last()))
    }
}

// Block i with a later one.
fn tell_overlap(out: &impl Print, i: usize, a: Named, blocks: [Block; BLOCKS]) -> io::Result<bool> {
    for (j, of) in ORDER.iter().enumerate() {
        let b = Named {
            of: *of,
            block: blocks[j],
        };
        if i < j && share(a.block, b.block) {
            named_ports(out, a)?;
            print!(out; ", and ")?;
            named_ports(out, b)?;
            print!(out; ": they overlap")?;
            return Ok(true);
        }
    }
    Ok(false)
}

fn share(a: Block, b: Block) -> bool {
    is_present(a) && is_present(b) && (holds_port(a, b.address) || holds_port(b, a.address))
}

// Line 9, of a GPE1 that is present.
pub(crate) fn wrong_numbers(
    out: &impl Print,
    base: u8,
    gpe0: Block,
    gpe1: Block,
) -> io::Result<()> {
    let first = u64::from(base);
    let before = platform::event_count(gpe0);
    if first < before {
        print!(out;
            "GPE1_BASE is {}, and GPE0 has events 0 to {}",
            Port(first),
            Port(before - 1)
        )
    } else {
        let past = first.wrapping_add(platform::event_count(gpe1));
        print!(out;
            "GPE1 has events {} to {}, and the last event is FF",
            Port(first),
            Port(past.wrapping_sub(1))
        )
    }
}
