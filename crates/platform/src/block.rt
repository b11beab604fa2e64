// A block of I/O ports, and the blocks by name.
ghost use Rattle.std.specs.Prelude.{◌≡◌, ◌-◌, ◌<◌};
ghost use Rattle.platform.specs.Blocks.{block, present, holds, overlap, passes_ports};

// The ports are 0 to 65,535.
pub const PORTS: u64 = 65536;

// Its first port and how many it has; absent where the address is zero. A length of 32 bits: padding of 7 bytes makes each copy dear.
#[derive(Clone, Copy, Debug, PartialEq, Eq)]
pub struct Block {
    pub address: u64,
    pub length: u32,
}

impl Block {
    // Every block is made here.
    pub fn new(address: u64, length: u32) -> Self
        ensures { result ≡ block address length }
    {
        Block { address, length }
    }
}

// SMI_CMD and the blocks, by the names of their FADT address fields and in the FADT's order.
#[derive(Clone, Copy, Debug, PartialEq, Eq)]
pub enum FadtBlock {
    SmiCmd,
    Pm1aEvtBlk,
    Pm1bEvtBlk,
    Pm1aCntBlk,
    Pm1bCntBlk,
    Pm2CntBlk,
    PmTmrBlk,
    Gpe0Blk,
    Gpe1Blk,
}

pub fn is_present(b: Block) -> bool
    ensures { result ≡ present b }
{
    b.address != 0
}

// How far the port lies past the block's first; zero before it.
pub fn offset(b: Block, port: u64) -> u64
    ensures { result ≡ port - b.address }
{
    bits::past(port, b.address)
}

pub fn holds_port(b: Block, port: u64) -> bool
    ensures { result ≡ holds b port }
{
    if b.address <= port {
        is_present(b) & (port - b.address < b.length as u64)
    } else {
        false
    }
}

// The lower block has to hold the other's first port; a block above another is present.
pub fn overlaps(a: Block, b: Block) -> bool
    ensures { result ≡ overlap a b }
{
    if a.address < b.address {
        return is_present(a) & (b.address - a.address < a.length as u64);
    }
    if b.address < a.address {
        return is_present(b) & (a.address - b.address < b.length as u64);
    }
    is_present(a) & ((a.length != 0) | (b.length != 0))
}

pub fn passes_ports(b: Block) -> bool
    ensures { result ≡ passes_ports b }
{
    if PORTS < b.address {
        return true;
    }
    PORTS - b.address < b.length as u64
}
