// The general event bytes: storing one, and looking for an enabled status bit.
ghost use Rattle.std.specs.Prelude.{◌≡◌, set};
ghost use Rattle.machine.specs.Lines.{any_enabled, walked};
ghost use Rattle.machine.specs.Gpe.{no_store, stores, byte_put, byte_stored, stored};

use crate::Machine;
use crate::status::has_bit8;

// The most status bytes, and the most enable bytes, of a GPE block.
pub const GPE_BYTES: usize = platform::GPE_LONGEST as usize / 2;

// One of the machine's four arrays, or none.
#[derive(Clone, Copy)]
pub enum GpeArray {
    None,
    Gpe0Sts,
    Gpe0En,
    Gpe1Sts,
    Gpe1En,
}

// The byte that a step stores: in which array, at which place, and whether an enabled status bit is then looked for.
// Tried, slower: as an Option with an array of four, a general event round took 494 instructions in place of 425.
#[derive(Clone, Copy)]
pub struct GpeStore {
    pub place: u64,
    pub byte: u8,
    pub walks: bool,
    pub array: GpeArray,
}

impl GpeStore {
    // Nothing is stored.
    pub fn nothing() -> GpeStore
        ensures { result ≡ no_store }
    {
        GpeStore {
            place: 0,
            byte: 0,
            walks: false,
            array: GpeArray::None,
        }
    }
}

// The bytes with another at a place; past the last nothing changes.
fn with_byte(mut bytes: [u8; GPE_BYTES], place: u64, byte: u8) -> [u8; GPE_BYTES]
    ensures { result ≡ set bytes place byte }
{
    let i = place as usize;
    if i < GPE_BYTES {
        bytes[i] = byte;
        bytes
    } else {
        bytes
    }
}

// Whether some status bit of a block is set together with its enable. It looks at every byte, with no way out before the last.
fn any_enabled(sts: [u8; GPE_BYTES], en: [u8; GPE_BYTES]) -> bool
    ensures { result ≡ any_enabled sts en }
{
    let mut found = false;
    for i in 0..GPE_BYTES {
        found |= has_bit8(sts[i], en[i]);
    }
    found
}

fn stores(array: GpeArray) -> bool
    ensures { result ≡ stores array }
{
    match array {
        GpeArray::None => false,
        GpeArray::Gpe0Sts => true,
        GpeArray::Gpe0En => true,
        GpeArray::Gpe1Sts => true,
        GpeArray::Gpe1En => true,
    }
}

impl Machine {
    // The walk over all general event bytes; what it finds is stored.
    pub fn walk_gpe(mut self) -> Machine
        ensures { result ≡ walked self }
    {
        let sts0 = self.gpe0_sts;
        let en0 = self.gpe0_en;
        let sts1 = self.gpe1_sts;
        let en1 = self.gpe1_en;
        let pending = any_enabled(sts0, en0) | any_enabled(sts1, en1);
        self.gpe_pending = pending;
        self
    }

    fn put_byte(mut self, array: GpeArray, place: u64, byte: u8) -> Machine
        ensures { result ≡ byte_put self array place byte }
    {
        match array {
            GpeArray::None => self,
            GpeArray::Gpe0Sts => {
                let old = self.gpe0_sts;
                let new = with_byte(old, place, byte);
                self.gpe0_sts = new;
                self
            }
            GpeArray::Gpe0En => {
                let old = self.gpe0_en;
                let new = with_byte(old, place, byte);
                self.gpe0_en = new;
                self
            }
            GpeArray::Gpe1Sts => {
                let old = self.gpe1_sts;
                let new = with_byte(old, place, byte);
                self.gpe1_sts = new;
                self
            }
            GpeArray::Gpe1En => {
                let old = self.gpe1_en;
                let new = with_byte(old, place, byte);
                self.gpe1_en = new;
                self
            }
        }
    }

    fn store_byte(self, s: GpeStore) -> Machine
        ensures { result ≡ byte_stored self s }
    {
        let array = s.array;
        let walks = s.walks;
        let next = self.put_byte(array, s.place, s.byte);
        if walks { next.walk_gpe() } else { next }
    }

    pub(crate) fn store(self, s: GpeStore) -> Machine
        ensures { result ≡ stored self s }
    {
        let array = s.array;
        if stores(array) {
            self.store_byte(s)
        } else {
            self
        }
    }
}
