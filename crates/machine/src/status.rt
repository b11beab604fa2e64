// The PM1 event bits, each at its place in the status and in the enable register (PWRBTN: PWRBTN_STS and PWRBTN_EN), and whether one is set.
ghost use Rattle.std.specs.Prelude.{◌≡◌};
ghost use Rattle.machine.specs.Status.{has_bit};

use acpi::{BM_STS, GBL_STS, PCIEXP_WAKE_STS, PWRBTN_STS, RTC_STS, SLPBTN_STS, TMR_STS, WAK_STS};

pub const TMR: u16 = 1 << TMR_STS;

pub const BM: u16 = 1 << BM_STS;

pub const GBL: u16 = 1 << GBL_STS;

pub const PWRBTN: u16 = 1 << PWRBTN_STS;

pub const SLPBTN: u16 = 1 << SLPBTN_STS;

pub const RTC: u16 = 1 << RTC_STS;

pub const PCIEXP_WAKE: u16 = 1 << PCIEXP_WAKE_STS;

pub const WAK: u16 = 1 << WAK_STS;

pub fn has_bit(mask: u16, bit: u16) -> bool
    ensures { result ≡ has_bit mask bit }
{
    (mask & bit) != 0
}

// A byte's, apart for the reason of bits::clear8.
pub fn has_bit8(mask: u8, bit: u8) -> bool
    ensures { result ≡ has_bit mask bit }
{
    (mask & bit) != 0
}
