// The PM1 event cells: one constant table, and the masks computed from it.
#![tactic(auto)]

ghost use Rattle.std.specs.Prelude.{◌≡◌};
ghost use Rattle.cells.specs.Cells.{flag_of, bit_at, is_fitted, has_enable, is_event, is_in, cell_bit, mask_of, cells};

use acpi::{
    BM_STS, FIX_RTC, GBL_STS, PCI_EXP_WAK, PCIEXP_WAKE_STS, PWR_BUTTON, PWRBTN_STS, RTC_STS,
    SLP_BUTTON, SLPBTN_STS, TMR_STS, WAK_STS,
};
use bits::pick;

#[derive(Clone, Copy, Debug, PartialEq, Eq)]
pub enum Status {
    Tmr,
    Bm,
    Gbl,
    Pwrbtn,
    Slpbtn,
    Rtc,
    PciexpWake,
    Wak,
}

#[derive(Clone, Copy, Debug, PartialEq, Eq)]
pub enum Enable {
    No,
    Yes,
    Disable,
}

#[derive(Clone, Copy, Debug, PartialEq, Eq)]
pub enum Fitted {
    Always,
    TimerPresent,
    FlagClear(u8),
    FlagSet(u8),
}

#[derive(Clone, Copy, Debug, PartialEq, Eq)]
pub struct Cell {
    pub bit: u8,
    pub status: Status,
    pub enable: Enable,
    pub fitted: Fitted,
}

const CELLS: [Cell; 8] = [
    Cell {
        bit: TMR_STS,
        status: Status::Tmr,
        enable: Enable::Yes,
        fitted: Fitted::TimerPresent,
    },
    Cell {
        bit: BM_STS,
        status: Status::Bm,
        enable: Enable::No,
        fitted: Fitted::Always,
    },
    Cell {
        bit: GBL_STS,
        status: Status::Gbl,
        enable: Enable::Yes,
        fitted: Fitted::Always,
    },
    Cell {
        bit: PWRBTN_STS,
        status: Status::Pwrbtn,
        enable: Enable::Yes,
        fitted: Fitted::FlagClear(PWR_BUTTON),
    },
    Cell {
        bit: SLPBTN_STS,
        status: Status::Slpbtn,
        enable: Enable::Yes,
        fitted: Fitted::FlagClear(SLP_BUTTON),
    },
    Cell {
        bit: RTC_STS,
        status: Status::Rtc,
        enable: Enable::Yes,
        fitted: Fitted::FlagClear(FIX_RTC),
    },
    Cell {
        bit: PCIEXP_WAKE_STS,
        status: Status::PciexpWake,
        enable: Enable::Disable,
        fitted: Fitted::FlagSet(PCI_EXP_WAK),
    },
    Cell {
        bit: WAK_STS,
        status: Status::Wak,
        enable: Enable::No,
        fitted: Fitted::Always,
    },
];

// Whose bits a mask holds.
#[derive(Clone, Copy, Debug, PartialEq, Eq)]
pub enum Column {
    // the eight of the table, fitted or not: C731 hex
    Known,
    // the fitted status cells
    Status,
    // the fitted enable cells, bit 14's disable too
    Enable,
    // those that raise SCI or SMI, fitted or not: 0721 hex
    Event,
}

// The bits of the column, on a platform with these FADT flags, with or without a PM timer.
pub fn mask(of: Column, flags: u32, timer: bool) -> u16
    ensures { result ≡ mask_of of flags timer cells }
{
    let mut m = 0;
    for c in CELLS {
        m |= cell_bit(of, flags, timer, c);
    }
    m
}

fn cell_bit(of: Column, flags: u32, timer: bool, c: Cell) -> u16
    ensures { result ≡ cell_bit of flags timer c }
{
    let bit = c.bit;
    pick(is_in(of, flags, timer, c), bit_at(bit), 0)
}

fn is_in(of: Column, flags: u32, timer: bool, c: Cell) -> bool
    ensures { result ≡ is_in of flags timer c }
{
    let e = c.enable;
    let f = c.fitted;
    match of {
        Column::Known => true,
        Column::Status => is_fitted(f, flags, timer),
        Column::Enable => has_enable(e) & is_fitted(f, flags, timer),
        Column::Event => is_event(e),
    }
}

fn is_fitted(f: Fitted, flags: u32, timer: bool) -> bool
    ensures { result ≡ is_fitted flags timer f }
{
    match f {
        Fitted::Always => true,
        Fitted::TimerPresent => timer,
        Fitted::FlagClear(n) => !flag(flags, n),
        Fitted::FlagSet(n) => flag(flags, n),
    }
}

fn has_enable(e: Enable) -> bool
    ensures { result ≡ has_enable e }
{
    !matches!(e, Enable::No)
}

fn is_event(e: Enable) -> bool
    ensures { result ≡ is_event e }
{
    matches!(e, Enable::Yes)
}

// Flag n of the FADT's flags; there are 32.
pub fn flag(flags: u32, n: u8) -> bool
    ensures { result ≡ flag_of flags n }
{
    if n < 32 { (flags >> n) % 2 == 1 } else { false }
}

// A register has 16 bits.
fn bit_at(n: u8) -> u16
    ensures { result ≡ bit_at n }
{
    if n < 16 { 1 << n } else { 0 }
}
