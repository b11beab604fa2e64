// What setting up keeps of the table and of what the host gives.
ghost use Rattle.std.specs.Prelude.{◌≡◌};
ghost use Rattle.platform.specs.Fitted.{status_cells, enable_cells, wide_timer};

use crate::block::{Block, is_present};
use acpi::TMR_VAL_EXT;
use cells::Column;
use sleep::SleepTable;

// What the host gives beside the table.
#[derive(Clone, Copy, Debug, PartialEq, Eq)]
pub struct Host {
    // a bit set: the event, or the control bit, has its home in block B
    pub event_homes: u16,
    pub control_homes: u16,
    // whether the power override is fitted
    pub power_override: bool,
    // the SLP_TYP values of S0 to S5, PM1a_CNT's and PM1b_CNT's; an absent state's are both 255
    pub pairs: [[u8; 2]; 6],
}

// The fields stand by their size, so that there is no padding between them.
#[derive(Clone, Copy, Debug, PartialEq, Eq)]
pub struct Settings {
    // PM1a_EVT_BLK to GPE1_BLK, with their lengths
    pub pm1a_evt: Block,
    pub pm1b_evt: Block,
    pub pm1a_cnt: Block,
    pub pm1b_cnt: Block,
    pub pm2_cnt: Block,
    pub pm_tmr: Block,
    pub gpe0: Block,
    pub gpe1: Block,
    // SMI_CMD: the port where the guest writes commands to the firmware
    pub smi_cmd: u64,
    pub flags: u32,
    // a bit set: the event, or the control bit, has its home in block B
    pub event_homes: u16,
    pub control_homes: u16,
    pub acpi_enable: u8,
    pub acpi_disable: u8,
    // GPE1_BASE: the number of GPE1's first event
    pub gpe1_base: u8,
    // whether the power override is fitted
    pub power_override: bool,
    pub sleep: SleepTable,
}

// The fitted status cells.
pub fn status_cells(s: Settings) -> u16
    ensures { result ≡ status_cells s }
{
    cells::mask(Column::Status, s.flags, is_present(s.pm_tmr))
}

// The fitted enable cells.
pub fn enable_cells(s: Settings) -> u16
    ensures { result ≡ enable_cells s }
{
    cells::mask(Column::Enable, s.flags, is_present(s.pm_tmr))
}

// Whether the timer has 32 bits, and not 24.
pub fn wide_timer(s: Settings) -> bool
    ensures { result ≡ wide_timer s }
{
    cells::flag(s.flags, TMR_VAL_EXT)
}
