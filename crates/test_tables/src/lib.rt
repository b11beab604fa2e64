// What tests set machines up with: a FADT's fields under ACPI's names, a table made from a list of them, sleep states.
#![tactic(auto)]

mod fields;
mod states;
mod tables;

pub use fields::{
    ACPI_DISABLE, ACPI_ENABLE, CHECKSUM, COMMON, FLAGS, GPE0_BLK, GPE0_BLK_LEN, GPE1_BASE,
    GPE1_BLK, GPE1_BLK_LEN, LENGTH, NO_STATE, PM_TMR_BLK, PM_TMR_LEN, PM1_CNT_LEN, PM1_EVT_LEN,
    PM1a_CNT_BLK, PM1a_EVT_BLK, PM1b_CNT_BLK, PM1b_EVT_BLK, PM2_CNT_BLK, PM2_CNT_LEN, REVISION,
    SESSION, SESSION_STATES, SIGNATURE, SMI_CMD,
};
pub use states::pairs_of;
pub use tables::{ROOM, filled, summing_to};
