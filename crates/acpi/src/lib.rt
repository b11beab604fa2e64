// The fixed hardware of ACPI 6.4 by the standard's names: register bits (chapter 4) and FADT flags by number, FADT fields (chapter 5) by byte
// offset.
#![tactic(auto)]

// PM1 status, PM1a_STS and PM1b_STS
pub const TMR_STS: u8 = 0; // the timer's top bit changed

pub const BM_STS: u8 = 4; // a bus master asked for the bus

pub const GBL_STS: u8 = 5; // the firmware released the global lock

pub const PWRBTN_STS: u8 = 8; // the power button went down

pub const SLPBTN_STS: u8 = 9; // the sleep button went down

pub const RTC_STS: u8 = 10; // the real-time clock's alarm

pub const PCIEXP_WAKE_STS: u8 = 14; // a PCI Express wake

pub const WAK_STS: u8 = 15; // the machine woke, from S1 to S4

// PM1 enable, PM1a_EN and PM1b_EN: each at the bit of its status
pub const TMR_EN: u8 = 0; // TMR_STS raises SCI or SMI

pub const GBL_EN: u8 = 5; // GBL_STS raises SCI or SMI

pub const PWRBTN_EN: u8 = 8; // PWRBTN_STS raises SCI or SMI

pub const SLPBTN_EN: u8 = 9; // SLPBTN_STS raises SCI or SMI, and wakes

pub const RTC_EN: u8 = 10; // RTC_STS raises SCI or SMI, and wakes

pub const PCIEXP_WAKE_DIS: u8 = 14; // a disable: set, PCI Express does not wake; by document 01 its status is not set then either

// PM1 control, PM1a_CNT and PM1b_CNT
pub const SCI_EN: u8 = 0; // events raise SCI, not SMI

pub const BM_RLD: u8 = 1; // a bus master's request takes a processor out of C3

pub const GBL_RLS: u8 = 2; // written: the OS released the global lock, told to the firmware

pub const SLP_TYPx: u8 = 10; // the sleep type, bits 10 to 12

pub const SLP_EN: u8 = 13; // written: enters the state that SLP_TYPx names; reads zero

// PM2 control, PM2_CNT
pub const ARB_DIS: u8 = 0; // the bus arbiter is disabled

// FADT fields
pub const SIGNATURE: u8 = 0; // 4 bytes: FACP

pub const LENGTH: u8 = 4; // 4 bytes: the table's own length

pub const REVISION: u8 = 8; // of the table's layout

pub const CHECKSUM: u8 = 9; // with it the table's bytes sum to zero

pub const SMI_CMD: u8 = 48; // 4 bytes: the SMI command port

pub const ACPI_ENABLE: u8 = 52; // the command that sets SCI_EN

pub const ACPI_DISABLE: u8 = 53; // the command that clears it

pub const PM1a_EVT_BLK: u8 = 56; // 4 bytes: the block's address

pub const PM1b_EVT_BLK: u8 = 60; // 4 bytes: the block's address

pub const PM1a_CNT_BLK: u8 = 64; // 4 bytes: the block's address

pub const PM1b_CNT_BLK: u8 = 68; // 4 bytes: the block's address

pub const PM2_CNT_BLK: u8 = 72; // 4 bytes: the block's address

pub const PM_TMR_BLK: u8 = 76; // 4 bytes: the block's address

pub const GPE0_BLK: u8 = 80; // 4 bytes: the block's address

pub const GPE1_BLK: u8 = 84; // 4 bytes: the block's address

pub const PM1_EVT_LEN: u8 = 88; // a byte: the length of block A, and of block B

pub const PM1_CNT_LEN: u8 = 89; // a byte: the length of block A, and of block B

pub const PM2_CNT_LEN: u8 = 90; // a byte: the block's length

pub const PM_TMR_LEN: u8 = 91; // a byte: the block's length

pub const GPE0_BLK_LEN: u8 = 92; // a byte: the block's length

pub const GPE1_BLK_LEN: u8 = 93; // a byte: the block's length

pub const GPE1_BASE: u8 = 94; // the number of GPE1's first event

pub const FLAGS: u8 = 112; // 4 bytes: the flags

// FADT flags
pub const PWR_BUTTON: u8 = 4; // set: no fixed power button

pub const SLP_BUTTON: u8 = 5; // set: no fixed sleep button

pub const FIX_RTC: u8 = 6; // set: no fixed RTC wake status

pub const RTC_S4: u8 = 7; // the alarm wakes S4 too

pub const TMR_VAL_EXT: u8 = 8; // the timer has 32 bits, not 24

pub const PCI_EXP_WAK: u8 = 14; // PCIEXP_WAKE_STS and PCIEXP_WAKE_DIS are there

pub const HW_REDUCED_ACPI: u8 = 20; // no fixed hardware at all
