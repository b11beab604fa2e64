// The FADT's fields by byte offset, as wide as their values, and those of document 01's worked session.

pub const SIGNATURE: u32 = acpi::SIGNATURE as u32;

pub const LENGTH: u32 = acpi::LENGTH as u32;

pub const REVISION: u32 = acpi::REVISION as u32;

pub const CHECKSUM: u32 = acpi::CHECKSUM as u32;

pub const SMI_CMD: u32 = acpi::SMI_CMD as u32;

pub const ACPI_ENABLE: u32 = acpi::ACPI_ENABLE as u32;

pub const ACPI_DISABLE: u32 = acpi::ACPI_DISABLE as u32;

pub const PM1a_EVT_BLK: u32 = acpi::PM1a_EVT_BLK as u32;

pub const PM1b_EVT_BLK: u32 = acpi::PM1b_EVT_BLK as u32;

pub const PM1a_CNT_BLK: u32 = acpi::PM1a_CNT_BLK as u32;

pub const PM1b_CNT_BLK: u32 = acpi::PM1b_CNT_BLK as u32;

pub const PM2_CNT_BLK: u32 = acpi::PM2_CNT_BLK as u32;

pub const PM_TMR_BLK: u32 = acpi::PM_TMR_BLK as u32;

pub const GPE0_BLK: u32 = acpi::GPE0_BLK as u32;

pub const GPE1_BLK: u32 = acpi::GPE1_BLK as u32;

pub const PM1_EVT_LEN: u32 = acpi::PM1_EVT_LEN as u32;

pub const PM1_CNT_LEN: u32 = acpi::PM1_CNT_LEN as u32;

pub const PM2_CNT_LEN: u32 = acpi::PM2_CNT_LEN as u32;

pub const PM_TMR_LEN: u32 = acpi::PM_TMR_LEN as u32;

pub const GPE0_BLK_LEN: u32 = acpi::GPE0_BLK_LEN as u32;

pub const GPE1_BLK_LEN: u32 = acpi::GPE1_BLK_LEN as u32;

pub const GPE1_BASE: u32 = acpi::GPE1_BASE as u32;

pub const FLAGS: u32 = acpi::FLAGS as u32;

// What every platform of the tests has: each field's offset and its value. Every other byte is zero.
pub const COMMON: [[u32; 2]; 9] = [
    [SIGNATURE, 0x46],
    [SIGNATURE + 1, 0x41],
    [SIGNATURE + 2, 0x43],
    [SIGNATURE + 3, 0x50],
    [LENGTH, 116],
    [PM1a_EVT_BLK, 0x400],
    [PM1a_CNT_BLK, 0x404],
    [PM1_EVT_LEN, 4],
    [PM1_CNT_LEN, 2],
];

// What the worked session has beside these.
pub const SESSION: [[u32; 2]; 10] = [
    [REVISION, 1],
    [SMI_CMD, 0xB2],
    [ACPI_ENABLE, 0xE1],
    [ACPI_DISABLE, 0x1E],
    [PM1b_EVT_BLK, 0x440],
    [PM1b_CNT_BLK, 0x444],
    [PM_TMR_BLK, 0x408],
    [PM_TMR_LEN, 4],
    [GPE0_BLK, 0x420],
    [GPE0_BLK_LEN, 4],
];

// A sleep state is its pair (a, b), a in the high byte and b in the low. This one is absent.
pub const NO_STATE: u16 = 0xFFFF;

// The worked session's S0 to S5.
pub const SESSION_STATES: [u16; 6] = [0x0000, NO_STATE, NO_STATE, 0x0502, NO_STATE, 0x0700];
