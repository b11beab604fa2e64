// The FADT's fields by name.
use crate::numbers::number;
use std::io;

// The offset of the field; a number is itself one.
pub(crate) fn offset(out: &impl Print, name: &[u8]) -> io::Result<u32> {
    let offset = match name {
        b"LENGTH" => test_tables::LENGTH,
        b"SMI_CMD" => test_tables::SMI_CMD,
        b"ACPI_ENABLE" => test_tables::ACPI_ENABLE,
        b"ACPI_DISABLE" => test_tables::ACPI_DISABLE,
        b"PM1a_EVT_BLK" => test_tables::PM1a_EVT_BLK,
        b"PM1b_EVT_BLK" => test_tables::PM1b_EVT_BLK,
        b"PM1a_CNT_BLK" => test_tables::PM1a_CNT_BLK,
        b"PM1b_CNT_BLK" => test_tables::PM1b_CNT_BLK,
        b"PM2_CNT_BLK" => test_tables::PM2_CNT_BLK,
        b"PM_TMR_BLK" => test_tables::PM_TMR_BLK,
        b"GPE0_BLK" => test_tables::GPE0_BLK,
        b"GPE1_BLK" => test_tables::GPE1_BLK,
        b"PM1_EVT_LEN" => test_tables::PM1_EVT_LEN,
        b"PM1_CNT_LEN" => test_tables::PM1_CNT_LEN,
        b"PM2_CNT_LEN" => test_tables::PM2_CNT_LEN,
        b"PM_TMR_LEN" => test_tables::PM_TMR_LEN,
        b"GPE0_BLK_LEN" => test_tables::GPE0_BLK_LEN,
        b"GPE1_BLK_LEN" => test_tables::GPE1_BLK_LEN,
        b"GPE1_BASE" => test_tables::GPE1_BASE,
        b"FLAGS" => test_tables::FLAGS,
        _ => number(out, name)?,
    };
    Ok(offset)
}
