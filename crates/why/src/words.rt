// The rows of the table of setting up.
use platform::SetUpRefusal;

pub(crate) fn refusal(line: SetUpRefusal) -> &'static str {
    match line {
        SetUpRefusal::TableShort => "fewer than 116 bytes are lent",
        SetUpRefusal::NoSignature => "the first four bytes are not the signature FACP",
        SetUpRefusal::WrongLength => "the length field is below 116 or above the bytes lent",
        SetUpRefusal::WrongSum => "that many bytes do not sum to 0 modulo 256",
        SetUpRefusal::HardwareReduced => "flag bit 20 (hardware-reduced) is set",
        SetUpRefusal::BlockLength => {
            "a present block's length is not allowed, or just one of address and length is zero for PM2, timer or GPE"
        }
        SetUpRefusal::BlockPlace => {
            "PM1a event or control is absent, an address is misaligned, or a block or SMI_CMD passes port 65,535"
        }
        SetUpRefusal::BlocksOverlap => "two present blocks overlap",
        SetUpRefusal::Gpe1Numbers => {
            "GPE1's base is below GPE0's event count, or base plus count exceeds 256"
        }
        SetUpRefusal::SameCommands => "SMI_CMD is nonzero and ACPI_ENABLE equals ACPI_DISABLE",
        SetUpRefusal::WrongHomes => {
            "a home has a bit outside its mask, or where that B block is absent"
        }
        SetUpRefusal::SleepPairs => { "a sleep pair exceeds 7, or two present states share theirs" }
    }
}
