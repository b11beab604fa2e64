// Numbers that fit a type of fewer bits.
ghost use Rattle.std.specs.Prelude.{◌≡◌};
ghost use Rattle.script.specs.Fields.{number_below};

use text::hex_value;

#[tactic(auto, unfolding(crate::specs::Fields::is_below, crate::specs::Fields::number_below, text::specs::Numbers::number_in, text::specs::Numbers::number_of))]
pub(crate) fn hex16(digits: &[u8]) -> Option<u16>
    ensures { result ≡ number_below 0x10000 digits.now }
{
    u16::try_from(hex_value(digits)?).ok()
}

#[tactic(auto, unfolding(crate::specs::Fields::is_below, crate::specs::Fields::number_below, text::specs::Numbers::number_in, text::specs::Numbers::number_of))]
pub(crate) fn hex32(digits: &[u8]) -> Option<u32>
    ensures { result ≡ number_below 0x100000000 digits.now }
{
    u32::try_from(hex_value(digits)?).ok()
}
