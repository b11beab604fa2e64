// The platform line.
ghost use Rattle.std.specs.Prelude.{◌≡◌, get_or};
ghost use Rattle.text.specs.Numbers.{digit_of};
ghost use Rattle.script.specs.Fields.{field_at};
ghost use Rattle.script.specs.PlatformLine.{
  override_reads,
  state_reads,
  states_read,
  platform_reads,
  homes_at,
  override_in,
  pair_of,
  pairs_in,
  host_in,
};

use crate::hex_fields::hex16;
use platform::Host;
use text::{digit_of, field, field_count, field_is, hex_value};

#[tactic(auto, unfolding(crate::specs::PlatformLine::platform_reads, crate::specs::Fields::number_below))]
pub fn platform_reads(line: &[u8]) -> bool
    ensures { result ≡ platform_reads line.now }
{
    (field_count(line) == 10)
        & field_is(line, 0, b"platform")
        & hex16(field(line, 1)).is_some()
        & hex16(field(line, 2)).is_some()
        & override_reads(line)
        & states_read(line)
}

// What the line says of the host.
pub fn host(line: &[u8]) -> Host
    ensures { result ≡ host_in line.now }
{
    let event_homes = event_homes(line);
    let control_homes = control_homes(line);
    let power_override = power_override(line);
    let pairs = pairs(line);
    Host {
        event_homes,
        control_homes,
        power_override,
        pairs,
    }
}

// Homes that do not read are 0.
fn event_homes(line: &[u8]) -> u16
    ensures { result ≡ homes_at line.now 1 }
{
    homes_at(line, 1)
}

fn control_homes(line: &[u8]) -> u16
    ensures { result ≡ homes_at line.now 2 }
{
    homes_at(line, 2)
}

fn power_override(line: &[u8]) -> bool
    ensures { result ≡ override_in line.now }
{
    field_is(line, 3, b"1")
}

// The pair of each sleep state; an absent state's is (255, 255).
fn pairs(line: &[u8]) -> [[u8; 2]; 6]
    ensures { result ≡ pairs_in line.now }
{
    [
        pair(line, 4),
        pair(line, 5),
        pair(line, 6),
        pair(line, 7),
        pair(line, 8),
        pair(line, 9),
    ]
}

// Whether field 3 is the override, 0 or 1.
#[tactic(auto, unfolding(crate::specs::PlatformLine::override_reads))]
fn override_reads(line: &[u8]) -> bool
    ensures { result ≡ override_reads (field_at line.now 3) }
{
    field_is(line, 3, b"0") | field_is(line, 3, b"1")
}

// Whether field n is a state: absent, or two digits.
#[tactic(auto, unfolding(crate::specs::PlatformLine::state_reads, text::specs::Numbers::number_in, text::specs::Numbers::is_number))]
fn state_reads(line: &[u8], n: usize) -> bool
    ensures { result ≡ state_reads (field_at line.now n) }
{
    let absent = field_is(line, n, b"-");
    let digits = field(line, n);
    absent | ((digits.len() == 2) & hex_value(digits).is_some())
}

#[tactic(auto, unfolding(crate::specs::PlatformLine::states_read))]
fn states_read(line: &[u8]) -> bool
    ensures { result ≡ states_read line.now }
{
    state_reads(line, 4)
        & state_reads(line, 5)
        & state_reads(line, 6)
        & state_reads(line, 7)
        & state_reads(line, 8)
        & state_reads(line, 9)
}

// The number of field n, where it is one of 16 bits; else 0.
#[tactic(auto, unfolding(crate::specs::PlatformLine::homes_at, crate::specs::Fields::number_below))]
fn homes_at(line: &[u8], n: usize) -> u16
    ensures { result ≡ homes_at line.now n }
{
    hex16(field(line, n)).unwrap_or(0)
}

// The digit at a place of a text; 16 where none stands.
#[tactic(auto, unfolding(text::specs::Numbers::digit_of, text::specs::Numbers::digit_in))]
fn digit_at(digits: &[u8], i: usize) -> u8
    ensures { result ≡ digit_of (get_or digits.now i 0) }
{
    match digits.get(i) {
        Some(byte) => digit_of(*byte).unwrap_or(16),
        None => 16,
    }
}

#[tactic(auto, unfolding(crate::specs::PlatformLine::pair_of))]
fn pair(line: &[u8], n: usize) -> [u8; 2]
    ensures { result ≡ pair_of (field_at line.now n) }
{
    if field_is(line, n, b"-") {
        return [255, 255];
    }
    let digits = field(line, n);
    [digit_at(digits, 0), digit_at(digits, 1)]
}
