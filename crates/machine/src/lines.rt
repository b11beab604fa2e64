// The SCI and SMI lines.
ghost use Rattle.std.specs.Prelude.{◌≡◌, ◌||◌};
ghost use Rattle.std.specs.Int.Bits.{bit_and};
ghost use Rattle.machine.specs.Lines.{is_awake, sci_of, smi_of};
ghost use Rattle.machine.specs.Status.{has_bit};

use crate::Machine;
use crate::status::has_bit;
use cells::Column;

// The working state, S0.
pub fn awake(state: u8) -> bool
    ensures { result ≡ is_awake state }
{
    state == 0
}

// The bits that raise SCI or SMI, 0721 hex: those of TMR_EN, GBL_EN, PWRBTN_EN, SLPBTN_EN and RTC_EN, the same on every platform.
fn event_bits() -> u16
    ensures { result ≡ 0x0721 }
{
    cells::mask(Column::Event, 0, false)
}

fn event_output(pm1_sts: u16, pm1_en: u16, gpe_pending: bool) -> bool
    ensures { result ≡ (has_bit (bit_and pm1_sts pm1_en) 0x0721 || gpe_pending) }
{
    has_bit(pm1_sts & pm1_en, event_bits()) | gpe_pending
}

// SCI: in S0, SCI_EN and event.
pub fn sci(m: Machine) -> bool
    ensures { result ≡ sci_of m }
{
    awake(m.state) & (m.sci_en & event_output(m.pm1_sts, m.pm1_en, m.gpe_pending))
}

// SMI: in S0, an event without SCI_EN, a command waiting or the release flag.
pub fn smi(m: Machine) -> bool
    ensures { result ≡ smi_of m }
{
    awake(m.state)
        & ((!m.sci_en & event_output(m.pm1_sts, m.pm1_en, m.gpe_pending))
            | m.command_waits
            | m.gbl_rls)
}
