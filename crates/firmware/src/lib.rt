// Firmware steps.
#![tactic(auto)]

ghost use Rattle.std.specs.Prelude.{◌≡◌};
ghost use Rattle.machine.specs.PowerOn.{no_settings};
ghost use Rattle.machine.specs.Scalars.{bare, scalars_of};
ghost use Rattle.model.specs.Effect.{effect_of};
ghost use Rattle.model.specs.Firmware.{is_acpi_enable, is_acpi_disable, sci_en_after, enables_after, take_of, drop_of};
ghost use Rattle.model.specs.declared.Step.TheVariants as step;

use machine::{Scalars, awake};
use model::{Answer, Effect};
use platform::Settings;

fn wide(x: u8) -> u32
    ensures { result ≡ x }
{
    x as u32
}

fn is_acpi_enable(s: Settings, x: Scalars) -> bool
    ensures { result ≡ is_acpi_enable (bare s x) }
{
    x.command == wide(s.acpi_enable)
}

fn is_acpi_disable(s: Settings, x: Scalars) -> bool
    ensures { result ≡ is_acpi_disable (bare s x) }
{
    x.command == wide(s.acpi_disable)
}

// ACPI_ENABLE sets SCI_EN; ACPI_DISABLE clears it; others only leave.
fn sci_en_after(s: Settings, x: Scalars) -> bool
    ensures { result ≡ sci_en_after (bare s x) }
{
    if is_acpi_enable(s, x) {
        true
    } else {
        if is_acpi_disable(s, x) {
            false
        } else {
            x.sci_en
        }
    }
}

// ACPI_ENABLE clears all PM1 enable cells, PCIEXP_WAKE_DIS too, if SCI_EN was clear.
fn enables_after(s: Settings, x: Scalars) -> u16
    ensures { result ≡ enables_after (bare s x) }
{
    if is_acpi_enable(s, x) {
        if x.sci_en { x.pm1_en } else { 0 }
    } else {
        x.pm1_en
    }
}

fn take_command(s: Settings, x: Scalars) -> Scalars
    ensures { result ≡ scalars_of (take_of (bare s x)) }
{
    let en = enables_after(s, x);
    let sci_en = sci_en_after(s, x);
    let mut next = x.copied();
    next.pm1_en = en;
    next.sci_en = sci_en;
    next.command_waits = false;
    next.command = 0;
    next
}

// The firmware takes the waiting command: 20 and 31; else the command.
pub fn take(s: Settings, x: Scalars) -> Effect
    ensures { result ≡ effect_of (bare s x) step.Take }
{
    if awake(x.state) {
        if x.command_waits {
            model::done(x.command, take_command(s, x), None)
        } else {
            model::unmoved(x, Answer::NoCommand)
        }
    } else {
        model::unmoved(x, Answer::Asleep)
    }
}

fn drop_flag(x: Scalars) -> Scalars
    ensures { result ≡ scalars_of (drop_of (bare no_settings x)) }
{
    let mut next = x.copied();
    next.gbl_rls = false;
    next
}

// The firmware drops the release flag: 20, else 0.
pub fn drop(x: Scalars) -> Effect
    ensures { result ≡ effect_of (bare no_settings x) step.Drop }
{
    if awake(x.state) {
        model::done(0, drop_flag(x), None)
    } else {
        model::unmoved(x, Answer::Asleep)
    }
}
