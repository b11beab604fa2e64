// The values of a machine.
ghost use Rattle.std.specs.Prelude.{◌≡◌, ◌++◌, ◌+◌, ◌*◌, ◌^◌};
ghost use Rattle.acpi.specs.Bits.{ARB_DIS};
ghost use Rattle.registers.specs.Registers.{bit_when};
ghost use Rattle.values.specs.Values.{flag_value, pair_value, settings_values, command_value, machine_values, values_of};

use acpi::ARB_DIS;
use machine::Machine;
use platform::Settings;

fn flag_value(b: bool) -> u64
    ensures { result ≡ flag_value b }
{
    if b { 1 } else { 0 }
}

// One byte, then another.
fn two_bytes(a: u8, b: u8) -> u64
    ensures { result ≡ a * 2 ^ 8 + b }
{
    u64::from(a) * 256 + u64::from(b)
}

fn pair_value(p: [u8; 2]) -> u64
    ensures { result ≡ pair_value p }
{
    two_bytes(p[0], p[1])
}

fn command_value(waits: bool, command: u32) -> u64
    ensures { result ≡ command_value waits command }
{
    if waits { 256 + u64::from(command) } else { 0 }
}

fn arb_dis_value(arb_dis: bool) -> u64
    ensures { result ≡ bit_when arb_dis ARB_DIS }
{
    if arb_dis { 1 << ARB_DIS } else { 0 }
}

// The records SMI_CMD to S5.
fn settings_values(s: Settings) -> [u64; 28]
    ensures { result ≡ settings_values s }
{
    let pm1a_evt = s.pm1a_evt;
    let pm1b_evt = s.pm1b_evt;
    let pm1a_cnt = s.pm1a_cnt;
    let pm1b_cnt = s.pm1b_cnt;
    let pm2_cnt = s.pm2_cnt;
    let pm_tmr = s.pm_tmr;
    let gpe0 = s.gpe0;
    let gpe1 = s.gpe1;
    let sleep = s.sleep;
    let pairs = sleep.pairs();
    [
        s.smi_cmd,
        u64::from(s.acpi_enable),
        u64::from(s.acpi_disable),
        pm1a_evt.address,
        pm1b_evt.address,
        pm1a_cnt.address,
        pm1b_cnt.address,
        pm2_cnt.address,
        pm_tmr.address,
        gpe0.address,
        gpe1.address,
        u64::from(pm1a_evt.length),
        u64::from(pm1a_cnt.length),
        u64::from(pm2_cnt.length),
        u64::from(pm_tmr.length),
        u64::from(gpe0.length),
        u64::from(gpe1.length),
        u64::from(s.gpe1_base),
        u64::from(s.flags),
        u64::from(s.event_homes),
        u64::from(s.control_homes),
        flag_value(s.power_override),
        pair_value(pairs[0]),
        pair_value(pairs[1]),
        pair_value(pairs[2]),
        pair_value(pairs[3]),
        pair_value(pairs[4]),
        pair_value(pairs[5]),
    ]
}

// The records PM1a_STS to WAKE_PIN.
fn machine_values(m: Machine) -> [u64; 15]
    ensures { result ≡ machine_values m }
{
    let s = m.settings;
    [
        u64::from(registers::status_register(s, m.pm1_sts, false)),
        u64::from(registers::status_register(s, m.pm1_sts, true)),
        u64::from(registers::enable_register(s, m.pm1_en, false)),
        u64::from(registers::enable_register(s, m.pm1_en, true)),
        u64::from(registers::control_register(s, m.scalars(), false)),
        u64::from(registers::control_register(s, m.scalars(), true)),
        arb_dis_value(m.arb_dis),
        u64::from(m.counter),
        u64::from(m.hold),
        flag_value(m.button),
        command_value(m.command_waits, m.command),
        flag_value(m.gbl_rls),
        flag_value(m.armed),
        u64::from(m.state),
        flag_value(m.wake_pin),
    ]
}

fn joined(first: [u64; 28], then: [u64; 15]) -> [u64; crate::VALUES]
    ensures { result ≡ first ++ then }
{
    let mut all = [0u64; crate::VALUES];
    let (settings, machine) = all.split_at_mut(28);
    settings.copy_from_slice(&first);
    machine.copy_from_slice(&then);
    all
}

// All of them, in the order of the records.
pub fn values_of(m: Machine) -> [u64; crate::VALUES]
    ensures { result ≡ values_of m }
{
    let s = m.settings;
    joined(settings_values(s), machine_values(m))
}
