// The machine: all that a guest's power hardware holds, and setting it up.
#![tactic(auto)]

mod gpe;
mod lines;
mod scalars;
mod sleeping;
mod status;

ghost use Rattle.std.specs.Prelude.{◌≡◌, false};
ghost use Rattle.platform.specs.Blocks.{no_block};
ghost use Rattle.machine.specs.PowerOn.{zeroed, power_on, no_settings, all_zero};
ghost use Rattle.machine.specs.SetUp.{machine_for, set_up_of};

pub use gpe::{GPE_BYTES, GpeArray, GpeStore};
pub use lines::{awake, sci, smi};
use platform::{Block, Host, SetUpRefusal, Settings};
pub use scalars::Scalars;
use sleep::SleepTable;
pub use sleeping::{StateChange, WakeSource, is_sleeping, wake_bits};
pub use status::{BM, GBL, PCIEXP_WAKE, PWRBTN, RTC, SLPBTN, TMR, WAK, has_bit, has_bit8};

// No padding stands between the fields: with it the compiler would copy them as bytes.
#[derive(Clone, Copy)]
pub struct Machine {
    pub settings: Settings,
    // SCI_EN, BM_RLD, and SLP_TYPx of PM1a_CNT
    pub sci_en: bool,
    pub bm_rld: bool,
    pub slp_typ_a: u8,
    // ARB_DIS of PM2_CNT
    pub arb_dis: bool,
    // SLP_TYPx of PM1b_CNT
    pub slp_typ_b: u8,
    // SLP_EN was written at A, and B is awaited
    pub armed: bool,
    // 0 to 5 for S0 to S5
    pub state: u8,
    // whether a GPE status bit is set together with its enable; SCI, SMI and completing take it from here and look at no byte
    pub gpe_pending: bool,
    // the command's byte, zero where none waits, in 32 bits, since with a byte there would be padding; and whether one waits for the firmware
    pub command: u32,
    pub command_waits: bool,
    // the wake pin is active: the level at the input of PCIEXP_WAKE_STS
    pub wake_pin: bool,
    // PM1a_STS with PM1b_STS; a bit's home says in which block it is read and written, here and in pm1_en
    pub pm1_sts: u16,
    // TMR_VAL, and with TMR_VAL_EXT E_TMR_VAL above it
    pub counter: u32,
    // the release flag: GBL_RLS was written, and the firmware has not dropped it
    pub gbl_rls: bool,
    // the power button is down
    pub button: bool,
    // PM1a_EN with PM1b_EN
    pub pm1_en: u16,
    // hold, document 01's word: ticks in S0 with the power button down since the last press, at most 14,318,180
    pub hold: u32,
    // GPE0_STS, GPE0_EN, GPE1_STS and GPE1_EN; bytes past a block's own are zero
    pub gpe0_sts: [u8; GPE_BYTES],
    pub gpe0_en: [u8; GPE_BYTES],
    pub gpe1_sts: [u8; GPE_BYTES],
    pub gpe1_en: [u8; GPE_BYTES],
}

// A struct and no Result, since "any refusal to make one gives it all zero": the machine is there either way.
#[derive(Clone, Copy)]
pub struct SetUp {
    pub answer: Result<(), SetUpRefusal>,
    pub machine: Machine,
}

// Every cell, count and flag zero.
fn blank(settings: Settings) -> Machine
    ensures { result ≡ zeroed settings false }
{
    Machine {
        settings,
        pm1_sts: 0,
        pm1_en: 0,
        gpe0_sts: [0; GPE_BYTES],
        gpe0_en: [0; GPE_BYTES],
        gpe1_sts: [0; GPE_BYTES],
        gpe1_en: [0; GPE_BYTES],
        counter: 0,
        hold: 0,
        button: false,
        command_waits: false,
        command: 0,
        gbl_rls: false,
        armed: false,
        slp_typ_a: 0,
        slp_typ_b: 0,
        sci_en: false,
        bm_rld: false,
        arb_dis: false,
        state: 0,
        gpe_pending: false,
        wake_pin: false,
    }
}

// Power-on: all zero, but SCI_EN set exactly if SMI_CMD is zero.
pub fn power_on(settings: Settings) -> Machine
    ensures { result ≡ power_on settings }
{
    let mut m = blank(settings);
    m.sci_en = settings.smi_cmd == 0;
    m
}

fn no_block() -> Block
    ensures { result ≡ no_block }
{
    Block::new(0, 0)
}

fn no_settings() -> Settings
    ensures { result ≡ no_settings }
{
    let block = no_block();
    let sleep = SleepTable::new([[0; 2]; 6]);
    Settings {
        smi_cmd: 0,
        acpi_enable: 0,
        acpi_disable: 0,
        pm1a_evt: block,
        pm1b_evt: block,
        pm1a_cnt: block,
        pm1b_cnt: block,
        pm2_cnt: block,
        pm_tmr: block,
        gpe0: block,
        gpe1: block,
        gpe1_base: 0,
        flags: 0,
        event_homes: 0,
        control_homes: 0,
        power_override: false,
        sleep,
    }
}

pub fn all_zero() -> Machine
    ensures { result ≡ all_zero }
{
    blank(no_settings())
}

// The machine that goes with an answer: power-on, or all zero.
fn machine_for(answer: Result<(), SetUpRefusal>, settings: Settings) -> Machine
    ensures { result ≡ machine_for answer settings }
{
    match answer {
        Ok(()) => power_on(settings),
        Err(_) => all_zero(),
    }
}

// Sets a machine up from a FADT (table) and what the host gives, or says which of document 01's lines 1 to 12 refuses.
pub fn set_up(table: &[u8], host: Host) -> SetUp
    ensures { result ≡ set_up_of table.now host.event_homes host.control_homes host.power_override host.pairs }
{
    // Line 1 first: past it every field is within the table, and is read with no test of its place.
    if fadt::table_short(table) {
        let answer = Err(SetUpRefusal::TableShort);
        let machine = all_zero();
        return SetUp { answer, machine };
    }
    let s = fadt::settings(table, host);
    let answer = fadt::judge(table, s);
    let machine = machine_for(answer, s);
    SetUp { answer, machine }
}
