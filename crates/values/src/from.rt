// The machine of the values.
ghost use Rattle.std.specs.Prelude.{◌≡◌, not, cond, ◌||◌, ◌∷◌, [], ◌/◌, ◌%◌, ◌^◌, eqb};
ghost use Rattle.acpi.specs.Bits.{SLP_TYPx};
ghost use Rattle.platform.specs.Blocks.{block};
ghost use Rattle.values.specs.Values.{settings_from, machine_from, pairs_in};

use acpi::{ARB_DIS, BM_RLD, SCI_EN, SLP_TYPx};
use bits::pick;
use machine::{GPE_BYTES, Machine};
use platform::{Block, Settings};
use sleep::SleepTable;

// Cut to a width, each by its own function: no From or TryFrom says what is cut off.
fn low8(v: u64) -> u8
    ensures { result ≡ v % 2 ^ 8 }
{
    (v % 256) as u8
}

fn low16(v: u64) -> u16
    ensures { result ≡ v % 2 ^ 16 }
{
    (v % 65536) as u16
}

fn low32(v: u64) -> u32
    ensures { result ≡ v % 2 ^ 32 }
{
    (v % 4294967296) as u32
}

fn flag(v: u64) -> bool
    ensures { result ≡ eqb (v % 2) 1 }
{
    v % 2 == 1
}

fn bit(v: u64, n: u8) -> bool
    ensures { result ≡ eqb (v / 2 ^ n % 2) 1 }
{
    if n < 64 { flag(v >> n) } else { false }
}

fn slp_typ(v: u64) -> u8
    ensures { result ≡ v / 2 ^ SLP_TYPx % 8 }
{
    ((v >> SLP_TYPx) % 8) as u8
}

fn block(address: u64, length: u64) -> Block
    ensures { result ≡ block address (length % 2 ^ 8) }
{
    Block::new(address, low8(length) as u32)
}

// An absent PM1 block has no length of its own.
fn pm1_block(address: u64, length: u64) -> Block
    ensures { result ≡ block address (cond (not (eqb address 0)) (length % 2 ^ 8) 0) }
{
    Block::new(address, pick(address != 0, low8(length), 0) as u32)
}

fn pair(v: u64) -> [u8; 2]
    ensures { result ≡ v / 2 ^ 8 % 2 ^ 8 ∷ v % 2 ^ 8 ∷ [] }
{
    [low8(v / 256), low8(v)]
}

fn pairs(v: [u64; crate::VALUES]) -> [[u8; 2]; 6]
    ensures { result ≡ pairs_in v }
{
    [
        pair(v[22]),
        pair(v[23]),
        pair(v[24]),
        pair(v[25]),
        pair(v[26]),
        pair(v[27]),
    ]
}

// The settings, from the records SMI_CMD to S5.
fn settings_from(v: [u64; crate::VALUES]) -> Settings
    ensures { result ≡ settings_from v }
{
    let pm1a_evt = pm1_block(v[3], v[11]);
    let pm1b_evt = pm1_block(v[4], v[11]);
    let pm1a_cnt = pm1_block(v[5], v[12]);
    let pm1b_cnt = pm1_block(v[6], v[12]);
    let pm2_cnt = block(v[7], v[13]);
    let pm_tmr = block(v[8], v[14]);
    let gpe0 = block(v[9], v[15]);
    let gpe1 = block(v[10], v[16]);
    let sleep = SleepTable::new(pairs(v));
    Settings {
        smi_cmd: v[0],
        acpi_enable: low8(v[1]),
        acpi_disable: low8(v[2]),
        pm1a_evt,
        pm1b_evt,
        pm1a_cnt,
        pm1b_cnt,
        pm2_cnt,
        pm_tmr,
        gpe0,
        gpe1,
        gpe1_base: low8(v[17]),
        flags: low32(v[18]),
        event_homes: low16(v[19]),
        control_homes: low16(v[20]),
        power_override: flag(v[21]),
        sleep,
    }
}

// The machine, from the values and its general event bytes; no record says whether an enabled general status bit is set, so it is looked for.
pub fn machine_from(
    v: [u64; crate::VALUES],
    gpe0_sts: [u8; GPE_BYTES],
    gpe0_en: [u8; GPE_BYTES],
    gpe1_sts: [u8; GPE_BYTES],
    gpe1_en: [u8; GPE_BYTES],
) -> Machine
    ensures { result ≡ machine_from v gpe0_sts gpe0_en gpe1_sts gpe1_en }
{
    let settings = settings_from(v);
    let cnt_a = v[32];
    let cnt_b = v[33];
    let m = Machine {
        settings,
        pm1_sts: low16(v[28]) | low16(v[29]),
        pm1_en: low16(v[30]) | low16(v[31]),
        gpe0_sts,
        gpe0_en,
        gpe1_sts,
        gpe1_en,
        counter: low32(v[35]),
        hold: low32(v[36]),
        button: flag(v[37]),
        command_waits: bit(v[38], 8),
        command: low8(v[38]) as u32,
        gbl_rls: flag(v[39]),
        armed: flag(v[40]),
        slp_typ_a: slp_typ(cnt_a),
        slp_typ_b: slp_typ(cnt_b),
        sci_en: bit(cnt_a, SCI_EN) | bit(cnt_b, SCI_EN),
        bm_rld: bit(cnt_a, BM_RLD) | bit(cnt_b, BM_RLD),
        arb_dis: bit(v[34], ARB_DIS),
        state: low8(v[41]),
        gpe_pending: false,
        wake_pin: flag(v[42]),
    };
    m.walk_gpe()
}
