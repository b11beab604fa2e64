// What the measured loops share: the worked session's machine, a step with what it adds to the sum, the lines, and steps round and round.
#![tactic(auto)]

ghost use Rattle.std.specs.Prelude.{◌≡◌, ℕ};
ghost use Rattle.speed_runs.specs.Runs.{
  set_up_here,
  ports_of,
  prepared_of,
  read_at,
  write_at,
  run_step,
  lines_added,
  sum_of,
  Steps,
  next_place,
  rounds_of,
  rounds_run,
};

use machine::{Machine, SetUp, sci, smi};
use model::{Access, Step, Stepped};
use platform::Host;

// The worked session's homes and sleep type pairs.
const EVENT_HOMES: u16 = 0x0400;

const PAIRS: [[u8; 2]; 6] = [[0, 0], [255, 255], [255, 255], [5, 2], [255, 255], [7, 0]];

// The ports of PM1 status and control in blocks A and B, and of GPE0's first status and enable byte.
#[derive(Clone, Copy)]
pub struct Ports {
    pub sts_a: u64,
    pub sts_b: u64,
    pub cnt_a: u64,
    pub cnt_b: u64,
    pub gpe_sts: u64,
    pub gpe_en: u64,
}

// A machine, the values of its last step and of the one before, and the sum of all numbers and values.
#[derive(Clone, Copy)]
pub struct Run {
    pub machine: Machine,
    pub value: u32,
    pub older: u32,
    pub sum: u64,
}

// A round of steps, by their places from 0 on.
pub trait Round: Copy {
    ghost steps: { Self → Steps };

    // The place of the last step.
    fn last(self) -> u64
        ensures { result ≡ (steps self).last };

    // The step at a place, where `older` is the value of the step before the last.
    fn step_at(self, k: u64, older: u32) -> Step
        ensures { result ≡ (steps self).at k older };

    // Whether the lines are added after it.
    fn has_lines(self, k: u64) -> bool
        ensures { result ≡ (steps self).lines k };
}

// As the worked session's table has them, from PM1a_EVT on.
#[tactic(auto, unfolding(crate::specs::Runs::ports_of))]
pub fn ports_from(base: u64) -> Ports
    ensures { result ≡ ports_of base }
{
    Ports {
        sts_a: base,
        sts_b: base.wrapping_add(0x40),
        cnt_a: base.wrapping_add(0x04),
        cnt_b: base.wrapping_add(0x44),
        gpe_sts: base.wrapping_add(0x20),
        gpe_en: base.wrapping_add(0x22),
    }
}

pub fn read_at(port: u64, width: u32) -> Step
    ensures { result ≡ read_at port width }
{
    Step::Read(Access { width, port })
}

pub fn write_at(port: u64, width: u32, written: u64) -> Step
    ensures { result ≡ write_at port width written }
{
    Step::Write(Access { width, port }, written)
}

// The worked session's host, with or without the override.
pub fn set_up(table: &[u8], power_override: bool) -> SetUp
    ensures { result ≡ set_up_here table.now power_override }
{
    let host = Host {
        event_homes: EVENT_HOMES,
        control_homes: 0,
        power_override,
        pairs: PAIRS,
    };
    machine::set_up(table, host)
}

// SCI_EN, PWRBTN_EN, RTC_EN and BM set.
#[tactic(auto, unfolding(crate::specs::Runs::prepared_of))]
pub fn prepared(m: Machine) -> Run
    ensures { result ≡ prepared_of m }
{
    let mut machine = m;
    machine.pm1_sts = 0x0010;
    machine.pm1_en = 0x0500;
    machine.sci_en = true;
    Run {
        machine,
        value: 0,
        older: 0,
        sum: 0,
    }
}

// One step, its answer's number and value added to the sum.
#[tactic(auto, unfolding(crate::specs::Runs::run_step))]
pub fn done(r: Run, s: Step) -> Run
    ensures { result ≡ run_step r s }
{
    let Stepped { answer, machine } = step::step(r.machine, s);
    let value = model::value(answer);
    let number = u64::from(model::number(answer)) + u64::from(value);
    Run {
        machine,
        value,
        older: r.value,
        sum: r.sum.wrapping_add(number),
    }
}

// SCI and SMI, added to the sum.
#[tactic(auto, unfolding(crate::specs::Runs::lines_added))]
pub fn lines(r: Run) -> Run
    ensures { result ≡ lines_added r }
{
    let machine = r.machine;
    let with_sci = r.sum.wrapping_add(bits::pick(sci(machine), 1, 0));
    Run {
        sum: with_sci.wrapping_add(bits::pick(smi(machine), 2, 0)),
        ..r
    }
}

// The sum, with the status cells and the counter at the end.
#[tactic(auto, unfolding(crate::specs::Runs::sum_of))]
pub fn sum(r: Run) -> u64
    ensures { result ≡ sum_of r }
{
    let m = r.machine;
    r.sum
        .wrapping_add(u64::from(m.pm1_sts))
        .wrapping_add(u64::from(m.counter))
}

#[tactic(auto, unfolding(crate::specs::Runs::next_place), using(std::proofs::lemmas::Bool::Decides::nat_tests))]
fn next_place(last: u64, k: u64) -> u64
    ensures { result ≡ next_place last k }
{
    if k < last { k + 1 } else { 0 }
}

// n steps of the round, from its first on and round again.
#[tactic(auto, using(crate::proofs::Laws::rounds_turn, crate::proofs::Laws::rounds_end))]
fn rounds<R: Round>(round: R, start: Run, n: u64) -> Run
    ensures { result ≡ rounds_of (R.steps round) n 0 start }
{
    let mut r = start;
    let last = round.last();
    let mut k: u64 = 0;
    for _ in 0..n {
        let s = round.step_at(k, r.older);
        r = done(r, s);
        if round.has_lines(k) {
            r = lines(r);
        }
        k = next_place(last, k);
    }
    r
}

// n steps of the round, on the machine of a table.
#[tactic(auto, unfolding(crate::specs::Runs::rounds_run))]
pub fn run_rounds<R: Round>(table: &[u8], round: R, n: u64) -> u64
    ensures { result ≡ rounds_run table.now (R.steps round) n }
{
    let made = set_up(table, false);
    sum(rounds(round, prepared(made.machine), n))
}
