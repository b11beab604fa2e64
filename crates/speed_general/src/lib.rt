// More work that benches/ measures: the general event round, and the lines alone. They are no rows of speed_steps: all accesses there are of two bytes, and the
// compiler fits the step to that.
#![tactic(auto)]

ghost use Rattle.std.specs.Prelude.{◌≡◌};
ghost use Rattle.speed_general.specs.GeneralRound.{general_steps, general_run};
ghost use Rattle.speed_general.specs.LinesAlone.{all_enabled, status_from, lines_turn, lines_turns, lines_run};

use machine::{GPE_BYTES, Machine};
use model::{Event, Step};
use speed_runs::{
    Ports, Round, Run, lines, ports_from, prepared, read_at, run_rounds, set_up, write_at,
};

// The general event round, at the ports of a table: general event 3 enabled, raised, its status read and cleared.
#[derive(Clone, Copy)]
pub struct GeneralRound {
    pub ports: Ports,
}

impl Round for GeneralRound {
    ghost steps = { general_steps };

    fn last(self) -> u64 {
        3
    }

    #[tactic(auto, unfolding(crate::specs::GeneralRound::general_at))]
    fn step_at(self, k: u64, _older: u32) -> Step {
        let p = self.ports;
        match k {
            0 => write_at(p.gpe_en, 1, 0x08),
            1 => Step::Event(Event::General(3)),
            2 => read_at(p.gpe_sts, 1),
            _ => write_at(p.gpe_sts, 1, 0x08),
        }
    }

    fn has_lines(self, k: u64) -> bool {
        k == 3
    }
}

// n steps of the general event round, on the machine of a table whose PM1 blocks begin at base.
#[tactic(auto, unfolding(crate::specs::GeneralRound::general_run))]
#[unsafe(no_mangle)]
pub extern "C" fn speed_run_general(table: &[u8], base: u64, n: u64) -> u64
    ensures { result ≡ general_run table.now base n }
{
    let ports = ports_from(base);
    run_rounds(table, GeneralRound { ports }, n)
}

// Every general enable byte the same. gpe_pending is kept, here and below, which is right where they are zero.
#[tactic(auto, unfolding(crate::specs::LinesAlone::all_enabled))]
fn all_enabled(mut m: Machine, enables: u8) -> Machine
    ensures { result ≡ all_enabled m enables }
{
    m.gpe0_en = [enables; GPE_BYTES];
    m.gpe1_en = [enables; GPE_BYTES];
    m
}

// PM1 status and every general status byte from the sum, GPE1's from other bits than GPE0's.
#[tactic(auto, unfolding(crate::specs::LinesAlone::status_from))]
fn status_from(mut m: Machine, sum: u64) -> Machine
    ensures { result ≡ status_from m sum }
{
    let gpe0 = (sum % 0x100) as u8;
    let gpe1 = (sum / 0x100 % 0x100) as u8;
    m.pm1_sts = (sum % 0x10000) as u16;
    m.gpe0_sts = [gpe0; GPE_BYTES];
    m.gpe1_sts = [gpe1; GPE_BYTES];
    m
}

// The status cells from the sum so far, and the lines; 257 more, so that every status byte differs in the next turn.
#[tactic(auto, unfolding(crate::specs::LinesAlone::lines_turn))]
fn lines_turn(r: Run) -> Run
    ensures { result ≡ lines_turn r }
{
    let machine = status_from(r.machine, r.sum);
    let with_lines = lines(Run { machine, ..r });
    Run {
        sum: with_lines.sum.wrapping_add(257),
        ..with_lines
    }
}

#[tactic(auto, using(crate::proofs::Laws::turns_turn, crate::proofs::Laws::turns_end))]
fn lines_turns(start: Run, n: u64) -> Run
    ensures { result ≡ lines_turns n start }
{
    let mut r = start;
    for _ in 0..n {
        r = lines_turn(r);
    }
    r
}

// n turns of the lines alone, with every general enable byte as given.
#[tactic(auto, unfolding(crate::specs::LinesAlone::lines_run))]
#[unsafe(no_mangle)]
pub extern "C" fn speed_run_lines(table: &[u8], enables: u8, n: u64) -> u64
    ensures { result ≡ lines_run table.now enables n }
{
    let made = set_up(table, false);
    let enabled = all_enabled(made.machine, enables);
    let r = lines_turns(prepared(enabled), n);
    r.sum
}
