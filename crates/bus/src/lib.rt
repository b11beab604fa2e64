// Bus accesses.
#![tactic(auto)]

mod cell_rules;

ghost use Rattle.std.specs.Prelude.{◌≡◌, ◌%◌, ◌^◌};
ghost use Rattle.model.specs.Answer.{first_applying};
ghost use Rattle.model.specs.Bus.{read_of};
ghost use Rattle.model.specs.Effect.{effect_of};
ghost use Rattle.model.specs.Ports.{register_at, offset_at};
ghost use Rattle.model.specs.Step.{read_refusals, bus_step};
ghost use Rattle.model.specs.declared.Answer.TheVariants as answer;
ghost use Rattle.model.specs.declared.Step.TheVariants as step;

use accesses::{allowed, data_too_wide, leads_nowhere, offset_in, register_in, wrong_width};
use cell_rules::{read_cells, write_cells};
use machine::{Machine, awake};
use model::{Access, Answer, Effect, Register, Transfer};
use ports::walk;

// 20, 21, 23 and 24; else what is read.
fn read_answer(m: Machine, r: Register, width: u32, offset: u64) -> Answer
    ensures { result ≡ first_applying (read_refusals m r width offset) (answer.Done (read_of m r width offset)) }
{
    if awake(m.state) {
        if wrong_width(width) {
            return Answer::WrongWidth;
        }
        if leads_nowhere(r) {
            return Answer::NoBlock;
        }
        if allowed(r, width, offset) {
            Answer::Done(read_cells(m, r, width, offset))
        } else {
            Answer::NotAllowed
        }
    } else {
        Answer::Asleep
    }
}

// A read changes nothing.
fn read(m: Machine, access: Access, r: Register, offset: u64) -> Effect
    requires { (r ≡ register_at m.settings access.port) × (offset ≡ offset_at m.settings access.port) }
    ensures { result ≡ effect_of m (step.Read access) }
{
    model::unmoved(m.scalars(), read_answer(m, r, access.width, offset))
}

// What is written; wider data is refused, so no bit is lost.
fn low(written: u64) -> u32
    ensures { result ≡ written % 2 ^ 32 }
{
    (written % 0x100000000) as u32
}

// 20 to 22 and 24; else what the register says.
fn write(m: Machine, access: Access, r: Register, offset: u64, written: u64) -> Effect
    requires { (r ≡ register_at m.settings access.port) × (offset ≡ offset_at m.settings access.port) }
    ensures { result ≡ effect_of m (step.Write access written) }
{
    let width = access.width;
    if awake(m.state) {
        if wrong_width(width) {
            return model::unmoved(m.scalars(), Answer::WrongWidth);
        }
        if data_too_wide(width, written) {
            return model::unmoved(m.scalars(), Answer::DataTooWide);
        }
        if allowed(r, width, offset) {
            write_cells(m, r, width, offset, low(written))
        } else {
            model::unmoved(m.scalars(), Answer::NotAllowed)
        }
    } else {
        model::unmoved(m.scalars(), Answer::Asleep)
    }
}

// A bus access: one walk finds where its port leads, for a read as for a write.
pub fn access(m: Machine, t: Transfer) -> Effect
    ensures { result ≡ effect_of m (bus_step t) }
{
    let s = m.settings;
    let access = t.access;
    let place = walk(s, access.port);
    let r = register_in(place);
    let offset = offset_in(place);
    if t.writes {
        write(m, access, r, offset, t.written)
    } else {
        read(m, access, r, offset)
    }
}
