// The saved texts that benches/ measures: one read, and one written, n times, each with one number that depends on all of it.
#![tactic(auto)]

ghost use Rattle.std.specs.Prelude.{◌≡◌, length};
ghost use Rattle.saved.specs.Text.{written_buffer};
ghost use Rattle.saved.specs.Reading.{read_of};
ghost use Rattle.speed_saved.specs.Texts.{read_turn, reads_of, counting, write_turn, writes_of, buffer_after};

use machine::Machine;

// A text read once more; its answer's number and its machine's counter are added.
#[tactic(auto, unfolding(crate::specs::Texts::read_turn))]
fn read_turn(text: &[u8], sum: u64) -> u64
    ensures { result ≡ read_turn text.now sum }
{
    let back = saved::read(text);
    let answer = back.answer;
    let machine = back.machine;
    let counted = sum.wrapping_add(u64::from(saved::read_number(answer)));
    counted.wrapping_add(u64::from(machine.counter))
}

#[tactic(auto, using(crate::proofs::Laws::reads_turn, crate::proofs::Laws::reads_end))]
#[unsafe(no_mangle)]
pub extern "C" fn speed_run_read(text: &[u8], n: u64) -> u64
    ensures { result ≡ reads_of text.now n 0 }
{
    let mut sum: u64 = 0;
    for _ in 0..n {
        sum = read_turn(text, sum);
    }
    sum
}

// The machine with the sum so far as its counter.
fn counting(m: Machine, sum: u64) -> Machine
    ensures { result ≡ counting m sum }
{
    let mut machine = m;
    machine.counter = (sum % 4294967296) as u32;
    machine
}

// Its text written once more; the answer's number and value are added.
#[tactic(auto, unfolding(crate::specs::Texts::write_turn))]
fn write_turn(m: Machine, buf: &mut [u8], sum: u64) -> u64
    ensures { (result ≡ write_turn m (length buf.old) sum) × (buf.new ≡ written_buffer (counting m sum) buf.old) }
{
    let answer = saved::write(counting(m, sum), buf);
    let counted = sum.wrapping_add(u64::from(saved::written_number(answer)));
    counted.wrapping_add(saved::written_value(answer))
}

#[tactic(auto, using(crate::proofs::Laws::writes_turn, crate::proofs::Laws::writes_end, crate::proofs::Laws::buffer_turn, crate::proofs::Laws::buffer_end, crate::proofs::Laws::written_length))]
fn writes(m: Machine, buf: &mut [u8], n: u64) -> u64
    ensures { (result ≡ writes_of m (length buf.old) n 0) × (buf.new ≡ buffer_after m n buf.old 0) }
{
    let mut sum: u64 = 0;
    for _ in 0..n {
        sum = write_turn(m, buf, sum);
    }
    sum
}

// The machine of a text, written n times into the same lent buffer.
#[unsafe(no_mangle)]
pub extern "C" fn speed_run_write(text: &[u8], buf: &mut [u8], n: u64) -> u64
    ensures { (result ≡ writes_of (read_of text.now).machine (length buf.old) n 0) × (buf.new ≡ buffer_after (read_of text.now).machine n buf.old 0) }
{
    let back = saved::read(text);
    let m = back.machine;
    writes(m, buf, n)
}
