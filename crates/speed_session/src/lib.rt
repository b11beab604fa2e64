// The session that benches/ measures, n times, and one number that depends on all of them. A crate of its own, so that in the
// archive of `speed_steps` a step has one caller.
#![tactic(auto)]

ghost use Rattle.std.specs.Prelude.{◌≡◌, length};
ghost use Rattle.session.specs.Session.{buffer_after};
ghost use Rattle.speed_session.specs.Sessions.{session_turn, sum_after, buffers_after};

// A session once more; its answer's number and value are added.
#[tactic(auto, unfolding(crate::specs::Sessions::session_turn))]
fn session_turn(table: &[u8], script: &[u8], buf: &mut [u8], sum: u64) -> u64
    ensures { (result ≡ session_turn table.now script.now (length buf.old) sum) × (buf.new ≡ buffer_after table.now script.now buf.old) }
{
    let answer = session::session(table, script, buf);
    let number = u64::from(session::number(answer));
    let value = session::value(answer) as u64;
    sum.wrapping_add(number).wrapping_add(value)
}

// n sessions into the same lent buffer.
#[tactic(auto, using(crate::proofs::Laws::sum_turn, crate::proofs::Laws::sum_end, crate::proofs::Laws::buffers_turn, crate::proofs::Laws::buffers_end, crate::proofs::Laws::buffer_length))]
#[unsafe(no_mangle)]
pub extern "C" fn speed_run_session(table: &[u8], script: &[u8], buf: &mut [u8], n: u64) -> u64
    ensures { (result ≡ sum_after table.now script.now n buf.old 0) × (buf.new ≡ buffers_after table.now script.now n buf.old) }
{
    let mut sum: u64 = 0;
    for _ in 0..n {
        sum = session_turn(table, script, buf, sum);
    }
    sum
}
