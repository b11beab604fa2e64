// The values compared with those of their machine.
ghost use Rattle.std.specs.Prelude.{◌≡◌};
ghost use Rattle.values.specs.Agree.{agreeing};
ghost use Rattle.values.specs.Values.{values_of};

use crate::of::values_of;
use machine::Machine;

// The place of the first value that differs; the number of values where none does. `saved` has its own of bytes: a generic one would be
// said over the bound's `eq`, and the definition is over numbers.
fn agreeing(left: [u64; crate::VALUES], right: [u64; crate::VALUES]) -> usize
    ensures { result ≡ agreeing left right }
{
    for i in 0..crate::VALUES {
        if left[i] != right[i] {
            return i;
        }
    }
    crate::VALUES
}

// The place of the first value that is not the machine's.
pub fn first_stray(m: Machine, values: [u64; crate::VALUES]) -> usize
    ensures { result ≡ agreeing (values_of m) values }
{
    agreeing(values_of(m), values)
}
