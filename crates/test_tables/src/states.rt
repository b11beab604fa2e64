// Sleep states.
ghost use Rattle.std.specs.Prelude.{◌≡◌};
ghost use Rattle.test_tables.specs.States.{pair_of, pairs_of};

// The pair of each state, S0 to S5.
pub fn pairs_of(states: [u16; 6]) -> [[u8; 2]; 6]
    ensures { result ≡ pairs_of states }
{
    [
        pair(states[0]),
        pair(states[1]),
        pair(states[2]),
        pair(states[3]),
        pair(states[4]),
        pair(states[5]),
    ]
}

fn pair(state: u16) -> [u8; 2]
    ensures { result ≡ pair_of state }
{
    [(state / 256) as u8, (state % 256) as u8]
}
