// The pairs of sleep type values of S0 to S5: rule 12, and the state that a pair names.
#![tactic(auto)]

ghost use Rattle.std.specs.Prelude.{◌≡◌, [], ◌∷◌, drop, position};
ghost use Rattle.lists.specs.Any.{any, any_two};
ghost use Rattle.sleep.specs.Pairs.{sleep_table, absent, out_of_range, same_pair, shared, sleep_refused, named, state_of};

// "for each of S0 to S5, absent or a pair (a, b)": a pair is [a, b], absent is both 255.
#[derive(Clone, Copy, Debug, PartialEq, Eq)]
pub struct SleepTable {
    pub pairs: [[u8; 2]; 6],
}

impl SleepTable {
    pub fn new(pairs: [[u8; 2]; 6]) -> SleepTable
        ensures { result ≡ sleep_table pairs }
    {
        SleepTable { pairs }
    }

    pub fn pairs(self) -> [[u8; 2]; 6]
        ensures { result ≡ self.pairs }
    {
        self.pairs
    }
}

pub fn absent(p: [u8; 2]) -> bool
    ensures { result ≡ absent p }
{
    (p[0] == 255) & (p[1] == 255)
}

fn out_of_range(p: [u8; 2]) -> bool
    ensures { result ≡ out_of_range p }
{
    !absent(p) & ((7 < p[0]) | (7 < p[1]))
}

fn same_pair(p: [u8; 2], q: [u8; 2], b_control: bool) -> bool
    ensures { result ≡ same_pair b_control p q }
{
    (p[0] == q[0]) & (!b_control | (p[1] == q[1]))
}

fn shared(p: [u8; 2], q: [u8; 2], b_control: bool) -> bool
    ensures { result ≡ shared b_control p q }
{
    if absent(p) {
        return false;
    }
    if absent(q) {
        return false;
    }
    same_pair(p, q, b_control)
}

fn any_out_of_range(pairs: [[u8; 2]; 6]) -> bool
    ensures { result ≡ any out_of_range pairs }
{
    pairs.iter().any(|p| out_of_range(*p))
}

fn any_shared(pairs: [[u8; 2]; 6], b_control: bool) -> bool
    ensures { result ≡ any_two (shared b_control) pairs }
{
    for i in 0..6 {
        for j in i + 1..6 {
            if shared(pairs[i], pairs[j], b_control) {
                return true;
            }
        }
    }
    false
}

// Rule 12 for these pairs; b_control: PM1b control is present.
pub fn refused(pairs: [[u8; 2]; 6], b_control: bool) -> bool
    ensures { result ≡ sleep_refused b_control pairs }
{
    any_out_of_range(pairs) | any_shared(pairs, b_control)
}

// A's value first, since it tells most states apart.
fn named(p: [u8; 2], q: [u8; 2], b_control: bool) -> bool
    ensures { result ≡ named b_control q p }
{
    if p[0] == q[0] {
        !absent(p) & same_pair(p, q, b_control)
    } else {
        false
    }
}

// Where the pair (a, b) stands among those of S1 to S5.
fn place(pairs: [[u8; 2]; 6], b_control: bool, a: u8, b: u8) -> Option<usize>
    ensures { result ≡ position (named b_control (a ∷ b ∷ [])) (drop 1 pairs) }
{
    pairs
        .iter()
        .skip(1)
        .position(|p| named(*p, [a, b], b_control))
}

// The number, 1 to 5, of the state that the pair (a, b) names, if one is: S0's pair and absent states match nothing.
#[tactic(auto, unfolding(crate::specs::Pairs::state_of))]
pub fn state_of(pairs: [[u8; 2]; 6], b_control: bool, a: u8, b: u8) -> Option<u8>
    ensures { result ≡ state_of b_control a b pairs }
{
    let i = place(pairs, b_control, a, b)?;
    Some(i as u8 + 1)
}
