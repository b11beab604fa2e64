// The machine as the values of the saved text's number records, in their order, and back. It knows no text.
#![tactic(auto)]

mod from;
mod of;
mod stray;

pub use from::machine_from;
pub use of::values_of;
pub use stray::first_stray;

// How many records have a number.
pub const VALUES: usize = 43;
