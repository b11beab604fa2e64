// A platform's settings, as the FADT and the host give them, and rules 5 to 12 of setting up.
#![tactic(auto)]

mod block;
mod rules;
mod settings;

pub use block::{Block, FadtBlock, PORTS, holds_port, is_present, offset};
pub use rules::{
    BLOCKS, GPE_LONGEST, SetUpRefusal, blocks, event_count, judge, number, refusal_number,
    refusal_value, value,
};
pub use settings::{Host, Settings, enable_cells, status_cells, wide_timer};
