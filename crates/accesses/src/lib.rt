// What a bus access reaches, and which accesses are refused.
#![tactic(auto)]

mod reached;
mod refusals;

pub use reached::{offset_in, register_in};
pub use refusals::{allowed, data_too_wide, leads_nowhere, wrong_width};
