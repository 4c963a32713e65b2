// The reply buffer: a fixed room, filled from the front.
#![tactic(auto)]

pub mod buffer;
