// The sending of a value as its parts in wire order.
#![tactic(auto)]

pub mod send;

// Both were modules here, and are reached by these paths still.
pub use parts;
pub use source;
