// Delimiters, levels, literal kinds and a Group's spans, with their tags and their reading.
#![tactic(auto)]

pub mod decode;
pub mod kinds;
