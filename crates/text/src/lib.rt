// What the programs share: input and its lines, a line's fields, and text for output.
#![tactic(auto)]

pub mod fields;
pub mod heard;
pub mod line;
pub mod page;
pub mod settings;
