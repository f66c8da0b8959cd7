// What every crate above uses: the numbers returned (R8), and parts of a lent buffer.
#![tactic(auto)]

pub mod answer;
pub mod buffer;
