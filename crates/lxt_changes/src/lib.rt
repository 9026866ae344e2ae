// One change of a trace: its command, delta, data and previous change, and the faults of a chain:
// refusals 15 and 16.
#![tactic(auto)]

pub mod delta;
pub mod fault;
pub mod keep;
pub mod padding;
pub mod symbols;
