// Bytes put into a lent buffer: numbers, bytes, symbols, and a whole change.
#![tactic(auto)]

pub mod change;
pub mod parts;
pub mod put;
pub mod symbols;
