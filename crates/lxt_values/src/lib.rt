// The values of changes, their times, and the expanded names.
#![tactic(auto)]

pub mod entries;
pub mod names;
pub mod reals;
pub mod symbols;
pub mod texts;
pub mod times;
pub mod value;
