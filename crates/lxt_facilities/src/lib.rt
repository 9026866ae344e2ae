// The table of facilities that a trace is written from: whether its rows are allowed, and the names, the geometry
// and the sync section of the file.
#![tactic(auto)]

pub mod facilities;
pub mod geometry;
pub mod names;
