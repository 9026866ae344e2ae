// The tables of a trace: names, geometry, aliases, times and the real test: refusals 10 to 14.
#![tactic(auto)]

pub mod aliases; // aliases.rt: refusal 12
pub mod bodies; // bodies.rt: the bodies of the sections as parts of the file
pub mod geometry; // geometry.rt: refusal 11 and facts
pub mod names; // names.rt: refusal 10
pub mod reals; // reals.rt: refusal 14
pub mod single; // single.rt: the timescale and the initial symbol
pub mod times; // times.rt: refusal 13
pub mod whole; // whole.rt: refusals 1 to 14

// What refusals 1 to 14 pass: whether times have 8 bytes, n, m, C, T, where each table starts, the
// offset after the last name, the timescale, the initial symbol and the byte order of reals (all 0 where
// there is no real facility).
#[derive(Clone, Copy)]
pub struct Tables {
    pub wide_times: bool,
    pub facilities: u32,
    pub time_count: u32,
    pub end: usize,
    pub changes: u32,
    pub sync: u32,
    pub names: u32,
    pub names_end: u32,
    pub geometry: u32,
    pub times: u32,
    pub timescale: i8,
    pub initial: u8,
    pub order: [u8; 8],
}
