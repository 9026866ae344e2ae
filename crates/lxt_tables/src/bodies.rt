// The bodies of a file's sections as parts of the file.
ghost use Rattle.std.specs.Prelude.{◌≡◌, ◌+◌, ◌*◌, ◌≤◌, ◌<◌, length};
ghost use Rattle.lxt_format.specs.Bytes.{u32_at};
ghost use Rattle.lxt_tables.specs.Stage.{after_names};
ghost use Rattle.lxt_tables.specs.Asked.{Placed};
ghost use Rattle.lxt_tables.specs.Parts.{part_of, Bodies};

use lxt_sections::{Sections, be32, lies, times};

// A part is a number: its start times this, and its end. So parts in order are numbers in order.
pub const START: u64 = 4294967296;

// The part of `size` bytes from `start` on, where it lies between offset 4 and `end`; else an empty one.
pub fn part_of(end: usize, start: u32, size: usize) -> u64
    requires { (end < 4294967296) × (size < 1099511627776) }
    ensures { result ≡ part_of end start size }
{
    if !lies(end, start, size) {
        return 0;
    }
    u64::from(start) * START + (u64::from(start) + size as u64)
}

// The part of the excluded times: their count, then 16 bytes for each. The count is read once it was found to lie
// inside.
fn excluded_part(file: &[u8], end: usize, start: u32) -> u64
    requires { (end < 4294967296) × (end ≤ length file.now) }
    ensures { result ≡ part_of end start (4 + 16 * u32_at file.now start) }
{
    if !lies(end, start, 4) {
        return 0;
    }
    let count = be32(file, start as usize) as usize;
    part_of(end, start, 4 + 16 * count)
}

// How many sections may have a body: of the two tables of times one is there.
pub const BODIES: usize = 9;

// The parts of all bodies. An absent section starts at 0, and so does not lie inside.
pub fn bodies(file: &[u8], p: Sections, names_end: u32) -> [u64; BODIES]
    requires { (Placed file.now p) × (names_end ≡ after_names file.now) }
    ensures { Bodies file.now result }
{
    let n = p.facilities as usize;
    [
        part_of(p.end, p.sync, 4 * n),
        part_of(p.end, p.names, (names_end - p.names) as usize),
        part_of(p.end, p.geometry, 16 * n),
        part_of(p.end, p.timescale, 1),
        part_of(p.end, p.times, times::size(p.wide_times, p.time_count)),
        part_of(p.end, p.initial, 1),
        part_of(p.end, p.real_test, 8),
        excluded_part(file, p.end, p.excluded),
        part_of(p.end, p.time_zero, 8),
    ]
}
