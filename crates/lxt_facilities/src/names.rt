// Section 03: the names, each with the longest prefix that it shares with the name before.
ghost use Rattle.std.specs.Prelude.{◌≡◌, true, [], ◌+◌, ◌-◌, ◌≤◌, length};
ghost use Rattle.lxt_format.specs.Buffers.{placed};
ghost use Rattle.lxt_written.specs.Input.{part};
ghost use Rattle.lxt_written.specs.WrittenFile.{shared, names_from};
ghost use Rattle.lxt_facilities.specs.Rows.{names_in, facilities_allowed, FacilitiesMeasured, with_prefix};

use crate::facilities;
use crate::facilities::{KIND, NAME_LENGTH, NAME_START};
use lxt_pack::put;

// How many bytes two parts of the pool share at their starts.
fn shared(names: &[u8], before: usize, held: usize, at: usize, size: usize) -> usize
    requires { (before + held ≤ length names.now) × (at + size ≤ length names.now) }
    ensures { (result ≡ shared (part names.now before held) (part names.now at size)) × (result ≤ size) }
{
    let most = held.min(size);
    for k in 0..most {
        if names[before + k] != names[at + k] {
            return k;
        }
    }
    most
}

// What the first pass finds where every facility is allowed: the bytes of all names as they are written, the
// memory M, and whether a facility is a real.
#[derive(Clone, Copy)]
pub struct Measured {
    pub size: usize,
    pub memory: usize,
    pub real: bool,
}

pub fn measure(facilities: &[[u32; 5]], names: &[u8]) -> Option<Measured>
    requires { length facilities.now ≤ 4096 }
    ensures { FacilitiesMeasured names.now facilities.now result }
{
    let mut size: usize = 0;
    let mut memory: usize = 0;
    let mut real = false;
    let mut before: usize = 0;
    let mut held: usize = 0;
    for row in facilities {
        if !facilities::allowed(names, *row) {
            return None;
        }
        let at = row[NAME_START] as usize;
        let length = row[NAME_LENGTH] as usize;
        let k = shared(names, before, held, at, length);
        size += 3 + (length - k);
        memory += length + 1;
        real = real | (row[KIND] == 2);
        before = at;
        held = length;
    }
    Some(Measured { size, memory, real })
}

// One name.
fn put_name(names: &[u8], k: usize, at: usize, size: usize, out: &mut [u8], p: usize)
    requires { (k ≤ size) × (size ≤ 1023) × (at + size ≤ length names.now) × (p + 3 + (size - k) ≤ length out.old) }
    ensures { out.new ≡ placed out.old p (with_prefix k (part names.now at size)) }
{
    put::number::<2>(out, p, k as u32);
    put::copy(out, p + 2, &names[at + k..at + size]);
    put::number::<1>(out, p + 2 + (size - k), 0);
}

// All names, from `at` on.
pub fn put_all(facilities: &[[u32; 5]], names: &[u8], out: &mut [u8], at: usize)
    requires { (facilities_allowed names.now facilities.now ≡ true) × (at + length (names_from [] (names_in names.now facilities.now)) ≤ length out.old) }
    ensures { out.new ≡ placed out.old at (names_from [] (names_in names.now facilities.now)) }
{
    let mut p = at;
    let mut before: usize = 0;
    let mut held: usize = 0;
    for row in facilities {
        let start = row[NAME_START] as usize;
        let size = row[NAME_LENGTH] as usize;
        let k = shared(names, before, held, start, size);
        put_name(names, k, start, size, out, p);
        p += 3 + (size - k);
        before = start;
        held = size;
    }
}
