// The time table of a trace: refusal 13.
ghost use Rattle.std.specs.Prelude.{◌≡◌, not, ◌+◌, ◌*◌, ◌≤◌, ◌<◌, eqb, length, drop};
ghost use Rattle.lxt_format.specs.Basics.{any};
ghost use Rattle.lxt_format.specs.Bytes.{numbers_at};
ghost use Rattle.lxt_format.specs.Sections.{time_bytes};
ghost use Rattle.lxt_format.specs.Geometry.{roots_of, sync_of};
ghost use Rattle.lxt_format.specs.Times.{table_allowed, times_allowed};
ghost use Rattle.lxt_tables.specs.Asked.{Sync, Times, Begins, Placed, rises_to};

use crate::geometry::{GeometryTable, sync_of};
use lxt_sections::times::{BIAS, biased, last_at, positions_at, steps_at, time_at};
use lxt_sections::{Sections, be32};

// Of the `m` deltas from `at` on none after the first is negative, and no sum of them is above `high`, where
// `first` is the first sum. No sum wraps: a delta is held to what is left up to `high`.
fn sums_allowed(file: &[u8], at: usize, wide: bool, m: u32, first: u64, high: u64) -> bool
    requires { (at + time_bytes wide * m ≤ length file.now) × (first ≤ high) }
    ensures { result ≡ rises_to high first (drop 1 (numbers_at (time_bytes wide) m file.now at)) }
{
    let count = m as usize;
    let mut sum = first;
    for i in 1..count {
        let delta = time_at(file, at, wide, i);
        let allowed = (delta < BIAS) & (delta <= high - sum);
        if !allowed {
            return false;
        }
        sum += delta;
    }
    true
}

// What a table with an entry begins with: its first position, and with their bias its first field, its last
// field and its first time.
#[derive(Clone, Copy)]
struct Head {
    position: u64,
    low: u64,
    high: u64,
    time: u64,
}

fn head_of(file: &[u8], times: usize, m: u32, wide: bool, end: usize) -> Head
    requires { Times file.now times m wide end × (0 < m) }
    ensures { Begins file.now result.position result.low result.high result.time }
{
    let low = time_at(file, times + 4, wide, 0);
    let high = time_at(file, last_at(times, wide), wide, 0);
    let position = u64::from(be32(file, positions_at(times, wide)));
    let time = time_at(file, steps_at(times, m, wide), wide, 0);
    Head {
        position,
        low: biased(low),
        high: biased(high),
        time: biased(time),
    }
}

// The rules of a table with an entry: positions from 4 up to T - 1, times from first to last, and no delta
// of a time after the first negative.
fn table_allowed(file: &[u8], times: usize, m: u32, wide: bool, end: usize) -> bool
    requires { Times file.now times m wide end × (0 < m) }
    ensures { result ≡ table_allowed file.now }
{
    let h = head_of(file, times, m, wide, end);
    let most = (end - 1) as u64;
    let position_allowed = (4 <= h.position) & (h.position <= most);
    let time_allowed = (h.low <= h.time) & (h.time <= h.high);
    if !(position_allowed & time_allowed) {
        return false;
    }
    sums_allowed(file, positions_at(times, wide), false, m, h.position, most)
        & sums_allowed(file, steps_at(times, m, wide), wide, m, h.time, h.high)
}

impl GeometryTable<'_> {
    // A root's sync entry is not 0.
    fn any_sync(self, sync: usize) -> bool
        requires { Sync self.file.now sync self.count }
        ensures { result ≡ any (λ f. not (eqb (sync_of self.entry.file.now f) 0)) (roots_of self.entry.file.now) }
    {
        for f in 0..self.count {
            if !self.is_alias(f) & (sync_of(self.file, sync, self.count, f) != 0) {
                return true;
            }
        }
        false
    }
}

// Refusal 13.
pub fn times_allowed(file: &[u8], p: Sections) -> bool
    requires { Placed file.now p }
    ensures { result ≡ times_allowed file.now }
{
    if p.time_count == 0 {
        let geometry = GeometryTable::new(file, p.geometry as usize, p.facilities);
        return !geometry.any_sync(p.sync as usize);
    }
    table_allowed(file, p.times as usize, p.time_count, p.wide_times, p.end)
}
