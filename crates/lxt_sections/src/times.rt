// The layout of a time table: m in 4 bytes, the first and the last time, m position deltas of 4 bytes, then
// m time deltas. A time has 8 bytes in a wide table, that of tag 09, and 4 in that of tag 06.
ghost use Rattle.std.specs.Prelude.{◌≡◌, ◌+◌, ◌*◌, ◌≤◌, ◌<◌, length};
ghost use Rattle.lxt_format.specs.Bytes.{number_at, u32_at};
ghost use Rattle.lxt_format.specs.Sections.{time_bytes, times_size};
ghost use Rattle.lxt_format.specs.BiasedTimes.{biased_bytes};

use crate::{be32, be64};

// The bytes of a time.
pub fn time_bytes(wide: bool) -> usize
    ensures { (result ≡ time_bytes wide) × (result ≤ 8) }
{
    if wide {
        return 8;
    }
    4
}

// The bytes of a table of `m` entries.
pub fn size(wide: bool, m: u32) -> usize
    ensures { (result ≡ times_size wide m) × (result < 1099511627776) }
{
    let bytes = time_bytes(wide);
    let count = m as usize;
    4 + 2 * bytes + 4 * count + bytes * count
}

// Where the last time of the table at `times` stands.
pub fn last_at(times: usize, wide: bool) -> usize
    requires { times < 9223372036854775808 }
    ensures { result ≡ times + 4 + time_bytes wide }
{
    times + 4 + time_bytes(wide)
}

// Where its position deltas start.
pub fn positions_at(times: usize, wide: bool) -> usize
    requires { times < 9223372036854775808 }
    ensures { (result ≡ times + 4 + 2 * time_bytes wide) × (result ≤ times + 20) }
{
    times + 4 + 2 * time_bytes(wide)
}

// Where its time deltas start.
pub fn steps_at(times: usize, m: u32, wide: bool) -> usize
    requires { times < 9223372036854775808 }
    ensures { result ≡ times + 4 + 2 * time_bytes wide + 4 * m }
{
    positions_at(times, wide) + 4 * (m as usize)
}

// The bytes of time `i` of those from `at` on, as a number; 4 bytes are widened with zeros.
pub fn time_at(file: &[u8], at: usize, wide: bool, i: usize) -> u64
    requires { (i < 4294967296) × (at + time_bytes wide * i + time_bytes wide ≤ length file.now) }
    ensures { result ≡ number_at (time_bytes wide) file.now (at + time_bytes wide * i) }
{
    if wide {
        return be64(file, at + 8 * i);
    }
    u64::from(be32(file, at + 4 * i))
}

// 2^63: what is added to a time, so that times in their order are numbers from 0 on.
pub const BIAS: u64 = 0x8000_0000_0000_0000;

// The time of these bytes, with the bias.
pub fn biased(bytes: u64) -> u64
    ensures { result ≡ biased_bytes bytes }
{
    bytes.wrapping_add(BIAS)
}

// The deltas of one entry: the bytes of the time's.
#[derive(Clone, Copy)]
pub struct Deltas {
    pub position: u32,
    pub time: u64,
}

// Those of entry `i`, of `m`.
pub fn deltas_of(file: &[u8], times: usize, m: u32, wide: bool, i: usize) -> Deltas
    requires { (times + times_size wide m ≤ length file.now) × (i < m) }
    ensures position_value { result.position ≡ u32_at file.now (times + 4 + 2 * time_bytes wide + 4 * i) }
    ensures time_value { result.time ≡ number_at (time_bytes wide) file.now (times + 4 + 2 * time_bytes wide + 4 * m + time_bytes wide * i) }
{
    Deltas {
        position: be32(file, positions_at(times, wide) + 4 * i),
        time: time_at(file, steps_at(times, m, wide), wide, i),
    }
}
