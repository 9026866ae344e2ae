// The lowest root whose chain has a fault, found by halving: a pass over all changes tells whether one of
// the first roots has one.
ghost use Rattle.std.specs.Prelude.{◌+◌, ◌≤◌, ◌<◌, length};
ghost use Rattle.lxt_chains.specs.Reading.{Ready, RootFault, Lowest, Between};
ghost use Rattle.lxt_chains.specs.Groups.{Decides};

use crate::chains::Chains;
use crate::{groups, roots};
use lxt_format::Summary;

// The chain of one of the facilities for which there is room has a fault.
fn any_within(file: &[u8], c: Chains, pending: &mut [u32]) -> bool
    requires { Ready file.now c × (length pending.old ≤ c.facilities) }
    ensures { Decides (RootFault file.now (length pending.old)) result }
{
    roots::put_offsets(file, c, pending);
    groups::any_fault(file, c, pending)
}

// The chain of one of the first `k` facilities has a fault.
pub fn any_of_first(file: &[u8], c: Chains, k: u32) -> bool
    requires { Ready file.now c × (k ≤ c.facilities) }
    ensures { Decides (RootFault file.now k) result }
{
    let mut pending = [0u32; Summary::MOST_FACILITIES as usize];
    any_within(file, c, &mut pending[..k as usize])
}

// No facility below `low` has a fault, and one below `high` has.
#[derive(Clone, Copy)]
struct Bounds {
    low: u32,
    high: u32,
}

// The half of the bounds in which the lowest one is.
fn halved(file: &[u8], c: Chains, b: Bounds) -> Bounds
    requires { Ready file.now c × (Between file.now c.facilities b.low b.high × (b.low + 1 < b.high)) }
    ensures { Between file.now c.facilities result.low result.high × ((b.low ≤ result.low) × ((result.high ≤ b.high) × (result.high + b.low < b.high + result.low))) }
{
    let middle = b.low + (b.high - b.low) / 2;
    if any_of_first(file, c, middle) {
        return Bounds { high: middle, ..b };
    }
    Bounds { low: middle, ..b }
}

// The lowest facility whose chain has a fault, where one has.
pub fn lowest(file: &[u8], c: Chains) -> u32
    requires { Ready file.now c × RootFault file.now c.facilities }
    ensures { Lowest file.now c.facilities result }
{
    let mut b = Bounds {
        low: 0,
        high: c.facilities,
    };
    // by halves, not a count
    while b.low + 1 < b.high {
        b = halved(file, c, b);
    }
    b.low
}
