// The times of changes.
ghost use Rattle.std.specs.Prelude.{◌≡◌};
ghost use Rattle.lxt_format.specs.Times.{time_of};
ghost use Rattle.lxt_format.specs.BiasedTimes.{biased, unbiased};
ghost use Rattle.lxt_format.specs.Changes.{chain_of};
ghost use Rattle.lxt_format.specs.Values.{latest_at, visited_in};
ghost use Rattle.lxt_values.specs.Times.{Limit, Readable, found_at, first_below, visited_to};

use crate::entries::TimeTable;
use lxt_changes::delta;
use lxt_sections::times::BIAS;

// A time with its bias of 2^63.
fn with_bias(t: i64) -> u64
    ensures { result ≡ biased t }
{
    t.cast_unsigned().wrapping_add(BIAS)
}

// A time without it.
fn without_bias(x: u64) -> i64
    ensures { result ≡ unbiased x }
{
    x.wrapping_sub(BIAS).cast_signed()
}

impl TimeTable<'_> {
    // The time of a change at `o`, by a pass up the table: that of the last entry at or below `o`, of entry 0
    // where none is, 0 where the table is empty. Positions never fall along the table.
    pub fn time_of(self, o: usize) -> i64
        ensures { result ≡ time_of self.entry.file.now o }
    {
        if self.count == 0 {
            return 0;
        }
        let mut e = self.first();
        for _number in 1..self.count as usize {
            let next = self.following(e);
            if (o as u64) < next.position {
                return without_bias(e.time);
            }
            e = next;
        }
        without_bias(e.time)
    }

    // The offset below which a change has a time of at most `t`, which has its bias: the position of the first
    // entry with a later time, 0 where entry 0 is later, the end of the file where none is. Neither positions
    // nor times ever fall along the table, so that one pass finds it. Without an entry every time is 0.
    fn limit(self, t: u64) -> usize
        ensures { Limit self.entry.file.now (unbiased t) result }
    {
        if self.count == 0 {
            if t < BIAS {
                return 0;
            }
            return self.file.len();
        }
        let mut e = self.first();
        if t < e.time {
            return 0;
        }
        for _number in 1..self.count as usize {
            e = self.following(e);
            if t < e.time {
                return e.position as usize;
            }
        }
        self.file.len()
    }

    // The same by the time itself.
    pub fn limit_at(self, t: i64) -> usize
        ensures { Limit self.entry.file.now t result }
    {
        self.limit(with_bias(t))
    }

    // The latest change of the chain from `from` on with a time of at most `t`, if there is one: the chain
    // falls, so that it is the first one below the limit.
    pub fn latest(self, from: usize, t: i64) -> Found
        requires { Readable self.file.now (chain_of self.file.now from) }
        ensures { (result.offset ≡ found_at (latest_at self.entry.file.now t (chain_of self.entry.file.now from))) × (result.visited ≡ visited_in self.entry.file.now t (chain_of self.entry.file.now from)) }
    {
        first_below(self.file, from, self.limit_at(t))
    }
}

// The offset of a change that was looked for, if there is one, and how many changes were visited.
#[derive(Clone, Copy)]
pub struct Found {
    pub offset: Option<usize>,
    pub visited: usize,
}

// The first change below the limit `end` on the chain from `from` on, if there is one. All changes down to it are
// visited, and all of the chain where there is none.
pub fn first_below(file: &[u8], from: usize, end: usize) -> Found
    requires { Readable file.now (chain_of file.now from) }
    ensures { (result.offset ≡ found_at (first_below end (chain_of file.now from))) × (result.visited ≡ visited_to end (chain_of file.now from)) }
{
    let mut o = from;
    let mut visited: usize = 0;
    // a chain of offsets, not a count
    while o != 0 {
        visited += 1;
        if o < end {
            return Found {
                offset: Some(o),
                visited,
            };
        }
        o = delta::previous(file, o);
    }
    Found {
        offset: None,
        visited,
    }
}
