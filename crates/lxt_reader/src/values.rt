// The values of changes, and the value at a time.
ghost use Rattle.std.specs.Prelude.{◌≡◌, length};
ghost use Rattle.lxt_format.specs.Answers.{timed_says, lookup_says};
ghost use Rattle.lxt_format.specs.Questions.{change_asked, change_buffer, value_asked, value_buffer};

use crate::changes;
use lxt_changes::padding::is_clean;
use lxt_format::{Lookup, Refusal, TimedValue};
use lxt_values::entries::TimeTable;
use lxt_values::value;

// A change's time and value, and whether its padding is 0; its symbols fill the first bytes of the lent buffer.
pub fn of_change(
    file: &[u8],
    facility: u32,
    offset: u32,
    bits: &mut [u8],
) -> Result<TimedValue, Refusal>
    ensures { (timed_says result ≡ change_asked file.now facility offset (length bits.old)) × (bits.new ≡ change_buffer file.now facility offset bits.old) }
{
    let c = changes::find_change(file, facility, offset)?;
    let facts = c.facts;
    if bits.len() < facts.width as usize {
        return Err(Refusal::Room);
    }
    let t = c.tables;
    let o = offset as usize;
    let times = TimeTable::new(file, t.times as usize, t.time_count, t.wide_times);
    let time = times.time_of(o);
    let clean = is_clean(file, facts.kind, facts.width, o);
    let value = value::read(file, t.end, t.order, facts.kind, facts.width, o, bits);
    Ok(TimedValue { time, value, clean })
}

// The value at a time, by the latest change, and how many changes were visited; its symbols fill the first
// bytes of the lent buffer.
pub fn at_time(file: &[u8], facility: u32, time: i64, bits: &mut [u8]) -> Result<Lookup, Refusal>
    ensures { (lookup_says result ≡ value_asked file.now facility time (length bits.old)) × (bits.new ≡ value_buffer file.now facility time bits.old) }
{
    let chain = changes::find_chain(file, facility)?;
    let facts = chain.facts;
    if bits.len() < facts.width as usize {
        return Err(Refusal::Room);
    }
    let t = chain.tables;
    let times = TimeTable::new(file, t.times as usize, t.time_count, t.wide_times);
    let found = times.latest(chain.start as usize, time);
    let value = value::at(
        file,
        t.end,
        t.order,
        t.initial,
        facts.kind,
        facts.width,
        found.offset,
        bits,
    );
    Ok(Lookup {
        value,
        visited: found.visited as u32,
    })
}
