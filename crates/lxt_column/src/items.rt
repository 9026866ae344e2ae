// The items of a column: what each facility shows at the time, put into its record and its part of the bits.
ghost use Rattle.std.specs.Prelude.{◌≡◌, true, ◌-◌, ◌≤◌, ◌<◌, length};
ghost use Rattle.lxt_format.specs.Columns.{onto};
ghost use Rattle.lxt_format.specs.Buffers.{placed};
ghost use Rattle.lxt_format.specs.Geometry.{sync_of};
ghost use Rattle.lxt_format.specs.Changes.{chain_of};
ghost use Rattle.lxt_format.specs.Values.{source_by};
ghost use Rattle.lxt_format.specs.Answers.{shown, value_shown};
ghost use Rattle.lxt_format.specs.Questions.{written, record_by, widths_of, column_bits, column_records, column_visited};
ghost use Rattle.lxt_tables.specs.Asked.{Resolved};
ghost use Rattle.lxt_values.specs.Times.{found_at, first_below, visited_to};
ghost use Rattle.lxt_values.specs.Value.{content_from, Shows};
ghost use Rattle.lxt_column.specs.Listing.{Listed, Rooted, Forgotten, Remembered, undriven, record_from};

use lxt_format::{Kind, Value};
use lxt_tables::{Tables, geometry};
use lxt_values::entries::TimeTable;
use lxt_values::times::Found;
use lxt_values::{times, value};

// The place of a root in `known` before its chain has been followed.
pub const UNKNOWN: u64 = 0xFFFF_FFFF_FFFF_FFFF;

// The first change of a root below the limit `end`. Its chain is followed once, however often it is asked for:
// `known` then holds the offset, or 0, times 2^32, and how many changes were visited.
fn latest_of(file: &[u8], t: Tables, end: usize, root: u32, known: &mut [u64]) -> Found
    requires { Rooted file.now t root × Remembered file.now end known.old }
    ensures offset_value { (result.offset ≡ found_at (first_below end (chain_of file.now (sync_of file.now root)))) × (result.visited ≡ visited_to end (chain_of file.now (sync_of file.now root))) }
    ensures remembered { Remembered file.now end known.new }
{
    let place = root as usize;
    let word = known[place];
    if word != UNKNOWN {
        let offset = (word / 0x1_0000_0000) as usize;
        return Found {
            offset: (offset != 0).then_some(offset),
            visited: (word % 0x1_0000_0000) as usize,
        };
    }
    let from = geometry::sync_of(file, t.sync as usize, t.facilities, root);
    let found = times::first_below(file, from as usize, end);
    known[place] = found.offset.unwrap_or(0) as u64 * 0x1_0000_0000 + found.visited as u64;
    found
}

// What the first number of a record says of the others: bits, a real, a text in the file, not driven, the lent text.
const BITS: u64 = 0;

const REAL: u64 = 1;

const TEXT: u64 = 2;

const NOT_DRIVEN: u64 = 3;

const LENT_TEXT: u64 = 4;

// The record of a facility without a change up to the time that has no bits: a text is the lent one.
#[tactic(auto, unfolding(crate::specs::Listing::undriven))]
fn undriven(kind: Kind, lent: usize) -> [u64; 4]
    ensures { result ≡ undriven kind lent }
{
    match kind {
        Kind::Bits | Kind::Integer | Kind::Real => [NOT_DRIVEN, 0, 0, 0],
        Kind::Text => [LENT_TEXT, 0, lent as u64, 0],
    }
}

// The record of a value whose bits, if it has some, start at `start`.
#[tactic(auto, unfolding(crate::specs::Listing::record_from))]
fn record_of(kind: Kind, value: Value, start: usize, lent: usize) -> [u64; 4]
    ensures { result ≡ record_from start lent kind (value_shown value) }
{
    match value {
        Value::Bits { width } => [BITS, start as u64, u64::from(width), 0],
        Value::Real { bits, .. } => [REAL, 0, 0, bits],
        Value::Text {
            start: from,
            length,
        } => [TEXT, u64::from(from), u64::from(length), 0],
        Value::NotDriven => undriven(kind, lent),
    }
}

// The record of a facility by its latest change, at `o`, if there is one; its symbols go into the bits from `start` on.
fn item_at(
    file: &[u8],
    t: Tables,
    kind: Kind,
    width: u32,
    o: Option<usize>,
    lent: usize,
    start: usize,
    bits: &mut [u8],
) -> [u64; 4]
    requires { (start ≤ length bits.old) × Shows file.now t.end t.order kind width o (length bits.old - start) }
    ensures value { result ≡ record_by start (shown (content_from file.now t.initial kind width o)) (source_by kind (content_from file.now t.initial kind width o) lent) }
    ensures bits_after { bits.new ≡ placed bits.old start (written (content_from file.now t.initial kind width o)) }
{
    let value = value::at(
        file,
        t.end,
        t.order,
        t.initial,
        kind,
        width,
        o,
        &mut bits[start..],
    );
    record_of(kind, value, start, lent)
}

// All items: one pass over the time table finds the limit of the time, and below it lies the latest change of each
// root. Answers how many changes were visited.
pub fn put_all(
    file: &[u8],
    t: Tables,
    roots: &[u32],
    time: i64,
    facilities: &[u32],
    lent: usize,
    bits: &mut [u8],
    records: &mut [[u64; 4]],
    known: &mut [u64],
) -> u64
    requires listed { Listed file.now t facilities.now × Resolved file.now t.facilities true roots.now }
    requires facilities_in_bounds { (widths_of file.now facilities.now ≤ length bits.old) × (length facilities.now ≤ length records.old) }
    requires forgotten { Forgotten known.old }
    ensures value { result ≡ column_visited file.now time facilities.now }
    ensures bits_after { bits.new ≡ onto (column_bits file.now time facilities.now) bits.old }
    ensures records_after { records.new ≡ onto (column_records file.now time lent 0 facilities.now) records.old }
{
    let geometry = t.geometry(file);
    let table = TimeTable::new(file, t.times as usize, t.time_count, t.wide_times);
    let end = table.limit_at(time);
    let mut start: usize = 0;
    let mut visited: u64 = 0;
    for (i, &facility) in facilities.iter().enumerate() {
        let root = roots[facility as usize];
        let found = latest_of(file, t, end, root, known);
        let facts = geometry.own_facts(root);
        records[i] = item_at(
            file,
            t,
            facts.kind,
            facts.width,
            found.offset,
            lent,
            start,
            bits,
        );
        start += facts.width as usize;
        visited += found.visited as u64;
    }
    visited
}
