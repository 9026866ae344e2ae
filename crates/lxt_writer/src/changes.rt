// The changes, in two passes: the first finds whether each is allowed, where they end and how many entries the
// time table has; the second puts them, with the entries.
ghost use Rattle.std.specs.Prelude.{◌≡◌, false, ◌+◌, ◌-◌, ◌≤◌, ◌<◌, length, get_or, if◌then◌else◌};
ghost use Rattle.lxt_writer.specs.Changes.{Widths, Free, RowSized, is_new, Fresh, ChangesMeasured, row_bytes, EntryAsked, EntryPut, RowAsked, RowPut, PutAsked, ChangesPut};

use lxt_facilities::facilities;
use lxt_facilities::facilities::{KIND, LSB, MSB};
use lxt_format::File;
use lxt_pack::{change, put};

// The places of a row.
const FACILITY: usize = 0;

pub const TIME: usize = 1;

const VALUE_START: usize = 2;

const VALUE_LENGTH: usize = 3;

// The offset of the first change.
const FIRST: usize = 4;

fn facility_of(row: [u32; 4]) -> usize
    ensures { (result ≡ get_or row 0 0) × (result < 4294967296) }
{
    row[FACILITY] as usize
}

// ---- the first pass

// The bytes of the change of a row at `at`, after those that the table has of each facility, where the row is
// allowed.
fn row_size(
    facilities: &[[u32; 5]],
    row: [u32; 4],
    values: &[u8],
    last: &[u32],
    at: usize,
) -> Option<usize>
    requires { Widths facilities.now × Free last.now (length facilities.now) at }
    ensures { RowSized facilities.now row values.now last.now at result }
{
    let f = row[FACILITY] as usize;
    if facilities.len() <= f {
        return None;
    }
    let start = row[VALUE_START] as usize;
    let end = start + row[VALUE_LENGTH] as usize;
    if values.len() < end {
        return None;
    }
    let facility = facilities[f];
    let delta = at - last[f] as usize - 2;
    let kind = facilities::kind_of(facility[KIND]);
    let width = facilities::width_of(kind, facility[MSB], facility[LSB]);
    change::size_of(kind, width, &values[start..end], delta as u32)
}

// A change at `at` gets an entry: it is the first, or its time is new.
fn is_new(at: usize, before: u32, time: u32) -> bool
    ensures { result ≡ is_new at before time }
{
    (at == FIRST) | (time != before)
}

// What the first pass finds where all is allowed and short enough: the offset after the last change, and the
// entries of the time table.
#[derive(Clone, Copy)]
pub struct Measured {
    pub end: usize,
    pub entries: usize,
}

// `last` has a number for each facility, all 0.
pub fn measure(
    facilities: &[[u32; 5]],
    changes: &[[u32; 4]],
    values: &[u8],
    last: &mut [u32],
) -> Option<Measured>
    requires { Widths facilities.now × Fresh last.old (length facilities.now) }
    ensures { ChangesMeasured facilities.now changes.now values.now result }
{
    let mut at: usize = FIRST;
    let mut time: u32 = 0;
    let mut entries: usize = 0;
    for row in changes {
        let f = facility_of(*row);
        if row[TIME] < time {
            return None;
        }
        let size = row_size(facilities, *row, values, last, at)?;
        if File::LONGEST - at < size {
            return None;
        }
        entries += usize::from(is_new(at, time, row[TIME]));
        last[f] = at as u32;
        at += size;
        time = row[TIME];
    }
    Some(Measured { end: at, entries })
}

// ---- the second pass

// Where the next entry of the time table goes, and the position and the time of the newest.
#[derive(Clone, Copy)]
pub struct Entry {
    pub at: usize,
    pub position: usize,
    pub time: u32,
}

// Puts the entry of a change at `at`, where it gets one. The times stand `gap` bytes behind the positions.
fn put_entry(out: &mut [u8], e: Entry, gap: usize, at: usize, time: u32) -> Entry
    requires { EntryAsked out.old e gap at time }
    ensures { EntryPut out.old e gap at time out.new result }
{
    if !is_new(at, e.time, time) {
        return e;
    }
    put::number::<4>(out, e.at, (at - e.position) as u32);
    put::number::<4>(out, e.at + gap, time - e.time);
    Entry {
        at: e.at + 4,
        position: at,
        time,
    }
}

// Puts the change of a row at `at`, and says where it ends.
fn put_row(
    facilities: &[[u32; 5]],
    row: [u32; 4],
    values: &[u8],
    last: &[u32],
    out: &mut [u8],
    at: usize,
) -> usize
    requires { RowAsked facilities.now row values.now last.now out.old at }
    ensures { RowPut (row_bytes facilities.now row values.now last.now at) out.old at out.new result }
{
    let f = row[FACILITY] as usize;
    let start = row[VALUE_START] as usize;
    let end = start + row[VALUE_LENGTH] as usize;
    let facility = facilities[f];
    let delta = at - last[f] as usize - 2;
    change::put(
        facilities::kind_of(facility[KIND]),
        &values[start..end],
        delta as u32,
        out,
        at,
    )
}

// `last` has a number for each facility, all 0, and then the newest change of each.
pub fn put_all(
    facilities: &[[u32; 5]],
    changes: &[[u32; 4]],
    values: &[u8],
    last: &mut [u32],
    out: &mut [u8],
    positions: usize,
    gap: usize,
)
    requires { PutAsked facilities.now changes.now values.now last.old out.old positions gap }
    ensures { ChangesPut facilities.now changes.now values.now out.old positions gap last.new out.new }
{
    let mut at: usize = FIRST;
    let mut e = Entry {
        at: positions,
        position: 0,
        time: 0,
    };
    for row in changes {
        e = put_entry(out, e, gap, at, row[TIME]);
        let next = put_row(facilities, *row, values, last, out, at);
        last[facility_of(*row)] = at as u32;
        at = next;
    }
}
