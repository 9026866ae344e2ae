// The second pass: the bytes of the file.
ghost use Rattle.std.specs.Prelude.{◌≡◌, length};
ghost use Rattle.lxt_format.specs.Buffers.{placed};
ghost use Rattle.lxt_format.specs.Columns.{onto};
ghost use Rattle.lxt_written.specs.Input.{trace_of};
ghost use Rattle.lxt_written.specs.WrittenFile.{file_of};
ghost use Rattle.lxt_writer.specs.Changes.{Fresh};
ghost use Rattle.lxt_writer.specs.Plan.{first_of, final_of, tables_bytes, TablesAsked, end_bytes, EndAsked, FileAsked};

use crate::changes;
use crate::changes::TIME;
use lxt_facilities::{geometry, names};
use lxt_format::Summary;
use lxt_layout::{Places, Sizes};

// The time of the first change, and of the last; 0 where there is none.
fn first_time(changes: &[[u32; 4]]) -> u32
    ensures { result ≡ first_of changes.now }
{
    changes.first().map_or(0, |row| row[TIME])
}

fn last_time(changes: &[[u32; 4]]) -> u32
    ensures { result ≡ final_of changes.now }
{
    changes.last().map_or(0, |row| row[TIME])
}

// What follows the changes: names, geometry, sync and the head of the times.
fn put_tables(
    facilities: &[[u32; 5]],
    names: &[u8],
    memory: u32,
    last: &[u32],
    entries: u32,
    first: u32,
    newest: u32,
    out: &mut [u8],
    p: Places,
)
    requires { TablesAsked facilities.now names.now last.now out.old p }
    ensures { out.new ≡ placed out.old p.names (tables_bytes facilities.now names.now memory last.now entries first newest) }
{
    lxt_layout::put_names_head(out, p.names, facilities.len() as u32, memory);
    names::put_all(facilities, names, out, p.names + 8);
    geometry::put_all(facilities, out, p.geometry);
    geometry::put_sync(last, out, p.sync);
    lxt_layout::put_times_head(out, p.times, entries, first, newest);
}

// What follows the times: the sections of one value, END and the section list.
fn put_end(timescale: i8, initial: u8, real: bool, out: &mut [u8], p: Places)
    requires { EndAsked real out.old p }
    ensures { out.new ≡ placed out.old p.timescale (end_bytes timescale initial real p) }
{
    lxt_layout::put_values(out, p.timescale, timescale, initial, real);
    lxt_layout::put_tail(out, p, real);
}

// All parts. `last` has a number for each facility, all 0.
fn put_parts(
    facilities: &[[u32; 5]],
    names: &[u8],
    changes: &[[u32; 4]],
    values: &[u8],
    initial: u8,
    timescale: i8,
    sizes: Sizes,
    memory: u32,
    last: &mut [u32],
    out: &mut [u8],
)
    requires { FileAsked facilities.now names.now changes.now values.now initial timescale sizes memory out.old × Fresh last.old (length facilities.now) }
    ensures { out.new ≡ onto (file_of (trace_of facilities.now names.now changes.now values.now initial timescale)) out.old }
{
    let p = lxt_layout::placed_by(sizes);
    changes::put_all(
        facilities,
        changes,
        values,
        last,
        out,
        p.times + 12,
        4 * sizes.entries,
    );
    lxt_layout::put_header(out);
    put_tables(
        facilities,
        names,
        memory,
        last,
        sizes.entries as u32,
        first_time(changes),
        last_time(changes),
        out,
        p,
    );
    put_end(timescale, initial, sizes.real, out, p);
}

// The file, at the start of the buffer.
pub fn put_file(
    facilities: &[[u32; 5]],
    names: &[u8],
    changes: &[[u32; 4]],
    values: &[u8],
    initial: u8,
    timescale: i8,
    sizes: Sizes,
    memory: u32,
    out: &mut [u8],
)
    requires { FileAsked facilities.now names.now changes.now values.now initial timescale sizes memory out.old }
    ensures { out.new ≡ onto (file_of (trace_of facilities.now names.now changes.now values.now initial timescale)) out.old }
{
    let mut last = [0u32; Summary::MOST_FACILITIES as usize];
    put_parts(
        facilities,
        names,
        changes,
        values,
        initial,
        timescale,
        sizes,
        memory,
        &mut last[..facilities.len()],
        out,
    );
}
