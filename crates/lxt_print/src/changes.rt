// The lines of all changes in walk order: each call puts one line and steps the pending offsets.
ghost use Rattle.std.specs.Prelude.{◌≡◌, ◌+◌, ◌*◌, ◌≤◌, ◌<◌, length, drop, MatchOption};
ghost use Rattle.lxt_format.specs.Columns.{onto};
ghost use Rattle.lxt_format.specs.Walk.{high, offsets_after};
ghost use Rattle.lxt_chains.specs.Tree.{Blank};
ghost use Rattle.lxt_print.specs.Placing.{Opened};
ghost use Rattle.lxt_print.specs.Stepping.{Waiting, left, all_left, Last, Timed, next_line};

use crate::lines;
use lxt_chains::next::take_highest;
use lxt_chains::{roots, tree, whole};
use lxt_tables::Tables;
use lxt_values::entries::{Entry, TimeTable};

// All changes are left: the leaves of the tree hold where each root's chain starts.
pub fn start(file: &[u8], t: Tables, nodes: &mut [u32], m: usize)
    requires { Opened file.now t × ((t.facilities ≤ m) × Blank m nodes.old) }
    ensures { Waiting file.now t m nodes.new × (left file.now m nodes.new ≡ all_left file.now) }
{
    let c = whole::chains_of(file, t);
    roots::put_root_offsets(file, c, nodes, m);
    tree::build(nodes, m);
}

// The entry of the time table that the times of all changes are looked for from: the last one. A file
// without entries has no change.
pub fn last_entry(file: &[u8], t: Tables) -> Entry
    requires { Opened file.now t }
    ensures { Last file.now result }
{
    if t.time_count == 0 {
        return Entry {
            number: 0,
            position: 0,
            time: 0,
        };
    }
    let times = TimeTable::new(file, t.times as usize, t.time_count, t.wide_times);
    times.last()
}

// The length of a line that was put, and the entry of the time table that gave its time.
#[derive(Clone, Copy)]
pub struct Line {
    pub size: usize,
    pub entry: Entry,
}

// The line of the next change, put at the start of the buffer. Where no change is left there is no line, and
// nothing is changed.
pub fn next(
    file: &[u8],
    t: Tables,
    entry: Entry,
    nodes: &mut [u32],
    m: usize,
    out: &mut [u8],
) -> Option<Line>
    requires { Opened file.now t × (Waiting file.now t m nodes.old × (Timed file.now (drop m nodes.old) entry × (2 * length file.now + 4200 ≤ length out.old))) }
    ensures line { MatchOption result (high (drop m nodes.old) ≡ 0) (λ l. (0 < high (drop m nodes.old)) × (l.size ≡ length (next_line file.now (drop m nodes.old)))) × (out.new ≡ onto (next_line file.now (drop m nodes.old)) out.old) }
    ensures waiting { Waiting file.now t m nodes.new × (drop m nodes.new ≡ offsets_after file.now 1 (drop m nodes.old)) }
    ensures timed { MatchOption result (Timed file.now (drop m nodes.new) entry) (λ l. Timed file.now (drop m nodes.new) l.entry) }
{
    let taken = take_highest(file, nodes, m)?;
    let o = taken.offset;
    let times = TimeTable::new(file, t.times as usize, t.time_count, t.wide_times);
    let entry = times.down(entry, o as usize);
    let size = lines::change(file, t, taken.number as u32, o, entry.time, out);
    Some(Line { size, entry })
}
