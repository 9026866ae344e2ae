// A trace printed into lent buffers of any length, one after the other. Each call leaves a state to the next,
// with the memory lent for it: the name before the next one, the tree of pending offsets, and the line put last.
ghost use Rattle.std.specs.Prelude.{◌≡◌, ◌*◌, ◌-◌, ◌≤◌, ◌<◌, min, length, take, drop, replicate};
ghost use Rattle.lxt_format.specs.Limits.{longest_name, most_facilities};
ghost use Rattle.lxt_format.specs.Basics.{answer};
ghost use Rattle.lxt_format.specs.Answers.{says};
ghost use Rattle.lxt_tables.specs.Stage.{tables_of};
ghost use Rattle.lxt_chains.specs.Tree.{Room};
ghost use Rattle.lxt_print.specs.Lines.{print_refusal};
ghost use Rattle.lxt_print.specs.Placing.{Opened, Put};
ghost use Rattle.lxt_print.specs.Stepping.{Waiting, left, all_left};
ghost use Rattle.lxt_print.specs.Left.{Going, Roomy, Sound, AllLines, NextLine};
ghost use Rattle.lxt_print.specs.Calls.{Lent, Begins, Fills};

use crate::text::put_bytes;
use crate::{changes, lines};
use lxt_chains::tree;
use lxt_chains::whole::judged;
use lxt_format::{File, NameCursor, Refusal, Summary};
use lxt_tables::Tables;
use lxt_values::entries::Entry;
use lxt_values::names::NamesLeft;

// The lines that are not put yet: those of the facilities from `facility` on, those of the changes that the
// tree has left, and the last one.
#[derive(Clone, Copy)]
pub struct Rest {
    pub tables: Tables,
    pub facility: u32,
    pub names: NamesLeft,
    // how many leaves the tree has
    pub leaves: usize,
    pub entry: Entry,
    // how many changes are put
    pub count: u32,
}

// What is left to print: the bytes from `at` up to `size` of the line that was put last, and the rest, if that
// was not the last line.
#[derive(Clone, Copy)]
pub struct Printing {
    pub at: usize,
    pub size: usize,
    pub rest: Option<Rest>,
}

impl Printing {
    // The memory that is lent: for a name, for the nodes of a tree, and for a line, of which a value is the
    // longest part.
    pub const NAME: usize = NameCursor::LONGEST;

    pub const NODES: usize = 2 * Summary::MOST_FACILITIES as usize;

    pub const LINE: usize = 2 * File::LONGEST_PRINTED + 4_200;
}

// How many bytes were put into a buffer, whether they are the last, and what is left.
#[derive(Clone, Copy)]
pub struct Filled {
    pub size: usize,
    pub done: bool,
    pub left: Printing,
}

// The tables of a file that is printed: one that is accepted, and not too long.
fn printable(file: &[u8]) -> Result<Tables, Refusal>
    ensures { says result ≡ answer (print_refusal file.now) (tables_of file.now) }
{
    let examined = judged(file);
    if File::LONGEST_PRINTED < file.len() {
        return Err(Refusal::Length);
    }
    Ok(examined?.tables)
}

// A tree from which all changes are left.
fn plant(file: &[u8], t: Tables, nodes: &mut [u32], m: usize)
    requires { Opened file.now t × ((t.facilities ≤ m) × Room m nodes.old) }
    ensures { Waiting file.now t m nodes.new × (left file.now m nodes.new ≡ all_left file.now) }
{
    nodes.fill(0);
    changes::start(file, t, nodes, m);
}

// What is left where all lines of an accepted file are.
fn all_lines(file: &[u8], t: Tables, name: &[u8], nodes: &mut [u32]) -> Rest
    requires { Opened file.now t × ((longest_name ≤ length name.now) × (2 * most_facilities ≤ length nodes.old)) }
    ensures { AllLines file.now result name.now nodes.new }
{
    let m = tree::leaves_for(t.facilities as usize);
    plant(file, t, &mut nodes[..2 * m], m);
    let entry = changes::last_entry(file, t);
    Rest {
        tables: t,
        facility: 0,
        names: NamesLeft {
            left: t.facilities,
            at: t.names as usize + 8,
            before: 0,
        },
        leaves: m,
        entry,
        count: 0,
    }
}

// The state in which all that is to be printed of a file is left.
pub fn begin(file: &[u8], name: &[u8], nodes: &mut [u32], line: &mut [u8]) -> Printing
    requires { Lent name.now nodes.old line.old }
    ensures { Begins file.now result name.now nodes.new line.new }
{
    match printable(file) {
        Ok(t) => Printing {
            at: 0,
            size: 0,
            rest: Some(all_lines(file, t, name, nodes)),
        },
        Err(refusal) => Printing {
            at: 0,
            size: lines::refused(refusal.number(), line),
            rest: None,
        },
    }
}

// Puts the line of the next facility.
fn next_facility(
    file: &[u8],
    mut r: Rest,
    name: &mut [u8],
    nodes: &[u32],
    line: &mut [u8],
) -> Printing
    requires { Going file.now r name.old nodes.now × (Roomy file.now line.old × (r.facility < r.tables.facilities)) }
    ensures { NextLine file.now r nodes.now result name.new nodes.now line.new }
{
    let put = lines::next_facility(file, r.tables, r.facility, r.names, name, line);
    r.names = put.names;
    r.facility += 1;
    Printing {
        at: 0,
        size: put.size,
        rest: Some(r),
    }
}

// Puts the line of the next change; where none is left, the last line.
fn next_change(
    file: &[u8],
    mut r: Rest,
    name: &[u8],
    nodes: &mut [u32],
    line: &mut [u8],
) -> Printing
    requires { Going file.now r name.now nodes.old × (Roomy file.now line.old × (r.tables.facilities ≤ r.facility)) }
    ensures { NextLine file.now r nodes.old result name.now nodes.new line.new }
{
    let m = r.leaves;
    let Some(put) = changes::next(file, r.tables, r.entry, &mut nodes[..2 * m], m, line) else {
        return Printing {
            at: 0,
            size: lines::done(r.count, line),
            rest: None,
        };
    };
    r.entry = put.entry;
    r.count += 1;
    Printing {
        at: 0,
        size: put.size,
        rest: Some(r),
    }
}

// Puts the next line.
fn next_line(file: &[u8], r: Rest, name: &mut [u8], nodes: &mut [u32], line: &mut [u8]) -> Printing
    requires { Going file.now r name.old nodes.old × Roomy file.now line.old }
    ensures { NextLine file.now r nodes.old result name.new nodes.new line.new }
{
    if r.facility < r.tables.facilities {
        return next_facility(file, r, name, nodes, line);
    }
    next_change(file, r, name, nodes, line)
}

// Puts of the line what the buffer has room for: the place after it.
fn put_part(line: &[u8], at: usize, size: usize, out: &mut [u8], from: usize) -> usize
    requires { (at ≤ size) × ((size ≤ length line.now) × (from ≤ length out.old)) }
    ensures { Put out.old from (take (min (size - at) (length out.old - from)) (drop at line.now)) result out.new }
{
    let k = (size - at).min(out.len() - from);
    put_bytes(out, from, &line[at..at + k])
}

// Fills a buffer with the next bytes of what is left.
pub fn fill(
    file: &[u8],
    start: Printing,
    name: &mut [u8],
    nodes: &mut [u32],
    line: &mut [u8],
    out: &mut [u8],
) -> Filled
    requires { Sound file.now start name.old nodes.old line.old }
    ensures { Fills file.now start nodes.old line.old out.old result name.new nodes.new line.new out.new }
{
    let mut left = start;
    let mut put = 0;
    // until no line is left or no room, not a count
    loop {
        let p = put_part(line, left.at, left.size, out, put);
        left.at += p - put;
        put = p;
        let Some(rest) = left.rest else {
            return Filled {
                size: put,
                done: left.at == left.size,
                left,
            };
        };
        if put == out.len() {
            return Filled {
                size: put,
                done: false,
                left,
            };
        }
        left = next_line(file, rest, name, nodes, line);
    }
}
