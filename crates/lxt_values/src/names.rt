// The expanded name of a facility, written into a lent buffer.
ghost use Rattle.std.specs.Prelude.{◌≡◌, ◌+◌, ◌-◌, ◌≤◌, ◌<◌, length, drop, replicate};
ghost use Rattle.std.proofs.Math.Seq.{paste};
ghost use Rattle.lxt_format.specs.Limits.{longest_name};
ghost use Rattle.lxt_format.specs.Questions.{holding_name};
ghost use Rattle.lxt_values.specs.Names.{Named, name_at, Coming, Read};

use crate::texts;
use lxt_format::NameCursor;
use lxt_sections::be16;

// Copies `count` bytes of the file from `from` on into the buffer from `at` on.
fn copy_part(file: &[u8], from: usize, count: usize, names: &mut [u8], at: usize)
    requires { (from + count ≤ length file.now) × (at + count ≤ length names.old) }
    ensures { names.new ≡ paste names.old at (drop from file.now) count }
{
    // a loop: for copy_from_slice C's callers would have to link memmove
    for j in 0..count {
        names[at + j] = file[from + j];
    }
}

// Zeros from `from` up to `to`.
fn clear(names: &mut [u8], from: usize, to: usize)
    requires { (from ≤ to) × (to ≤ length names.old) }
    ensures { names.new ≡ paste names.old from (replicate (to - from) 0) (to - from) }
{
    names[from..to].fill(0);
}

// What is left of a name table: how many names, where the next one starts, and the length of the name
// before it, which a buffer holds.
#[derive(Clone, Copy)]
pub struct NamesLeft {
    pub left: u32,
    pub at: usize,
    pub before: usize,
}

// Expands the next name in the buffer; its length stands in what is left after it.
pub fn next(file: &[u8], end: usize, from: NamesLeft, names: &mut [u8]) -> NamesLeft
    requires { Coming file.now end from.left from.at from.before names.old × (0 < from.left) }
    ensures { Read file.now end from.left from.at from.before names.old result.left result.at result.before names.new }
{
    let at = from.at;
    let prefix = be16(file, at) as usize;
    let suffix = at + 2;
    let count = texts::length(file, suffix, end);
    copy_part(file, suffix, count, names, prefix);
    NamesLeft {
        left: from.left - 1,
        at: suffix + count + 1,
        before: prefix + count,
    }
}

// The name of facility `f` of the `n` names from `at` up to `end`: its length. The buffer then holds
// the name, zeros up to 1,023 bytes, and what stood after them.
pub fn expand(
    file: &[u8],
    at: usize,
    end: usize,
    n: u32,
    memory: u32,
    f: u32,
    names: &mut [u8],
) -> usize
    requires { Named file.now at end n memory f × (longest_name ≤ length names.old) }
    ensures { (result ≡ length (name_at file.now at end n f)) × (names.new ≡ holding_name (name_at file.now at end n f) names.old) }
{
    let mut c = NamesLeft {
        left: n,
        at,
        before: 0,
    };
    for _i in 0..f + 1 {
        c = next(file, end, c, names);
    }
    clear(names, c.before, NameCursor::LONGEST);
    c.before
}
