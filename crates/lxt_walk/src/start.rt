// Starting a walk.
ghost use Rattle.std.specs.Prelude.{◌≡◌, true, ◌≤◌, length, replicate};
ghost use Rattle.lxt_format.specs.Basics.{range};
ghost use Rattle.lxt_format.specs.Answers.{says};
ghost use Rattle.lxt_format.specs.Columns.{paired, numbers_in, offsets_in, onto};
ghost use Rattle.lxt_format.specs.Walk.{start_offsets};
ghost use Rattle.lxt_format.specs.Questions.{start_asked, start_record};
ghost use Rattle.lxt_tables.specs.Asked.{Resolved};
ghost use Rattle.lxt_walk.specs.Carrying.{Starting};

use lxt_chains::whole::judged;
use lxt_format::Refusal;
use lxt_tables::{Tables, aliases, geometry};

// Stores the numbers of the first `n` facilities, and 0 as the pending offset of each.
fn put_numbers(n: u32, numbers: &mut [u32], offsets: &mut [u32])
    requires { (n ≤ length numbers.old) × (n ≤ length offsets.old) }
    ensures { (numbers.new ≡ onto (range 0 n) numbers.old) × (offsets.new ≡ onto (replicate n 0) offsets.old) }
{
    for f in 0..n {
        numbers[f as usize] = f;
        offsets[f as usize] = 0;
    }
}

// Stores the sync entry of each root asked for, where 0 stands for all. An alias asks for its root,
// which is in the table `roots`.
fn put_by_roots(file: &[u8], t: Tables, roots: &[u32], asked: &[u8], offsets: &mut [u32])
    requires { Starting file.now t asked.now offsets.old × Resolved file.now t.facilities true roots.now }
    ensures { offsets.new ≡ onto (start_offsets file.now asked.now) offsets.old }
{
    for f in (0..t.facilities).rev() {
        if asked[f as usize] != 0 {
            let root = roots[f as usize];
            offsets[root as usize] = geometry::sync_of(file, t.sync as usize, t.facilities, root);
        }
    }
}

// The same, with a table of all roots that is made here.
fn put_asked(file: &[u8], t: Tables, asked: &[u8], offsets: &mut [u32])
    requires { Starting file.now t asked.now offsets.old }
    ensures { offsets.new ≡ onto (start_offsets file.now asked.now) offsets.old }
{
    let mut roots = [aliases::UNKNOWN; aliases::ROOM];
    t.geometry(file).put_roots(&mut roots);
    put_by_roots(file, t, &roots, asked, offsets);
}

// Starts a walk over the facilities whose byte in `asked` is not 0.
pub fn start(
    file: &[u8],
    asked: &[u8],
    numbers: &mut [u32],
    offsets: &mut [u32],
) -> Result<(), Refusal>
    ensures { (says result ≡ start_asked file.now asked.now (length (paired numbers.old offsets.old))) × ((numbers.new ≡ onto (numbers_in (start_record file.now asked.now (paired numbers.old offsets.old))) numbers.old) × (offsets.new ≡ onto (offsets_in (start_record file.now asked.now (paired numbers.old offsets.old))) offsets.old)) }
{
    let t = judged(file)?.tables;
    let n = t.facilities as usize;
    if (numbers.len() < n) | (offsets.len() < n) {
        return Err(Refusal::Room);
    }
    if asked.len() != n {
        return Err(Refusal::AskedBytes);
    }
    put_numbers(t.facilities, numbers, offsets);
    put_asked(file, t, asked, offsets);
    Ok(())
}
