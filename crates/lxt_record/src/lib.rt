// Starting a walk and carrying on, over a walk record that is a lent slice of pairs: the public calls of
// the walk. The record is copied into two arrays of numbers and offsets, which lxt_walk works on, and back.
#![tactic(auto)]

ghost use Rattle.std.specs.Prelude.{◌≡◌, ◌≤◌, min, length, take};
ghost use Rattle.lxt_format.specs.Limits.{most_facilities};
ghost use Rattle.lxt_format.specs.Answers.{says, carry_says};
ghost use Rattle.lxt_format.specs.Columns.{paired, numbers_in, offsets_in};
ghost use Rattle.lxt_format.specs.Questions.{start_asked, start_record, carry_asked, carry_record, carry_output};
ghost use Rattle.lxt_walk.specs.Calls.{Starts, Carries};
ghost use Rattle.lxt_record.specs.Rooms.{over};

use lxt_format::{Handed, Pair, Refusal, Summary};

// Copies the first `n` pairs: their numbers into one slice, their offsets into another.
fn unzip(pairs: &[Pair], n: usize, numbers: &mut [u32], offsets: &mut [u32])
    requires { (n ≤ length pairs.now) × (n ≤ length numbers.old) × (n ≤ length offsets.old) }
    ensures { (numbers.new ≡ over numbers.old (numbers_in pairs.now) n) × (offsets.new ≡ over offsets.old (offsets_in pairs.now) n) }
{
    for i in 0..n {
        numbers[i] = pairs[i].number;
        offsets[i] = pairs[i].offset;
    }
}

// Copies the first `n` numbers and offsets into pairs.
fn zip(pairs: &mut [Pair], n: usize, numbers: &[u32], offsets: &[u32])
    requires { (n ≤ length pairs.old) × (n ≤ length numbers.now) × (n ≤ length offsets.now) }
    ensures { pairs.new ≡ over pairs.old (paired numbers.now offsets.now) n }
{
    for i in 0..n {
        pairs[i] = Pair {
            number: numbers[i],
            offset: offsets[i],
        };
    }
}

// How many pairs of a record a walk can need: one for each facility of a file.
const ROOM: usize = Summary::MOST_FACILITIES as usize;

// Starts a walk over the first `room` numbers and offsets.
fn start_within(
    file: &[u8],
    asked: &[u8],
    room: usize,
    numbers: &mut [u32],
    offsets: &mut [u32],
) -> Result<(), Refusal>
    requires { (room ≤ length numbers.old) × (room ≤ length offsets.old) }
    ensures { (says result ≡ start_asked file.now asked.now room) × (paired (take room numbers.new) (take room offsets.new) ≡ start_record file.now asked.now (paired (take room numbers.old) (take room offsets.old))) }
{
    lxt_walk::start::start(file, asked, &mut numbers[..room], &mut offsets[..room])
}

// Carries on with a walk over the first `room` numbers and offsets.
fn carry_within(
    file: &[u8],
    room: usize,
    numbers: &[u32],
    offsets: &mut [u32],
    size: u32,
    output: &mut [u32],
) -> Result<Handed, Refusal>
    requires { (room ≤ length numbers.now) × (room ≤ length offsets.old) }
    ensures { (carry_says result ≡ carry_asked file.now (paired (take room numbers.now) (take room offsets.old)) size (length output.old)) × ((output.new ≡ carry_output file.now (paired (take room numbers.now) (take room offsets.old)) size output.old) × (paired (take room numbers.now) (take room offsets.new) ≡ carry_record file.now (paired (take room numbers.now) (take room offsets.old)) size (length output.old))) }
{
    lxt_walk::carry::carry_on(file, &numbers[..room], &mut offsets[..room], size, output)
}

// Starts a walk over the facilities whose byte in `asked` is not 0.
pub fn start(file: &[u8], asked: &[u8], pairs: &mut [Pair]) -> Result<(), Refusal>
    ensures { Starts file.now asked.now pairs.old result pairs.new }
{
    let mut numbers = [0u32; ROOM];
    let mut offsets = [0u32; ROOM];
    let room = pairs.len().min(ROOM);
    unzip(pairs, room, &mut numbers, &mut offsets);
    let answer = start_within(file, asked, room, &mut numbers, &mut offsets);
    zip(pairs, room, &numbers, &offsets);
    answer
}

// Carries on with a walk by up to `size` changes, which go into the output buffer by number and offset.
pub fn carry_on(
    file: &[u8],
    pairs: &mut [Pair],
    size: u32,
    output: &mut [u32],
) -> Result<Handed, Refusal>
    ensures { Carries file.now pairs.old size output.old result output.new pairs.new }
{
    let mut numbers = [0u32; ROOM];
    let mut offsets = [0u32; ROOM];
    let room = pairs.len().min(ROOM);
    unzip(pairs, room, &mut numbers, &mut offsets);
    let answer = carry_within(file, room, &numbers, &mut offsets, size, output);
    zip(pairs, room, &numbers, &offsets);
    answer
}
