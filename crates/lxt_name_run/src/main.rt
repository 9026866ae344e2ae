// Runs `names::name_of`, of whose buffer no contract can speak once a part of it is returned. Of a trace on
// standard input, for each facility and for the number after the last: the part that is answered, and whether
// the whole buffer is as `names::length_of` leaves it. At last the same with one byte too little room.
#![tactic(auto)]

ghost use Rattle.std.specs.Prelude.{◌≤◌, length};

use lxt_format::{File, NameCursor, Summary};
use lxt_reader::names;
use std::io::Read;

// Reads until the buffer is full, the input ends or a read fails.
fn read_full(from: &mut impl Read, input: &mut [u8]) -> usize
    ensures { result ≤ length input.new }
{
    let mut size = 0;
    // by as many bytes as a read gives, not a count
    while size < input.len() {
        match from.read(&mut input[size..]) {
            Ok(0) => return size,
            Ok(more) => size += more,
            Err(_) => return size,
        }
    }
    size
}

// Asks both ways, each with a buffer of its own: whether the question was answered.
fn ask(rt: &impl Print, file: &[u8], facility: u32, one: &mut [u8], other: &mut [u8]) -> bool {
    let answer = names::length_of(file, facility, one);
    let part = names::name_of(file, facility, other);
    let _ = rt.write_all(part);
    if &*one == &*other {
        let _ = rt.write_all(b": alike\n");
    } else {
        let _ = rt.write_all(b": DIFFERENT\n");
    }
    answer.is_ok()
}

// Buffers of A5 hex, with three bytes more than a name needs.
fn ask_with_room(rt: &impl Print, file: &[u8], facility: u32) -> bool {
    let mut one = [0xa5u8; NameCursor::LONGEST + 3];
    let mut other = [0xa5u8; NameCursor::LONGEST + 3];
    ask(rt, file, facility, &mut one, &mut other)
}

// Buffers with one byte too few.
fn ask_without_room(rt: &impl Print, file: &[u8]) -> bool {
    let mut one = [0xa5u8; NameCursor::LONGEST - 1];
    let mut other = [0xa5u8; NameCursor::LONGEST - 1];
    ask(rt, file, 0, &mut one, &mut other)
}

fn ask_all(rt: &impl Print, file: &[u8]) {
    for f in 0..=Summary::MOST_FACILITIES {
        if !ask_with_room(rt, file, f) {
            return;
        }
    }
}

fn main(rt: HostRuntime) {
    let mut input = [0u8; File::LONGEST_PRINTED];
    let n = read_full(&mut rt.stdin(), &mut input);
    ask_all(&rt, &input[..n]);
    ask_without_room(&rt, &input[..n]);
}
