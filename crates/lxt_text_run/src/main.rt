// Runs `texts::text_at`, which answers a part of the file or the lent text itself. Of a trace on standard input, for
// each facility and for the number after the last, at the times 19 and 20: which of the two it is, and the part.
#![tactic(auto)]

ghost use Rattle.std.specs.Prelude.{◌≤◌, length};

use lxt_format::{File, Refusal, Summary, TextPlace};
use lxt_reader::texts;
use std::io::Read;

// Reads until the buffer is full, the input ends or a read fails.
fn read_full(from: &mut impl Read, input: &mut [u8]) -> usize
    ensures { result ≤ length input.new }
{
    let mut size = 0;
    // by as many bytes as a read gives, not a count
    while size < input.len() {
        match from.read(&mut input[size..]) {
            Ok(0) => return size,
            Ok(more) => size += more,
            Err(_) => return size,
        }
    }
    size
}

// Which it is: whether the question was answered.
fn tell(rt: &impl Print, answer: Result<TextPlace, Refusal>) -> bool {
    let which: &[u8] = match answer {
        Ok(TextPlace::File { .. }) => b"in the file: ",
        Ok(TextPlace::Lent { .. }) => b"lent: ",
        Ok(TextPlace::OtherKind) => b"another kind: ",
        Err(_) => b"refused: ",
    };
    let _ = rt.write_all(which);
    answer.is_ok()
}

fn ask<'a>(rt: &impl Print, file: &'a [u8], facility: u32, time: i64, text: &'a [u8]) -> bool {
    let answered = tell(rt, texts::place_at(file, facility, time, text));
    let part = texts::text_at(file, facility, time, text);
    let _ = rt.write_all(part);
    let _ = rt.write_all(b"\n");
    answered
}

fn ask_all<'a>(rt: &impl Print, file: &'a [u8], text: &'a [u8]) {
    for f in 0..=Summary::MOST_FACILITIES {
        ask(rt, file, f, 19, text);
        if !ask(rt, file, f, 20, text) {
            return;
        }
    }
}

fn main(rt: HostRuntime) {
    let mut input = [0u8; File::LONGEST_PRINTED];
    let n = read_full(&mut rt.stdin(), &mut input);
    ask_all(&rt, &input[..n], b"none");
}
