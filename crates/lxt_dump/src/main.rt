// Reads a trace of at most 65,536 bytes from standard input and prints it, as lxt_print puts it into a buffer;
// what was put is written at once. Where a read or a write fails nothing more is written but a message on
// standard error.
#![tactic(auto)]

ghost use Rattle.std.specs.Prelude.{◌≡◌, ◌≤◌, ◌<◌, length, take, IfOk};
ghost use Rattle.lxt_print.specs.Calls.{Lent};

use lxt_format::File;
use lxt_print::printing;
use lxt_print::printing::Printing;
use std::io;
use std::io::Read;

// Reads until the buffer is full, the input ends or a read fails: how many bytes were read.
fn read_all(from: &mut impl Read, input: &mut [u8]) -> io::Result<usize>
    ensures within { IfOk result (λ size. size ≤ length input.new) }
    ensures part { IfOk result (λ size. size ≡ length (take size input.new)) }
{
    let mut size = 0;
    // by as many bytes as a read gives, not a count
    while size < input.len() {
        let more = from.read(&mut input[size..])?;
        if more == 0 {
            break;
        }
        size += more;
    }
    Ok(size)
}

// Fills the buffer and writes what was filled, up to the last byte or to a write that fails.
fn print(
    rt: &(impl Print + Eprint),
    file: &[u8],
    name: &mut [u8],
    nodes: &mut [u32],
    line: &mut [u8],
    out: &mut [u8],
)
    requires { Lent name.old nodes.old line.old × (0 < length out.old) }
{
    let mut left = printing::begin(file, name, nodes, line);
    // until no line is left or a write fails, not a count
    loop {
        let filled = printing::fill(file, left, name, nodes, line, out);
        if rt.write_all(&out[..filled.size]).is_err() {
            let _ = eprintln!(rt; "lxt_dump: a write failed");
            return;
        }
        if filled.done {
            return;
        }
        left = filled.left;
    }
}

fn print_trace(rt: &(impl Print + Eprint), file: &[u8]) {
    let mut name = [0u8; Printing::NAME];
    let mut nodes = [0u32; Printing::NODES];
    let mut line = [0u8; Printing::LINE];
    let mut out = [0u8; File::LONGEST_PRINTED];
    print(rt, file, &mut name, &mut nodes, &mut line, &mut out);
}

fn main(rt: HostRuntime) {
    let mut input = [0u8; File::LONGEST_PRINTED + 1];
    let Ok(size) = read_all(&mut rt.stdin(), &mut input) else {
        let _ = eprintln!(rt; "lxt_dump: a read failed");
        return;
    };
    print_trace(&rt, &input[..size]);
}
