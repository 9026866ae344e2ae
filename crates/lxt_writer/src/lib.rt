// Writing a trace, in two passes over the input: the first finds whether it is allowed and how long the file
// is, the second puts its bytes.
#![tactic(auto)]

ghost use Rattle.std.specs.Prelude.{◌≡◌, length};
ghost use Rattle.lxt_format.specs.Answers.{says};
ghost use Rattle.lxt_written.specs.Writing.{write_asked, write_buffer};

use lxt_format::Refusal;

pub mod changes;
mod file;
mod plan;

// Writes the file that the tables mean to the start of `out`, and answers its length. A facility is where its
// name starts in the pool, the name's length, its kind (0 bits, 1 integer, 2 real, 3 text), msb and lsb (two's
// complement); a change is its facility, its time, where its value starts in the pool, and the value's length. A
// value is symbols, the 8 bytes of a real, the lowest first, or the bytes of a text without a zero.
pub fn write(
    facilities: &[[u32; 5]],
    names: &[u8],
    changes: &[[u32; 4]],
    values: &[u8],
    initial: u8,
    timescale: i8,
    out: &mut [u8],
) -> Result<u32, Refusal>
    ensures result_value { says result ≡ write_asked facilities.now names.now changes.now values.now initial timescale (length out.old) }
    ensures out_after { out.new ≡ write_buffer facilities.now names.now changes.now values.now initial timescale out.old }
{
    let planned = plan::plan_for(facilities, names, changes, values, initial, timescale);
    let plan = planned.ok_or(Refusal::Input)?;
    let places = lxt_layout::placed_by(plan.sizes);
    if out.len() < places.length {
        return Err(Refusal::FileRoom);
    }
    let memory = plan.memory as u32;
    file::put_file(
        facilities, names, changes, values, initial, timescale, plan.sizes, memory, out,
    );
    Ok(places.length as u32)
}
