// The exported C function that writes a trace.
ghost use Rattle.std.specs.Prelude.{◌≡◌, length};
ghost use Rattle.lxt_written.specs.Writing.{write_asked, write_buffer};
ghost use Rattle.lxt_c.specs.Numbers.{number_of, one_number};

use crate::give;

// The length of the file that the two tables mean, which is written to the start of the lent buffer.
#[unsafe(no_mangle)]
pub extern "C" fn lxt_write(
    facilities: &[[u32; 5]],
    names: &[u8],
    changes: &[[u32; 4]],
    values: &[u8],
    initial: u8,
    timescale: i8,
    out: &mut [u8],
    size: &mut u32,
) -> u32
    ensures value { result ≡ number_of (write_asked facilities.now names.now changes.now values.now initial timescale (length out.old)) }
    ensures out_after { out.new ≡ write_buffer facilities.now names.now changes.now values.now initial timescale out.old }
    ensures size_after { size.new ≡ one_number
        (write_asked facilities.now names.now changes.now values.now initial timescale (length out.old))
        size.old }
{
    let written = lxt_writer::write(facilities, names, changes, values, initial, timescale, out);
    give(written, size)
}
