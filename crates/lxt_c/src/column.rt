// The exported C function that answers a whole column of values.
ghost use Rattle.std.specs.Prelude.{◌≡◌, length};
ghost use Rattle.lxt_format.specs.Questions.{column_asked, column_buffer, column_output};
ghost use Rattle.lxt_c.specs.Numbers.{number_of, one_number};

use crate::give;
use lxt_column::column;

// The values of many facilities at a time: a record of four numbers for each, symbols written into the lent bits
// buffer one after the other, and how many changes were visited for all of them together.
#[unsafe(no_mangle)]
pub extern "C" fn lxt_column(
    file: &[u8],
    time: i64,
    facilities: &[u32],
    text: &[u8],
    bits: &mut [u8],
    records: &mut [[u64; 4]],
    visited: &mut u64,
) -> u32
    ensures value { result ≡ number_of (column_asked file.now time facilities.now (length bits.old) (length records.old)) }
    ensures bits_after { bits.new ≡ column_buffer file.now time facilities.now bits.old (length records.old) }
    ensures records_after { records.new ≡ column_output file.now time facilities.now (length text.now) (length bits.old) records.old }
    ensures visited_after { visited.new ≡ one_number
        (column_asked file.now time facilities.now (length bits.old) (length records.old))
        visited.old }
{
    give(column(file, time, facilities, text, bits, records), visited)
}
