// The values of many facilities at one time, for one judging of the file: a public call, which takes any bytes and
// has no requires; where it is refused, nothing that was lent has changed.
#![tactic(auto)]

mod items;
mod list;

ghost use Rattle.std.specs.Prelude.{◌≡◌, true, length};
ghost use Rattle.lxt_format.specs.Answers.{says};
ghost use Rattle.lxt_format.specs.Questions.{column_asked, column_buffer, column_output};
ghost use Rattle.lxt_tables.specs.Asked.{Resolved};
ghost use Rattle.lxt_column.specs.Listing.{Listed};

use lxt_chains::whole::judged;
use lxt_format::{ColumnList, Refusal};
use lxt_tables::{Tables, aliases};

// Once all numbers are known to be those of facilities, and the roots of all facilities are in a table. A call of its
// own, so that its table takes no stack while the file is judged.
#[inline(never)]
fn by_roots(
    file: &[u8],
    t: Tables,
    roots: &[u32],
    time: i64,
    facilities: &[u32],
    lent: usize,
    bits: &mut [u8],
    records: &mut [[u64; 4]],
) -> Result<u64, Refusal>
    requires { Listed file.now t facilities.now × Resolved file.now t.facilities true roots.now }
    ensures result_value { says result ≡ column_asked file.now time facilities.now (length bits.old) (length records.old) }
    ensures bits_after { bits.new ≡ column_buffer file.now time facilities.now bits.old (length records.old) }
    ensures records_after { records.new ≡ column_output file.now time facilities.now lent (length bits.old) records.old }
{
    let needed = list::widths(file, t, roots, facilities);
    if bits.len() < needed || records.len() < facilities.len() {
        return Err(Refusal::Room);
    }
    let mut known = [items::UNKNOWN; aliases::ROOM];
    let visited = items::put_all(
        file, t, roots, time, facilities, lent, bits, records, &mut known,
    );
    Ok(visited)
}

// A record of four numbers for each facility number of the list, and the symbols of all bits and integers one after
// the other: the values at a time, with the lent text for a text that has no change up to then. Answers how many
// changes were visited for all of them together.
pub fn column(
    file: &[u8],
    time: i64,
    facilities: &[u32],
    text: &[u8],
    bits: &mut [u8],
    records: &mut [[u64; 4]],
) -> Result<u64, Refusal>
    ensures result_value { says result ≡ column_asked file.now time facilities.now (length bits.old) (length records.old) }
    ensures bits_after { bits.new ≡ column_buffer file.now time facilities.now bits.old (length records.old) }
    ensures records_after { records.new ≡ column_output file.now time facilities.now (length text.now) (length bits.old) records.old }
{
    let t = judged(file)?.tables;
    let asked = ColumnList {
        length: facilities.len(),
    };
    if !asked.length_is_allowed() {
        return Err(Refusal::ColumnLength);
    }
    if !list::all_below(facilities, t.facilities) {
        return Err(Refusal::Facility);
    }
    let mut roots = [aliases::UNKNOWN; aliases::ROOM];
    t.geometry(file).put_roots(&mut roots);
    by_roots(file, t, &roots, time, facilities, text.len(), bits, records)
}
