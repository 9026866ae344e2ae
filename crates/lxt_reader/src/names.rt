// The name of a facility, written into a lent buffer.
ghost use Rattle.std.specs.Prelude.{◌≡◌, length};
ghost use Rattle.lxt_format.specs.Basics.{answer};
ghost use Rattle.lxt_format.specs.Answers.{says};
ghost use Rattle.lxt_format.specs.Questions.{name_refusal, name_asked, name_buffer, name_part};
ghost use Rattle.lxt_reader.specs.Asking.{name_place};

use crate::facilities::ask;
use lxt_format::{NameCursor, Refusal};
use lxt_sections::be32;
use lxt_values::names;

// Where the names lie, n and M.
#[derive(Clone, Copy)]
pub struct NamePlace {
    pub at: usize,
    pub end: usize,
    pub facilities: u32,
    pub memory: u32,
}

// Judges the file, then looks for the facility and for the room of a name.
fn find(file: &[u8], facility: u32, room: usize) -> Result<NamePlace, Refusal>
    ensures { says result ≡ answer (name_refusal file.now facility room) (name_place file.now) }
{
    let t = ask(file, facility)?.tables;
    if room < NameCursor::LONGEST {
        return Err(Refusal::Room);
    }
    let head = t.names as usize;
    Ok(NamePlace {
        at: head + 8,
        end: t.end,
        facilities: t.facilities,
        memory: be32(file, head + 4),
    })
}

// The length of a facility's name. The buffer then holds the name, zeros up to 1,023 bytes, and what
// stood after them; where the question is refused it is as it was.
pub fn length_of(file: &[u8], facility: u32, names: &mut [u8]) -> Result<u32, Refusal>
    ensures { (says result ≡ name_asked file.now facility (length names.old)) × (names.new ≡ name_buffer file.now facility names.old) }
{
    let p = find(file, facility, names.len())?;
    let length = names::expand(file, p.at, p.end, p.facilities, p.memory, facility, names);
    Ok(length as u32)
}

// The name itself: the first bytes of the lent buffer. It is empty exactly where the name is empty or the
// question is refused. `length_of` writes, and nothing else does: so both write alike.
pub fn name_of<'f, 'a>(file: &'f [u8], facility: u32, names: &'a mut [u8]) -> &'a mut [u8]
    ensures { result.now ≡ name_part file.now facility (length names.old) }
{
    let length = length_of(file, facility, names).unwrap_or(0);
    &mut names[..length as usize]
}
