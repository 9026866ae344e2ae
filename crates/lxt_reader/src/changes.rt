// Questions on the changes of a facility.
ghost use Rattle.std.specs.Prelude.{◌≡◌, eqb};
ghost use Rattle.lxt_format.specs.Basics.{answer, any};
ghost use Rattle.lxt_format.specs.Changes.{chain_of};
ghost use Rattle.lxt_format.specs.Answers.{says};
ghost use Rattle.lxt_format.specs.Questions.{facility_refusal, change_refusal, before_asked};
ghost use Rattle.lxt_chains.specs.Reading.{Tells};
ghost use Rattle.lxt_values.specs.Times.{Readable};
ghost use Rattle.lxt_reader.specs.Changing.{chain_at};

use crate::facilities::ask;
use lxt_chains::whole::Rejected;
use lxt_changes::delta;
use lxt_format::{Facts, Refusal};
use lxt_tables::{Tables, geometry};

// Where the chain of a facility's root starts, and the root's facts; and the tables of the file.
#[derive(Clone, Copy)]
pub struct Chain {
    pub start: u32,
    pub facts: Facts,
    pub tables: Tables,
}

// Judges the file, then looks for the facility and its root's chain.
pub fn find_chain(file: &[u8], facility: u32) -> Result<Chain, Rejected>
    ensures { Tells file.now (answer (facility_refusal file.now facility) (chain_at file.now facility)) result }
{
    let a = ask(file, facility)?;
    let t = a.tables;
    let facts = t.geometry(file).own_facts(a.root);
    let start = geometry::sync_of(file, t.sync as usize, t.facilities, a.root);
    Ok(Chain {
        start,
        facts,
        tables: t,
    })
}

// The offset `o` is on the chain that starts at `start`.
fn on_chain(file: &[u8], start: usize, o: usize) -> bool
    requires { Readable file.now (chain_of file.now start) }
    ensures { result ≡ any (eqb o) (chain_of file.now start) }
{
    let mut p = start;
    // a chain of offsets, not a count
    while p != 0 {
        if o == p {
            return true;
        }
        p = delta::previous(file, p);
    }
    false
}

// The same for a question on a change, which is to be on the chain.
pub fn find_change(file: &[u8], facility: u32, offset: u32) -> Result<Chain, Rejected>
    ensures { Tells file.now (answer (change_refusal file.now facility offset) (chain_at file.now facility)) result }
{
    let c = find_chain(file, facility)?;
    if !on_chain(file, c.start as usize, offset as usize) {
        return Err(Rejected {
            refusal: Refusal::Offset,
            tables: Some(c.tables),
        });
    }
    Ok(c)
}

// The change before a given change, or 0 where there is none.
pub fn before(file: &[u8], facility: u32, offset: u32) -> Result<u32, Refusal>
    ensures { says result ≡ before_asked file.now facility offset }
{
    find_change(file, facility, offset)?;
    Ok(delta::previous(file, offset as usize) as u32)
}
