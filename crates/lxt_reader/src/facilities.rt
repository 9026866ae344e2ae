// Questions on a facility: its facts and its root.
ghost use Rattle.std.specs.Prelude.{◌≡◌};
ghost use Rattle.lxt_format.specs.Answers.{says};
ghost use Rattle.lxt_format.specs.Questions.{facts_asked, root_asked};
ghost use Rattle.lxt_chains.specs.Reading.{Tells};
ghost use Rattle.lxt_reader.specs.Asking.{asked};

use lxt_chains::whole::{Rejected, judged};
use lxt_format::{Facts, Refusal};
use lxt_tables::Tables;

// A facility's root, and the tables of the file.
#[derive(Clone, Copy)]
pub struct Asked {
    pub root: u32,
    pub tables: Tables,
}

// Judges the file, then looks for the facility.
pub fn ask(file: &[u8], facility: u32) -> Result<Asked, Rejected>
    ensures { Tells file.now (asked file.now facility) result }
{
    let tables = judged(file)?.tables;
    if tables.facilities <= facility {
        return Err(Rejected {
            refusal: Refusal::Facility,
            tables: Some(tables),
        });
    }
    let root = tables.geometry(file).root(facility);
    Ok(Asked { root, tables })
}

// The facts of a facility; an alias answers its root's.
pub fn facts_of(file: &[u8], facility: u32) -> Result<Facts, Refusal>
    ensures { says result ≡ facts_asked file.now facility }
{
    let a = ask(file, facility)?;
    Ok(a.tables.geometry(file).own_facts(a.root))
}

// The root of a facility; a root's root is itself.
pub fn root_of(file: &[u8], facility: u32) -> Result<u32, Refusal>
    ensures { says result ≡ root_asked file.now facility }
{
    let a = ask(file, facility)?;
    Ok(a.root)
}
