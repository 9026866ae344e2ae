// A whole file: refusals 1 to 17, or its tables and whether its padding is 0.
ghost use Rattle.std.specs.Prelude.{◌≡◌};
ghost use Rattle.lxt_format.specs.Basics.{given, answer};
ghost use Rattle.lxt_format.specs.Judge.{all_clean};
ghost use Rattle.lxt_format.specs.Answers.{says};
ghost use Rattle.lxt_tables.specs.Stage.{tables_read};
ghost use Rattle.lxt_chains.specs.Reading.{Ready, Broken, chains_verdict, examined, Tells};
ghost use Rattle.lxt_chains.specs.Free.{Ordered};
ghost use Rattle.lxt_chains.specs.Sweep.{outcome};

use crate::chains::Chains;
use crate::sweep::Totals;
use crate::{chains, lowest, sweep};
use lxt_changes::fault;
use lxt_format::Refusal;
use lxt_tables::Tables;

// What the chains of a file are read with, once its tables have passed.
pub fn chains_of(file: &[u8], t: Tables) -> Chains
    requires { given t ≡ tables_read file.now }
    ensures { Ready file.now result }
{
    Chains {
        facilities: t.facilities,
        from: t.changes as usize,
        end: t.end,
        zero: fault::last_zero(file, t.end),
        geometry: t.geometry as usize,
        sync: t.sync as usize,
    }
}

// Refusals 15 to 17 of a file in which a change has a fault or two share a byte: the fault of the lowest
// root that has one, and 17 where none has.
fn refused(file: &[u8], c: Chains) -> Result<bool, Refusal>
    requires { Ready file.now c × Broken file.now }
    ensures { says result ≡ answer (chains_verdict file.now) (all_clean file.now) }
{
    if !lowest::any_of_first(file, c, c.facilities) {
        return Err(Refusal::SharedByte);
    }
    let f = lowest::lowest(file, c);
    chains::facility_fault(file, c, f)
}

// Refusals 15 to 17, once the tables have passed; else whether the padding of all changes is 0, and how many bytes
// from offset 4 on lie in no change and no part.
pub fn chains_outcome(file: &[u8], t: Tables, parts: &[u64]) -> Result<Totals, Refusal>
    requires { (given t ≡ tables_read file.now) × Ordered parts.now }
    ensures { says result ≡ outcome file.now parts.now }
{
    let c = chains_of(file, t);
    let Some(found) = sweep::all_keep(file, c, parts) else {
        // a file in which a rule is broken has a refusal
        let clean = refused(file, c)?;
        return Ok(Totals { clean, free: 0 });
    };
    Ok(found)
}

// A file without refusal: whether its padding is 0, and its tables.
#[derive(Clone, Copy)]
pub struct Examined {
    pub clean: bool,
    pub tables: Tables,
}

// A refusal, of the file or of a question on it, and the file's tables where 1 to 14 pass.
#[derive(Clone, Copy)]
pub struct Rejected {
    pub refusal: Refusal,
    pub tables: Option<Tables>,
}

impl From<Rejected> for Refusal {
    ghost from_gives = { λ r refusal. refusal ≡ r.refusal };

    fn from(r: Rejected) -> Refusal {
        r.refusal
    }
}

// Inlined, so that its answer takes no stack of its own beside what the caller keeps of it.
#[inline(always)]
pub fn judged(file: &[u8]) -> Result<Examined, Rejected>
    ensures { Tells file.now (examined file.now) result }
{
    let tables = match lxt_tables::whole::tables(file) {
        Ok(tables) => tables,
        Err(refusal) => {
            return Err(Rejected {
                refusal,
                tables: None,
            });
        }
    };
    // no parts: judging does not ask for free bytes
    match chains_outcome(file, tables, &[]) {
        Ok(found) => Ok(Examined {
            clean: found.clean,
            tables,
        }),
        Err(refusal) => Err(Rejected {
            refusal,
            tables: Some(tables),
        }),
    }
}
