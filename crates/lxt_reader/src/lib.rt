// The public questions on a trace. Every call judges the file first, takes any bytes and has no
// requires; a refused call answers its number only and changes nothing that was lent.
#![tactic(auto)]

pub mod changes;
pub mod facilities;
pub mod names;
pub mod texts;
pub mod values;

ghost use Rattle.std.specs.Prelude.{◌≡◌};
ghost use Rattle.lxt_format.specs.Judge.{judge};
ghost use Rattle.lxt_format.specs.Stray.{stray_asked};
ghost use Rattle.lxt_format.specs.Answers.{says};

use lxt_chains::stray::count;
use lxt_chains::whole::judged;
use lxt_format::{Refusal, Summary};

// n, C, T, timescale, initial symbol and whether the padding of every change is 0, or the refusal.
pub fn judge(file: &[u8]) -> Result<Summary, Refusal>
    ensures { says result ≡ judge file.now }
{
    let j = judged(file)?;
    let t = j.tables;
    Ok(Summary {
        facilities: t.facilities,
        changes: t.changes,
        end: t.end as u32,
        timescale: t.timescale,
        initial: t.initial,
        clean: j.clean,
    })
}

// How many bytes of the file lie in no change and in no section, or the refusal.
pub fn stray(file: &[u8]) -> Result<u32, Refusal>
    ensures { says result ≡ stray_asked file.now }
{
    count(file)
}
