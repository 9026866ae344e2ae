// Stray bytes: those of an accepted file that lie in no change and in no section's body.
ghost use Rattle.std.specs.Prelude.{◌≡◌};
ghost use Rattle.lxt_format.specs.Stray.{stray_asked};
ghost use Rattle.lxt_format.specs.Answers.{says};

use crate::{free, whole};
use lxt_format::Refusal;
use lxt_tables::bodies;

// Judges the file, and counts on the same way: the sweep over all changes meets the bytes between them.
pub fn count(file: &[u8]) -> Result<u32, Refusal>
    ensures { says result ≡ stray_asked file.now }
{
    let p = lxt_sections::locate(file)?;
    let t = lxt_tables::whole::tables_from(file, Ok(p))?;
    let mut parts = bodies::bodies(file, p, t.names_end);
    free::put_in_order(&mut parts);
    let found = whole::chains_outcome(file, t, &parts)?;
    Ok(found.free as u32)
}
