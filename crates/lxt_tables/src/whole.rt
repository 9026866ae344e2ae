// The tables of a whole file: refusals 1 to 14, or what passes them.
ghost use Rattle.std.specs.Prelude.{◌≡◌, replicate, if◌then◌else◌};
ghost use Rattle.lxt_format.specs.Basics.{◌unless◌, given, answer};
ghost use Rattle.lxt_format.specs.Reals.{has_real, byte_order, real_test_allowed};
ghost use Rattle.lxt_format.specs.Answers.{says};
ghost use Rattle.lxt_sections.specs.Stage.{located};
ghost use Rattle.lxt_tables.specs.Stage.{after_names, tables_with, tables_read};
ghost use Rattle.lxt_tables.specs.Asked.{Placed};
ghost use Rattle.lxt_tables.specs.Steps.{middle_refusal};

use crate::Tables;
use crate::geometry::GeometryTable;
use crate::names::name_table_end;
use crate::reals::{byte_order, is_reordering};
use crate::single::{initial, timescale};
use crate::times::times_allowed;
use lxt_format::Refusal;
use lxt_sections::Sections;

// Refusals 11 to 13.
fn middle(file: &[u8], p: Sections) -> Result<(), Refusal>
    requires { Placed file.now p }
    ensures { says result ≡ answer (middle_refusal file.now) tt }
{
    let geometry = GeometryTable::new(file, p.geometry as usize, p.facilities);
    if !geometry.all_allowed() {
        return Err(Refusal::Geometry);
    }
    if !geometry.aliases_allowed() {
        return Err(Refusal::Aliases);
    }
    if !times_allowed(file, p) {
        return Err(Refusal::Times);
    }
    Ok(())
}

// Refusal 14, or the byte order of reals: all 0 where no facility is a real. An absent real test starts at 0, and
// so does not lie inside.
fn real_order(file: &[u8], p: Sections) -> Result<[u8; 8], Refusal>
    requires { Placed file.now p }
    ensures { says result ≡ answer (14 unless real_test_allowed file.now) (if has_real file.now then byte_order file.now else replicate 8 0) }
{
    let geometry = GeometryTable::new(file, p.geometry as usize, p.facilities);
    if !geometry.has_real() {
        return Ok([0u8; 8]);
    }
    if !lxt_sections::lies(p.end, p.real_test, 8) {
        return Err(Refusal::RealTest);
    }
    let order = byte_order(file, p.real_test as usize);
    if !is_reordering(order) {
        return Err(Refusal::RealTest);
    }
    Ok(order)
}

fn passed(file: &[u8], p: Sections, names_end: u32, order: [u8; 8]) -> Tables
    requires { (Placed file.now p) × (names_end ≡ after_names file.now) }
    ensures { result ≡ tables_with file.now order }
{
    Tables {
        wide_times: p.wide_times,
        facilities: p.facilities,
        time_count: p.time_count,
        end: p.end,
        changes: p.changes,
        sync: p.sync,
        names: p.names,
        names_end,
        geometry: p.geometry,
        times: p.times,
        timescale: timescale(file, p.timescale),
        initial: initial(file, p.initial),
        order,
    }
}

// What refusals 1 to 14 pass, or the refusal, by the sections of the file, which 1 to 9 pass.
fn tables_by(file: &[u8], p: Sections) -> Result<Tables, Refusal>
    requires { given p ≡ located file.now }
    ensures { says result ≡ tables_read file.now }
{
    let Some(names_end) = name_table_end(file, p) else {
        return Err(Refusal::Names);
    };
    middle(file, p)?;
    let order = real_order(file, p)?;
    Ok(passed(file, p, names_end, order))
}

// The same by what locating them answers, of any file.
pub fn tables_from(file: &[u8], sections: Result<Sections, Refusal>) -> Result<Tables, Refusal>
    requires { says sections ≡ located file.now }
    ensures { says result ≡ tables_read file.now }
{
    tables_by(file, sections?)
}

// What refusals 1 to 14 pass, or the refusal.
pub fn tables(file: &[u8]) -> Result<Tables, Refusal>
    ensures { says result ≡ tables_read file.now }
{
    tables_from(file, lxt_sections::locate(file))
}
