// One root's chain: refusals 15 and 16, and whether its padding is 0.
ghost use Rattle.std.specs.Prelude.{◌≡◌, true, false, ◌<◌};
ghost use Rattle.lxt_format.specs.Basics.{answer};
ghost use Rattle.lxt_format.specs.Geometry.{is_alias};
ghost use Rattle.lxt_format.specs.Judge.{fault_from, clean_from};
ghost use Rattle.lxt_format.specs.Answers.{says};
ghost use Rattle.lxt_chains.specs.Reading.{Ready, facility_fault, facility_clean};

use lxt_changes::fault;
use lxt_format::Refusal;
use lxt_tables::geometry::{self, GeometryTable};

// What the chains of a file are read with: n, C, T, one past the last zero before T, and where the
// geometry and the sync table start.
#[derive(Clone, Copy)]
pub struct Chains {
    pub facilities: u32,
    pub from: usize,
    pub end: usize,
    pub zero: usize,
    pub geometry: usize,
    pub sync: usize,
}

impl Chains {
    // The geometry of the file that these are read with.
    pub fn geometry(self, file: &[u8]) -> GeometryTable<'_>
        requires { Ready file.now self }
        ensures same_file { result.file.now ≡ file.now }
        ensures place { (result.at ≡ self.geometry) × (result.count ≡ self.facilities) }
    {
        GeometryTable::new(file, self.geometry, self.facilities)
    }
}

// The fault of the chain that starts at `o`, read with the kind and width of the root `f`, or whether its padding
// is 0.
fn fault_from(file: &[u8], c: Chains, f: u32, o: u32) -> Result<bool, Refusal>
    requires { Ready file.now c × ((f < c.facilities) × (is_alias file.now f ≡ false)) }
    ensures { says result ≡ answer (fault_from file.now f o) (clean_from file.now f o) }
{
    let facts = c.geometry(file).own_facts(f);
    fault::first_fault(
        file,
        c.from,
        c.end,
        c.zero,
        facts.kind,
        facts.width,
        o as usize,
    )
}

// The same of a facility's own chain; an alias has none.
pub fn facility_fault(file: &[u8], c: Chains, f: u32) -> Result<bool, Refusal>
    requires { Ready file.now c × (f < c.facilities) }
    ensures { says result ≡ answer (facility_fault file.now f) (facility_clean file.now f) }
{
    if c.geometry(file).is_alias(f) {
        return Ok(true);
    }
    let start = geometry::sync_of(file, c.sync, c.facilities, f);
    fault_from(file, c, f, start)
}
