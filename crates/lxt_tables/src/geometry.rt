// The geometry of a trace, entry by entry: refusal 11, and the facts of a facility.
ghost use Rattle.std.specs.Prelude.{◌≡◌, true, false, ◌≤◌, ◌<◌};
ghost use Rattle.lxt_format.specs.Limits.{widest_facility};
ghost use Rattle.lxt_format.specs.Geometry.{rows_of, msb_of, lsb_of, flags_of, is_alias, flags_allowed, kind_of_flags, width_between, geometry_allowed, geometries_allowed, facts_by, own_facts, sync_of};
ghost use Rattle.lxt_tables.specs.Stage.{Geometry};
ghost use Rattle.lxt_tables.specs.Asked.{Sync};

use crate::Tables;
use lxt_format::{Facts, Kind};
use lxt_sections::be32;

// The bytes of an entry: rows, msb, lsb and flags, 4 each.
const ENTRY: usize = 16;

// The geometry of a file: where it starts and how many entries it has.
#[derive(Clone, Copy)]
pub struct GeometryTable<'f> {
    pub file: &'f [u8],
    pub at: usize,
    pub count: u32,
    pub ghost there: { Geometry file.now at count },
}

impl<'f> GeometryTable<'f> {
    pub fn new(file: &'f [u8], at: usize, count: u32) -> GeometryTable<'f>
        requires { Geometry file.now at count }
        ensures same_file { result.file.now ≡ file.now }
        ensures place { (result.at ≡ at) × (result.count ≡ count) }
    {
        GeometryTable { file, at, count }
    }

    pub fn rows(self, f: u32) -> u32
        requires { f < self.count }
        ensures { result ≡ rows_of self.entry.file.now f }
    {
        be32(self.file, self.at + ENTRY * (f as usize))
    }

    fn msb(self, f: u32) -> u32
        requires { f < self.count }
        ensures { result ≡ msb_of self.entry.file.now f }
    {
        be32(self.file, self.at + ENTRY * (f as usize) + 4)
    }

    fn lsb(self, f: u32) -> u32
        requires { f < self.count }
        ensures { result ≡ lsb_of self.entry.file.now f }
    {
        be32(self.file, self.at + ENTRY * (f as usize) + 8)
    }

    pub fn flags(self, f: u32) -> u32
        requires { f < self.count }
        ensures { result ≡ flags_of self.entry.file.now f }
    {
        be32(self.file, self.at + ENTRY * (f as usize) + 12)
    }

    // Flag bit 3.
    pub fn is_alias(self, f: u32) -> bool
        requires { f < self.count }
        ensures { result ≡ is_alias self.entry.file.now f }
    {
        self.flags(f) / 8 % 2 == 1
    }

    // The entry of a facility keeps the rules of refusal 11.
    pub fn allowed(self, f: u32) -> bool
        requires { f < self.count }
        ensures { result ≡ geometry_allowed self.entry.file.now f }
    {
        let word = self.flags(f);
        let width = width_between(self.msb(f), self.lsb(f));
        self.is_alias(f)
            | ((self.rows(f) == 0)
                & flags_allowed(word)
                & ((word != 0) | Facts::width_is_allowed(width)))
    }

    // Refusal 11.
    pub fn all_allowed(self) -> bool
        ensures { result ≡ geometries_allowed self.entry.file.now }
    {
        for f in 0..self.count {
            if !self.allowed(f) {
                return false;
            }
        }
        true
    }

    // The facts that a root's own entry gives.
    pub fn own_facts(self, f: u32) -> Facts
        requires inside { f < self.count }
        requires f_value { geometry_allowed self.file.now f ≡ true }
        requires f_value_2 { is_alias self.file.now f ≡ false }
        ensures { result ≡ own_facts self.entry.file.now f }
    {
        match kind_of(self.flags(f)) {
            Kind::Bits => bits_facts(self.msb(f), self.lsb(f)),
            Kind::Integer => Facts {
                width: 32,
                msb: 31,
                lsb: 0,
                kind: Kind::Integer,
            },
            Kind::Real => Facts {
                width: 0,
                msb: 0,
                lsb: 0,
                kind: Kind::Real,
            },
            Kind::Text => Facts {
                width: 0,
                msb: 0,
                lsb: 0,
                kind: Kind::Text,
            },
        }
    }
}

impl Tables {
    // The geometry of the file that these are the tables of.
    pub fn geometry(self, file: &[u8]) -> GeometryTable<'_>
        requires { Geometry file.now self.geometry self.facilities }
        ensures same_file { result.file.now ≡ file.now }
        ensures place { (result.at ≡ self.geometry) × (result.count ≡ self.facilities) }
    {
        GeometryTable::new(file, self.geometry as usize, self.facilities)
    }
}

// Where the facility's chain starts.
pub fn sync_of(file: &[u8], sync: usize, n: u32, f: u32) -> u32
    requires { Sync file.now sync n × (f < n) }
    ensures { result ≡ sync_of file.now f }
{
    be32(file, sync + 4 * (f as usize))
}

// |msb - lsb| + 1 of the signed numbers.
pub fn width_between(msb: u32, lsb: u32) -> u64
    ensures { result ≡ width_between msb lsb }
{
    let distance = msb.cast_signed().abs_diff(lsb.cast_signed());
    u64::from(distance) + 1
}

fn flags_allowed(flags: u32) -> bool
    ensures { result ≡ flags_allowed flags }
{
    matches!(flags, 0 | 1 | 2 | 4)
}

fn kind_of(flags: u32) -> Kind
    ensures { result ≡ kind_of_flags flags }
{
    match flags {
        1 => Kind::Integer,
        2 => Kind::Real,
        4 => Kind::Text,
        _ => Kind::Bits,
    }
}

// The facts of bits that are not too wide.
fn bits_facts(msb: u32, lsb: u32) -> Facts
    requires { width_between msb lsb ≤ widest_facility }
    ensures { result ≡ facts_by Kind.Bits msb lsb }
{
    Facts {
        width: width_between(msb, lsb) as u32,
        msb: msb.cast_signed(),
        lsb: lsb.cast_signed(),
        kind: Kind::Bits,
    }
}
