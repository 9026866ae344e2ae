// The rows of the table of facilities: what they mean, and whether they are allowed.
ghost use Rattle.std.specs.Prelude.{◌≡◌, ◌&&◌, ◌+◌};
ghost use Rattle.lxt_format.specs.Geometry.{facts_by};
ghost use Rattle.lxt_written.specs.Input.{kind_of_code, facility_of, facility_row_allowed};
ghost use Rattle.lxt_written.specs.Writing.{facility_allowed};

use lxt_format::{Facts, Kind, NameCursor};
use lxt_pack::parts;
use lxt_tables::geometry;

// The places of a row.
pub const NAME_START: usize = 0;

pub const NAME_LENGTH: usize = 1;

pub const KIND: usize = 2;

pub const MSB: usize = 3;

pub const LSB: usize = 4;

// The kind of a code; a code above 3 is not allowed.
pub fn kind_of(code: u32) -> Kind
    ensures { result ≡ kind_of_code code }
{
    match code {
        1 => Kind::Integer,
        2 => Kind::Real,
        3 => Kind::Text,
        _ => Kind::Bits,
    }
}

// The width of a facility.
pub fn width_of(kind: Kind, msb: u32, lsb: u32) -> u64
    ensures { result ≡ (facts_by kind msb lsb).width }
{
    match kind {
        Kind::Bits => geometry::width_between(msb, lsb),
        Kind::Integer => 32,
        Kind::Real | Kind::Text => 0,
    }
}

// A row that means a facility, and the facility is allowed.
pub fn allowed(names: &[u8], row: [u32; 5]) -> bool
    ensures { result ≡ (facility_row_allowed names.now row && facility_allowed (facility_of names.now row)) }
{
    let start = row[NAME_START] as usize;
    let size = row[NAME_LENGTH] as usize;
    if names.len() < start + size {
        return false;
    }
    if 3 < row[KIND] {
        return false;
    }
    if !NameCursor::length_is_allowed(size) {
        return false;
    }
    if !parts::no_zero(&names[start..start + size]) {
        return false;
    }
    let kind = kind_of(row[KIND]);
    Facts::width_is_allowed(width_of(kind, row[MSB], row[LSB]))
}
