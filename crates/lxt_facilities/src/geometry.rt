// Section 04: geometry, and section 02: sync.
ghost use Rattle.std.specs.Prelude.{◌≡◌, [], map, ◌+◌, ◌*◌, ◌≤◌, length};
ghost use Rattle.lxt_format.specs.Basics.{joined};
ghost use Rattle.lxt_format.specs.Buffers.{placed};
ghost use Rattle.lxt_written.specs.Input.{facility_of};
ghost use Rattle.lxt_written.specs.WrittenChanges.{big_endian};
ghost use Rattle.lxt_written.specs.WrittenFile.{geometry_bytes, msb_for, lsb_for, flags_for};

use crate::facilities;
use crate::facilities::{KIND, LSB, MSB};
use lxt_format::Kind;
use lxt_pack::put;

// The flags of a kind, and msb and lsb, which only bits have of their own.
fn flags_of(kind: Kind) -> u32
    ensures { result ≡ flags_for kind }
{
    match kind {
        Kind::Bits => 0,
        Kind::Integer => 1,
        Kind::Real => 2,
        Kind::Text => 4,
    }
}

fn msb_of(kind: Kind, msb: u32) -> u32
    ensures { result ≡ msb_for kind msb }
{
    match kind {
        Kind::Bits => msb,
        Kind::Integer => 31,
        Kind::Real | Kind::Text => 0,
    }
}

fn lsb_of(kind: Kind, lsb: u32) -> u32
    ensures { result ≡ lsb_for kind lsb }
{
    match kind {
        Kind::Bits => lsb,
        Kind::Integer | Kind::Real | Kind::Text => 0,
    }
}

// The 16 bytes of a facility.
fn put_row(row: [u32; 5], out: &mut [u8], at: usize)
    requires { at + 16 ≤ length out.old }
    ensures { out.new ≡ placed out.old at (geometry_bytes (facility_of [] row)) }
{
    let kind = facilities::kind_of(row[KIND]);
    put::number::<4>(out, at, 0);
    put::number::<4>(out, at + 4, msb_of(kind, row[MSB]));
    put::number::<4>(out, at + 8, lsb_of(kind, row[LSB]));
    put::number::<4>(out, at + 12, flags_of(kind));
}

// All facilities, from `at` on.
pub fn put_all(facilities: &[[u32; 5]], out: &mut [u8], at: usize)
    requires { at + 16 * length facilities.now ≤ length out.old }
    ensures { out.new ≡ placed out.old at (joined geometry_bytes (map (facility_of []) facilities.now)) }
{
    let mut p = at;
    for row in facilities {
        put_row(*row, out, p);
        p += 16;
    }
}

// The newest change of each facility.
pub fn put_sync(last: &[u32], out: &mut [u8], at: usize)
    requires { at + 4 * length last.now ≤ length out.old }
    ensures { out.new ≡ placed out.old at (joined (big_endian 4) last.now) }
{
    let mut p = at;
    for offset in last {
        put::number::<4>(out, p, *offset);
        p += 4;
    }
}
