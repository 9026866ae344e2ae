// Padding: the bits of a change's last data byte that no symbol uses.
ghost use Rattle.std.specs.Prelude.{◌≡◌, ◌+◌, ◌*◌, ◌-◌, ◌≤◌, ◌<◌, ◌%◌, ◌^◌, eqb, length};
ghost use Rattle.lxt_format.specs.Limits.{widest_facility};
ghost use Rattle.lxt_format.specs.Changes.{signal, packed_size, padding_clean, clean_at};
ghost use Rattle.lxt_changes.specs.Padding.{Inside};

use crate::{delta, symbols};
use lxt_format::Kind;

// The lowest `k` bits of a byte are 0.
fn low_bits_are_0(byte: u8, k: usize) -> bool
    requires { k < 8 }
    ensures { result ≡ eqb (byte % 2 ^ k) 0 }
{
    k <= byte.trailing_zeros() as usize
}

// The padding of `width` symbols of `b` bits from `at` on is 0. Where there is no data there is none: no bit
// of the byte before `at` counts.
pub fn padding_clean(file: &[u8], b: u32, width: u32, at: usize) -> bool
    requires { ((b ≤ 4) × (width ≤ widest_facility)) × ((1 ≤ at) × (at + packed_size b width ≤ length file.now)) }
    ensures { result ≡ padding_clean file.now b width at }
{
    let size = symbols::packed_size(b, width);
    let unused = 8 * size - (b as usize) * (width as usize);
    let last = file[at + size - 1];
    low_bits_are_0(last, unused)
}

// The padding of the change at `o` is 0. C and T do not matter: 0 stands for them.
pub fn is_clean(file: &[u8], kind: Kind, width: u32, o: usize) -> bool
    requires { (width ≤ widest_facility) × Inside file.now kind width o }
    ensures { result ≡ clean_at file.now (signal 0 0 kind width) o }
{
    let at = delta::data_at(file, o);
    let b = symbols::size_of(file[o]);
    match kind {
        Kind::Bits | Kind::Integer => padding_clean(file, b, width, at),
        Kind::Real | Kind::Text => true,
    }
}
