// The delta of a change, and the change before it.
ghost use Rattle.std.specs.Prelude.{◌≡◌, ◌+◌, ◌*◌, ◌≤◌, ◌<◌, length};
ghost use Rattle.lxt_format.specs.Bytes.{number_at};
ghost use Rattle.lxt_format.specs.Changes.{delta_size, data_at, previous_of, previous_allowed};

use lxt_sections::{be16, be32};

// The number of delta bytes, 1 to 4.
pub fn size_of(file: &[u8], o: usize) -> usize
    requires { o < length file.now }
    ensures { (result ≡ delta_size file.now o) × ((1 ≤ result) × (result ≤ 4)) }
{
    usize::from(file[o] / 16 % 4) + 1
}

// Where the data of the change at `o` starts, after its command byte and its delta.
pub fn data_at(file: &[u8], o: usize) -> usize
    requires { o < length file.now }
    ensures { (result ≡ data_at file.now o) × ((o + 2 ≤ result) × (result ≤ o + 5)) }
{
    o + 1 + size_of(file, o)
}

// The number in `size` bytes from `at` on.
fn number(file: &[u8], size: usize, at: usize) -> u32
    requires { ((1 ≤ size) × (size ≤ 4)) × (at + size ≤ length file.now) }
    ensures { result ≡ number_at size file.now at }
{
    match size {
        1 => u32::from(file[at]),
        2 => be16(file, at),
        3 => be16(file, at) * 256 + u32::from(file[at + 2]),
        _ => be32(file, at),
    }
}

// The offset of the change before the change at `o`, or 0. Where the offset would lie below 0 it is 0.
pub fn previous(file: &[u8], o: usize) -> usize
    requires { (o < length file.now) × (data_at file.now o ≤ length file.now) }
    ensures { result ≡ previous_of file.now o }
{
    let size = size_of(file, o);
    let delta = number(file, size, o + 1) as usize;
    o.saturating_sub(delta + 2)
}

// The previous offset is 0 or from `from` on, and not below 0.
pub fn previous_allowed(file: &[u8], from: usize, o: usize) -> bool
    requires { (o < length file.now) × (data_at file.now o ≤ length file.now) }
    ensures { result ≡ previous_allowed file.now from o }
{
    let size = size_of(file, o);
    let delta = number(file, size, o + 1) as usize;
    let Some(before) = o.checked_sub(delta + 2) else {
        return false;
    };
    (before == 0) | (from <= before)
}
