// Whether a change keeps the rules of 15 and 16, without the number of the one that it breaks. `fault` has
// the numbers, in their order; here nothing is carried from change to change.
ghost use Rattle.std.specs.Prelude.{◌≡◌, true, ◌+◌, ◌≤◌, ◌<◌, leb, length};
ghost use Rattle.lxt_format.specs.Limits.{widest_facility};
ghost use Rattle.lxt_format.specs.Changes.{command_of, data_at, symbol_size, packed_size, codes_allowed};
ghost use Rattle.lxt_changes.specs.Windows.{all_good, Data};
ghost use Rattle.lxt_changes.specs.Keeping.{head_kept, kept_with, Wide, SymbolsKept, Keeps};

use crate::{delta, padding, symbols};
use lxt_format::Kind;
use lxt_sections::zeros::zero_from;

// A change that keeps the rules: whether its padding is 0, and where it ends.
#[derive(Clone, Copy)]
pub struct Kept {
    pub clean: bool,
    pub end: usize,
}

// All rules but those of the data: where the change at `o` starts, its command byte, that its delta ends at
// or below `end`, and where the change before it lies.
pub fn head_keeps(file: &[u8], from: usize, end: usize, kind: Kind, o: usize) -> bool
    requires { end ≤ length file.now }
    ensures { result ≡ head_kept file.now from end kind o }
{
    if end <= o {
        return false;
    }
    if end < delta::data_at(file, o) {
        return false;
    }
    (from <= o) & symbols::command_fits(kind, file[o]) & delta::previous_allowed(file, from, o)
}

// Where the symbols of the change at `o` end.
fn symbols_end(file: &[u8], width: u32, o: usize) -> usize
    requires { (width ≤ widest_facility) × (o < length file.now) }
    ensures { result ≡ data_at file.now o + packed_size (symbol_size (command_of file.now o)) width }
{
    delta::data_at(file, o) + symbols::packed_size(symbols::size_of(file[o]), width)
}

// They end at or below `end`.
pub fn symbols_fit(file: &[u8], end: usize, width: u32, o: usize) -> bool
    requires { (width ≤ widest_facility) × (o < length file.now) }
    ensures { result ≡ leb (data_at file.now o + packed_size (symbol_size (command_of file.now o)) width) end }
{
    symbols_end(file, width, o) <= end
}

// All bytes from `from` up to `to` hold only codes of symbols. Every byte is read, so that the loop has no
// way out and is made wide; where changes share no byte, each is read once. (Inlined: it runs for each change.)
#[inline(always)]
pub(crate) fn all_good(file: &[u8], from: usize, to: usize) -> bool
    requires { (from ≤ to) × (to ≤ length file.now) }
    ensures { result ≡ all_good file.now from to }
{
    let mut all = true;
    for p in from..to {
        all &= symbols::good(file[p]);
    }
    all
}

// The codes of `width` symbols of `b` bits from `at` on are allowed.
fn codes_good(file: &[u8], b: u32, width: u32, at: usize) -> bool
    requires { Data file.now b width at }
    ensures { result ≡ codes_allowed file.now b width at }
{
    if b != 4 {
        return true;
    }
    let last = at + width as usize / 2;
    let good = all_good(file, at, last);
    if width % 2 == 0 {
        return good;
    }
    good & (file[last] / 16 % 16 <= 8)
}

// The data of a change of symbols ends at or below `end`, and its codes are allowed.
fn symbols_keep(file: &[u8], end: usize, width: u32, o: usize) -> Option<Kept>
    requires { ((1 ≤ width) × (width ≤ widest_facility)) × ((o < length file.now) × (end ≤ length file.now)) }
    ensures { SymbolsKept file.now end width o result }
{
    let to = symbols_end(file, width, o);
    if end < to {
        return None;
    }
    let b = symbols::size_of(file[o]);
    let at = delta::data_at(file, o);
    if !codes_good(file, b, width, at) {
        return None;
    }
    Some(Kept {
        clean: padding::padding_clean(file, b, width, at),
        end: to,
    })
}

// The change at `o` of bits of that width keeps all rules, with `end` for T.
pub fn bits_keep(file: &[u8], from: usize, end: usize, width: u32, o: usize) -> Option<Kept>
    requires { Wide file.now end Kind.Bits width }
    ensures { Keeps file.now from end Kind.Bits width o result }
{
    if !head_keeps(file, from, end, Kind::Bits, o) {
        return None;
    }
    symbols_keep(file, end, width, o)
}

// Data without padding that ends at `to`, if that is at or below `end`.
fn unpadded(to: usize, end: usize) -> Option<Kept>
    ensures { result ≡ kept_with (leb to end) true to }
{
    if end < to {
        return None;
    }
    Some(Kept {
        clean: true,
        end: to,
    })
}

// The same of a facility of another kind. An integer has 32 symbols of 1 bit or none, so it has no padding.
pub fn others_keep(
    file: &[u8],
    from: usize,
    end: usize,
    kind: Kind,
    width: u32,
    o: usize,
) -> Option<Kept>
    requires { Wide file.now end kind width × ((kind ≡ Kind.Bits → ⊥) × (kind ≡ Kind.Integer → width ≡ 32)) }
    ensures { Keeps file.now from end kind width o result }
{
    if !head_keeps(file, from, end, kind, o) {
        return None;
    }
    let at = delta::data_at(file, o);
    match kind {
        Kind::Bits => None,
        Kind::Integer => unpadded(symbols_end(file, 32, o), end),
        Kind::Real => unpadded(at + 8, end),
        Kind::Text => unpadded(zero_from(file, at, end) + 1, end),
    }
}
