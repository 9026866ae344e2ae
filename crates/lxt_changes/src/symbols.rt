// Symbols of 1, 2 and 4 bits: which commands a kind has, how many bytes the data takes, and whether
// its codes are allowed.
ghost use Rattle.std.specs.Prelude.{◌≡◌, ◌&&◌, ◌+◌, ◌*◌, ◌-◌, ◌≤◌, ◌<◌, ◌/◌, ◌%◌, ltb, length};
ghost use Rattle.lxt_format.specs.Limits.{widest_facility};
ghost use Rattle.lxt_format.specs.Changes.{command_allowed, symbol_size, packed_size, codes_allowed};
ghost use Rattle.lxt_changes.specs.Windows.{good_byte, all_good, Scanned, ScannedUp, Known, Answered, Data};

use crate::keep;
use lxt_format::Kind;

// The two highest bits are 0, and the command is one of the kind's.
pub fn command_fits(kind: Kind, byte: u8) -> bool
    ensures { result ≡ (ltb byte 0x40 && command_allowed kind (byte % 16)) }
{
    let command = byte % 16;
    match kind {
        Kind::Bits => (byte < 0x40) & (command <= 0xb),
        Kind::Integer => (byte < 0x40) & ((command == 0) | (command == 3) | (command == 4)),
        Kind::Real | Kind::Text => byte < 0x40,
    }
}

// The bits that a symbol takes under the command of a command byte; 0 where there is no data.
pub fn size_of(byte: u8) -> u32
    ensures { (result ≡ symbol_size (byte % 16)) × (result ≤ 4) }
{
    match byte % 16 {
        0 => 1,
        1 => 2,
        2 => 4,
        _ => 0,
    }
}

// The bytes that `width` symbols of `b` bits fill.
pub fn packed_size(b: u32, width: u32) -> usize
    requires { (b ≤ 4) × (width ≤ widest_facility) }
    ensures { (result ≡ packed_size b width) × (result ≤ 2048) }
{
    ((b as usize) * (width as usize) + 7) / 8
}

// Both codes of a byte are codes of symbols.
pub fn good(byte: u8) -> bool
    ensures { result ≡ good_byte byte }
{
    (byte / 16 % 16 <= 8) & (byte % 16 <= 8)
}

// From so many bytes on, a loop without a way out is faster, although it may read bytes that tell nothing.
const MANY: usize = 64;

// The lowest offset from which on, up to `to`, all bytes are good; `from` bounds the search. Where there is a byte
// between them both lie in one change, so that at most its bytes are read twice.
fn good_from(file: &[u8], from: usize, to: usize) -> usize
    requires { to ≤ length file.now }
    ensures { Scanned file.now from to result }
{
    if (MANY <= to.saturating_sub(from)) && keep::all_good(file, from, to) {
        return from;
    }
    for p in (from..to).rev() {
        if !good(file[p]) {
            return p + 1;
        }
    }
    from.min(to)
}

// The first offset from `from` on whose byte is not good; `to` where there is none below it.
fn good_to(file: &[u8], from: usize, to: usize) -> usize
    requires { (from ≤ to) × (to ≤ length file.now) }
    ensures { ScannedUp file.now from to result }
{
    for p in from..to {
        if !good(file[p]) {
            return p;
        }
    }
    to
}

// The bytes from `from` up to `to` are known to be good.
#[derive(Clone, Copy)]
pub struct Window {
    pub from: usize,
    pub to: usize,
}

// All bytes from `from` up to `to` are good: then the window that is known after that, else none. Where they meet
// the window, only those outside it are read; where they end below it, the gap is read too, and the window is kept
// if the gap is good. Changes are visited as their offsets fall, so that each byte is read about once, although the
// changes of several chains, narrow and wide ones, are interleaved.
fn all_good(file: &[u8], w: Window, from: usize, to: usize) -> Option<Window>
    requires { Known file.now w × ((from ≤ to) × (to ≤ length file.now)) }
    ensures { Answered file.now (all_good file.now from to) result }
{
    if to < w.from {
        return all_good_below(file, w, from, to);
    }
    if w.to < from {
        return all_good_anew(file, from, to);
    }
    let low = good_from(file, from, w.from);
    if from < low {
        return None;
    }
    let high = good_from(file, w.to, to);
    if w.to < high {
        return None;
    }
    let top = to.max(w.to);
    Some(Window { from: low, to: top })
}

// The same below the window: the new one goes on upward to the first byte that is not good, or joins the
// old one. Data that starts below such a byte and reaches past it is not good, so what is known above it
// may be forgotten. Of an empty window there is nothing to keep.
fn all_good_below(file: &[u8], w: Window, from: usize, to: usize) -> Option<Window>
    requires { Known file.now w × ((from ≤ to) × ((to < w.from) × (to ≤ length file.now))) }
    ensures { Answered file.now (all_good file.now from to) result }
{
    if w.to <= w.from {
        return all_good_anew(file, from, to);
    }
    let low = good_from(file, from, to);
    if from < low {
        return None;
    }
    let high = good_to(file, to, w.from);
    if high < w.from {
        return Some(Window {
            from: low,
            to: high,
        });
    }
    Some(Window {
        from: low,
        to: w.to,
    })
}

// The same with no window.
fn all_good_anew(file: &[u8], from: usize, to: usize) -> Option<Window>
    requires { (from ≤ to) × (to ≤ length file.now) }
    ensures { Answered file.now (all_good file.now from to) result }
{
    let low = good_from(file, from, to);
    if from < low {
        return None;
    }
    Some(Window { from: low, to })
}

// The codes of `width` symbols of `b` bits from `at` on are allowed. Two codes of 4 bits fill a byte; of an
// odd width the second code of the last byte is none.
pub fn codes_allowed(file: &[u8], b: u32, width: u32, at: usize, w: Window) -> Option<Window>
    requires { Known file.now w × Data file.now b width at }
    ensures { Answered file.now (codes_allowed file.now b width at) result }
{
    if b != 4 {
        return Some(w);
    }
    let last = at + width as usize / 2;
    let seen = all_good(file, w, at, last)?;
    if width % 2 == 0 {
        return Some(seen);
    }
    let byte = file[last];
    let code = byte / 16 % 16;
    if code <= 8 {
        return Some(seen);
    }
    None
}
