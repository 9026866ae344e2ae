// One change: how many bytes it takes, and its bytes.
ghost use Rattle.std.specs.Prelude.{◌≡◌, ◌+◌, ◌≤◌, ◌<◌, length, ltb, if◌then◌else◌};
ghost use Rattle.lxt_format.specs.Buffers.{placed};
ghost use Rattle.lxt_format.specs.Changes.{symbol_size, packed_size};
ghost use Rattle.lxt_format.specs.declared.Kind.TheVariants.{Bits, Integer, Real, Text};
ghost use Rattle.lxt_written.specs.WrittenChanges.{code_of, fewest_bytes, packed_symbols};
ghost use Rattle.lxt_pack.specs.Change.{WidthFor, change_size, AtMost, Sizes, head_of, Scales, HeadAsked, Held, Sound, Puts};

use crate::{put, symbols};
use lxt_format::Kind;

// ---- how many bytes

// The bytes that a delta takes, counted without a branch.
fn delta_size(delta: u32) -> usize
    ensures { (result ≡ fewest_bytes delta) × (1 ≤ result) × (result ≤ 4) }
{
    1 + usize::from(0xFF < delta) + usize::from(0xFFFF < delta) + usize::from(0xFF_FFFF < delta)
}

// The bits of a symbol under a command.
fn symbol_size(command: u8) -> usize
    ensures { (result ≡ symbol_size command) × (result ≤ 4) }
{
    match command {
        0 => 1,
        1 => 2,
        2 => 4,
        _ => 0,
    }
}

// The bytes of `width` symbols of b bits.
fn packed_size(b: usize, width: usize) -> usize
    requires { (b ≤ 4) × (width ≤ 4096) }
    ensures { (result ≡ packed_size b width) × (result ≤ 2048) }
{
    (b * width + 7) / 8
}

// The bytes of the data of one symbol: none.
fn size_of_one(symbol: u8) -> Option<usize>
    ensures { (result ≡ (if ltb (code_of symbol) 9 then Some 0 else None)) × AtMost 4294967296 result }
{
    if symbols::is_symbol(symbol) {
        return Some(0);
    }
    None
}

// Past so many symbols it pays to look first whether all are 0 and 1.
const MANY: usize = 64;

// The bytes of the data of symbols, of which there are to be `width`.
fn bits_size(width: u64, value: &[u8]) -> Option<usize>
    requires { (length value.now < 4294967296) × (1 ≤ width) × (width ≤ 4096) }
    ensures { Sizes Bits width value.now result }
{
    let size = value.len();
    if size as u64 != width {
        return None;
    }
    if size == 1 {
        return size_of_one(value[0]);
    }
    if MANY < size {
        let seen = symbols::look(value);
        if seen.bits {
            return Some(packed_size(usize::from(!seen.same), size));
        }
    }
    let seen = symbols::look_in_detail(value);
    if !seen.nine {
        return None;
    }
    let b = (1 + usize::from(!seen.bits) + 2 * usize::from(!seen.four)) * usize::from(!seen.same);
    Some(packed_size(b, size))
}

// The bytes of the data of an integer: 32 symbols 0 or 1.
fn integer_size(value: &[u8]) -> Option<usize>
    requires { length value.now < 4294967296 }
    ensures { Sizes Integer 32 value.now result }
{
    if value.len() != 32 {
        return None;
    }
    let seen = symbols::look(value);
    if seen.bits {
        if seen.same {
            return Some(0);
        }
        return Some(4);
    }
    None
}

fn real_size(value: &[u8]) -> Option<usize>
    requires { length value.now < 4294967296 }
    ensures { Sizes Real 0 value.now result }
{
    if value.len() == 8 {
        return Some(8);
    }
    None
}

fn text_size(value: &[u8]) -> Option<usize>
    requires { length value.now < 4294967296 }
    ensures { Sizes Text 0 value.now result }
{
    if !value.contains(&0) {
        return Some(value.len() + 1);
    }
    None
}

// The bytes of a value's data, where the value is one of the kind and width.
fn data_size(kind: Kind, width: u64, value: &[u8]) -> Option<usize>
    requires { (length value.now < 4294967296) × WidthFor kind width }
    ensures { Sizes kind width value.now result }
{
    match kind {
        Kind::Bits => bits_size(width, value),
        Kind::Integer => integer_size(value),
        Kind::Real => real_size(value),
        Kind::Text => text_size(value),
    }
}

// The bytes of a change, where its value is one of the kind and width.
pub fn size_of(kind: Kind, width: u64, value: &[u8], delta: u32) -> Option<usize>
    requires { (length value.now < 4294967296) × WidthFor kind width }
    ensures { (result ≡ change_size kind width delta value.now) × AtMost 4294967301 result }
{
    let size = data_size(kind, width, value)?;
    Some(1 + delta_size(delta) + size)
}

// ---- its bytes

// What brings a delta of k bytes to the top of 3.
fn scale_of(k: usize) -> u32
    requires { (1 ≤ k) × (k ≤ 3) }
    ensures { Scales k result }
{
    match k {
        1 => 0x1_0000,
        2 => 0x100,
        _ => 1,
    }
}

// The command byte and the delta, and where the data goes. Bytes that the delta does not take are stored as they
// were, so that nothing depends on how many it takes.
fn put_head(command: u8, delta: u32, out: &mut [u8], at: usize) -> usize
    requires { HeadAsked command delta out.old at }
    ensures out_after { out.new ≡ placed out.old at (head_of command delta) }
    ensures value { result ≡ at + (1 + fewest_bytes delta) }
{
    let k = delta_size(delta);
    let bytes = delta * scale_of(k);
    let second = out[at + 2];
    let third = out[at + 3];
    out[at] = (16 * (k - 1)) as u8 + command;
    out[at + 1] = (bytes / 0x1_0000) as u8;
    out[at + 2] = if 1 < k {
        (bytes / 0x100 % 0x100) as u8
    } else {
        second
    };
    out[at + 3] = if 2 < k { (bytes % 0x100) as u8 } else { third };
    at + (1 + k)
}

// Symbols under a command that holds them, and where they end.
fn put_symbols(value: &[u8], command: u8, out: &mut [u8], at: usize) -> usize
    requires { Held value.now command out.old at }
    ensures out_after { out.new ≡ placed out.old at (packed_symbols command value.now) }
    ensures value { result ≡ at + packed_size (symbol_size command) (length value.now) }
{
    let b = symbol_size(command);
    if b == 0 {
        return at;
    }
    symbols::pack(value, b, out, at);
    at + packed_size(b, value.len())
}

// A change of symbols, and where it ends.
fn put_bits(value: &[u8], delta: u32, out: &mut [u8], at: usize) -> usize
    requires { Sound Bits value.now delta out.old at }
    ensures { Puts Bits value.now delta out.old at out.new result }
{
    let command = symbols::command_of_symbols(value);
    let data = put_head(command, delta, out, at);
    put_symbols(value, command, out, data)
}

// A real, whose bytes are given lowest first.
fn put_real(value: &[u8], delta: u32, out: &mut [u8], at: usize) -> usize
    requires { Sound Real value.now delta out.old at }
    ensures { Puts Real value.now delta out.old at out.new result }
{
    let data = put_head(0, delta, out, at);
    put::copy(out, data, value);
    data + value.len()
}

// A text, and the zero that ends it.
fn put_text(value: &[u8], delta: u32, out: &mut [u8], at: usize) -> usize
    requires { Sound Text value.now delta out.old at }
    ensures { Puts Text value.now delta out.old at out.new result }
{
    let data = put_head(0, delta, out, at);
    put::copy(out, data, value);
    put::number::<1>(out, data + value.len(), 0);
    data + value.len() + 1
}

// A change, and where it ends. An integer is put as its symbols.
pub fn put(kind: Kind, value: &[u8], delta: u32, out: &mut [u8], at: usize) -> usize
    requires { Sound kind value.now delta out.old at }
    ensures { Puts kind value.now delta out.old at out.new result }
{
    match kind {
        Kind::Bits | Kind::Integer => put_bits(value, delta, out, at),
        Kind::Real => put_real(value, delta, out, at),
        Kind::Text => put_text(value, delta, out, at),
    }
}
