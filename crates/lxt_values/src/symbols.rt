// The symbols of a change, written as ASCII into a lent buffer.
ghost use Rattle.std.specs.Prelude.{◌≡◌, ◌++◌, ◌+◌, ◌*◌, ◌≤◌, ◌<◌, ◌/◌, length, take, drop, replicate};
ghost use Rattle.lxt_format.specs.Buffers.{placed};
ghost use Rattle.lxt_format.specs.Bytes.{byte_at, little_endian};
ghost use Rattle.lxt_format.specs.UnpackLaws.{Size};
ghost use Rattle.lxt_format.specs.Values.{symbol_of, symbols_at};
ghost use Rattle.lxt_values.specs.Steps.{symbols_of_byte, after_steps};
ghost use Rattle.lxt_values.specs.Symbols.{Packed, Drawn, StepAsked};

use lxt_changes::delta;

// The symbols of the codes 0 to 8 in one number, 7 bits each, the first lowest. An array would be built anew at each use.
const SYMBOLS: u64 = b'0' as u64
    + b'1' as u64 * 0x80
    + b'Z' as u64 * 0x4000
    + b'X' as u64 * 0x20_0000
    + b'H' as u64 * 0x1000_0000
    + b'U' as u64 * 0x8_0000_0000
    + b'W' as u64 * 0x400_0000_0000
    + b'L' as u64 * 0x2_0000_0000_0000
    + b'-' as u64 * 0x100_0000_0000_0000;

// The symbol of a code, in ASCII; 0 where it has none.
pub fn symbol_of(code: u8) -> u8
    ensures { result ≡ symbol_of code }
{
    if 8 < code {
        return 0;
    }
    ((SYMBOLS >> (7 * code)) % 128) as u8
}

// One symbol at each of the first `width` places.
pub fn fill(width: u32, symbol: u8, bits: &mut [u8])
    requires { width ≤ length bits.old }
    ensures { bits.new ≡ replicate width symbol ++ drop width bits.old }
{
    bits[..width as usize].fill(symbol);
}

// ---- the symbols of a byte in one number, the first in its lowest byte

// 8 codes of 1 bit. The product has the byte at each of 8 places, of which each keeps its own bit. Where that is
// not 0, 127 more reach the place's highest bit, which is taken down to the lowest.
fn eight_of(byte: u8) -> u64
    ensures { little_endian 8 result ≡ symbols_of_byte 1 byte }
{
    let own = (u64::from(byte) * 0x0101_0101_0101_0101) & 0x0102_0408_1020_4080;
    let codes = ((own + 0x7F7F_7F7F_7F7F_7F7F) / 128) & 0x0101_0101_0101_0101;
    codes + 0x3030_3030_3030_3030
}

// 4 codes of 2 bits, which the product has 10 bits apart. Z is 42 above 0, and X is 3 below what both bits of its
// code come to.
fn four_of(byte: u8) -> u64
    ensures { little_endian 4 result ≡ symbols_of_byte 2 byte }
{
    let codes = (u64::from(byte) * 0x4010_0401 / 64) & 0x0303_0303;
    let low = codes & 0x0101_0101;
    let high = (codes / 2) & 0x0101_0101;
    0x3030_3030 + low + high * 42 - (low & high) * 3
}

// 2 codes of 4 bits.
fn two_of(byte: u8) -> u64
    ensures { little_endian 2 result ≡ symbols_of_byte 4 byte }
{
    u64::from(symbol_of(byte / 16)) + u64::from(symbol_of(byte % 16)) * 256
}

// 8 / b codes of b bits.
fn symbols_in(byte: u8, b: usize) -> u64
    requires { Size b }
    ensures { little_endian (8 / b) result ≡ symbols_of_byte b byte }
{
    match b {
        1 => eight_of(byte),
        2 => four_of(byte),
        _ => two_of(byte),
    }
}

// ---- unpacking, a byte at a time

// The lowest `count` bytes of a number, put at a place.
fn put(word: u64, count: usize, bits: &mut [u8], place: usize)
    requires { place + count ≤ length bits.old }
    ensures { bits.new ≡ placed bits.old place (little_endian count word) }
{
    let mut rest = word;
    for j in 0..count {
        bits[place + j] = (rest % 256) as u8;
        rest /= 256;
    }
}

// Step k: one data byte is read, and the first `count` of its symbols are written.
fn step(file: &[u8], at: usize, b: usize, k: usize, count: usize, bits: &mut [u8])
    requires { StepAsked file.now at b k count (length bits.old) }
    ensures { bits.new ≡ placed bits.old (8 / b * k) (take count (symbols_of_byte b (byte_at file.now (at + k)))) }
{
    put(symbols_in(file[at + k], b), count, bits, 8 / b * k);
}

// The symbols of `width` codes of b bits from `at` on, a data byte a step; the last step may have fewer. Answers how
// many steps it took: for 1 bit (width + 7) / 8.
fn unpack(file: &[u8], at: usize, b: usize, width: usize, bits: &mut [u8]) -> usize
    requires { Packed file.now b width at × (width ≤ length bits.old) }
    ensures { (result ≡ (b * width + 7) / 8) × (bits.new ≡ after_steps file.now b width at result bits.old) }
{
    let places = 8 / b;
    let whole = width / places;
    // the loop's own count, and not the number of turns that is asked for
    let mut steps: usize = 0;
    for _k in 0..whole {
        step(file, at, b, steps, places, bits);
        steps += 1;
    }
    let left = width - places * steps;
    if left == 0 {
        return steps;
    }
    step(file, at, b, steps, left, bits);
    steps + 1
}

// The symbols of the change at `o`, at the first `width` places; what stands after them stays.
pub fn write(file: &[u8], width: u32, o: usize, bits: &mut [u8])
    requires { Drawn file.now width o × (width ≤ length bits.old) }
    ensures { bits.new ≡ symbols_at file.now width o ++ drop width bits.old }
{
    let at = delta::data_at(file, o);
    match file[o] % 16 {
        0 => {
            unpack(file, at, 1, width as usize, bits);
        }
        1 => {
            unpack(file, at, 2, width as usize, bits);
        }
        2 => {
            unpack(file, at, 4, width as usize, bits);
        }
        command => fill(width, symbol_of(command - 3), bits),
    }
}
