// The symbols of a value: their codes, the command that holds them, and their packing.
ghost use Rattle.std.specs.Prelude.{◌≡◌, true, drop, map, ◌+◌, ◌≤◌, ◌<◌, ◌/◌, ◌^◌, length, get_or, ltb, if◌then◌else◌};
ghost use Rattle.std.proofs.Math.Seq.{slice};
ghost use Rattle.lxt_format.specs.Basics.{all};
ghost use Rattle.lxt_format.specs.Buffers.{placed};
ghost use Rattle.lxt_format.specs.Changes.{packed_size};
ghost use Rattle.lxt_format.specs.UnpackLaws.{Size};
ghost use Rattle.lxt_format.specs.declared.Kind.TheVariants.{Bits};
ghost use Rattle.lxt_written.specs.WrittenChanges.{code_of, command_for, packed_codes, pack};
ghost use Rattle.lxt_written.specs.Writing.{is_symbol};
ghost use Rattle.lxt_pack.specs.Symbols.{all_below, same_all, Classed, Coded, Symbols, Whole, Holding, Packing};

// ---- one symbol

// The byte is 0 or 1; 0, 1, Z or X; one of the nine symbols.
fn is_bit(symbol: u8) -> bool
    ensures { result ≡ ltb (code_of symbol) 2 }
{
    (symbol == b'0') | (symbol == b'1')
}

fn is_one_of_four(symbol: u8) -> bool
    ensures { result ≡ ltb (code_of symbol) 4 }
{
    is_bit(symbol) | ((symbol == b'Z') | (symbol == b'X'))
}

pub fn is_symbol(symbol: u8) -> bool
    ensures { result ≡ ltb (code_of symbol) 9 }
{
    (is_one_of_four(symbol) | ((symbol == b'H') | (symbol == b'L')))
        | (((symbol == b'U') | (symbol == b'W')) | (symbol == b'-'))
}

// The code of 0, 1, Z or X.
fn code_of_four(symbol: u8) -> u8
    ensures { Coded symbol 4 result × (result < 4) }
{
    (u32::from(symbol) * 107 / 64 % 4) as u8
}

// The code of any symbol. A loop over it is made wide by the compiler.
fn code_of(symbol: u8) -> u8
    ensures { Coded symbol 9 result × (result < 16) }
{
    let of_four = u8::from(symbol == b'1')
        + 2 * u8::from(symbol == b'Z')
        + 3 * u8::from(symbol == b'X');
    let of_hu = 4 * u8::from(symbol == b'H') + 5 * u8::from(symbol == b'U');
    let of_wl = 6 * u8::from(symbol == b'W') + 7 * u8::from(symbol == b'L');
    of_four + of_hu + of_wl + 8 * u8::from(symbol == b'-')
}

// ---- the command

// All symbols are the first; all are 0 or 1.
#[derive(Clone, Copy)]
pub struct Seen {
    pub same: bool,
    pub bits: bool,
}

// By the lowest and the highest of the symbols, which the compiler finds many at a time.
pub fn look(value: &[u8]) -> Seen
    requires { 0 < length value.now }
    ensures { (result.same ≡ same_all value.now) × (result.bits ≡ all_below 2 value.now) }
{
    let mut low = value[0];
    let mut high = value[0];
    for symbol in value {
        low = low.min(*symbol);
        high = high.max(*symbol);
    }
    let same = low == high;
    let bits = is_bit(low) & is_bit(high);
    Seen { same, bits }
}

// 0 of 0, 1, Z and X, 1 of the other symbols, 2 of a byte that is none.
fn class_of(symbol: u8) -> u8
    ensures { Classed symbol result }
{
    u8::from(!is_one_of_four(symbol)) + u8::from(!is_symbol(symbol))
}

// All symbols are the first; all are 0 or 1; all are 0, 1, Z or X; all are symbols.
#[derive(Clone, Copy)]
pub struct Detail {
    pub same: bool,
    pub bits: bool,
    pub four: bool,
    pub nine: bool,
}

// All at once, so that what follows needs no branch that depends on the symbols.
pub fn look_in_detail(value: &[u8]) -> Detail
    requires { 0 < length value.now }
    ensures same_value { (result.same ≡ same_all value.now) × (result.bits ≡ all_below 2 value.now) }
    ensures four_value { (result.four ≡ all_below 4 value.now) × (result.nine ≡ all_below 9 value.now) }
{
    let mut low = value[0];
    let mut high = value[0];
    let mut class: u8 = 0;
    for symbol in value {
        low = low.min(*symbol);
        high = high.max(*symbol);
        class = class.max(class_of(*symbol));
    }
    Detail {
        same: low == high,
        bits: is_bit(low) & is_bit(high),
        four: class < 1,
        nine: class < 2,
    }
}

fn all_of_four(value: &[u8]) -> bool
    requires { 0 < length value.now }
    ensures { result ≡ all_below 4 value.now }
{
    let mut four = true;
    for symbol in value {
        four = four & is_one_of_four(*symbol);
    }
    four
}

// The command that holds symbols in the fewest bytes.
pub fn command_of_symbols(value: &[u8]) -> u8
    requires { (0 < length value.now) × (all is_symbol value.now ≡ true) }
    ensures { result ≡ command_for Bits value.now }
{
    let seen = look(value);
    if seen.same {
        return 3 + code_of(value[0]);
    }
    if seen.bits {
        return 0;
    }
    if all_of_four(value) {
        return 1;
    }
    2
}

// ---- packing, the first symbol highest

// The 4 bits of 4 symbols that are 0 or 1. They stand at 24, 16, 8 and 0 in `bits`; the product has each of them
// at 27, 26, 25 and 24 once, and nothing else there.
fn nibble(values: &[u8], at: usize) -> u8
    requires { Whole values.now 1 4 at }
    ensures { (result ≡ packed_codes 1 4 (map code_of (slice at (at + 4) values.now))) × (result < 16) }
{
    let high = u32::from(values[at]) * 0x100_0000 + u32::from(values[at + 1]) * 0x1_0000;
    let low = u32::from(values[at + 2]) * 0x100 + u32::from(values[at + 3]);
    let bits = high + low - 0x3030_3030;
    (u64::from(bits) * 0x0102_0408 / 0x100_0000 % 16) as u8
}

// The byte of 8 codes of 1 bit.
fn eight(values: &[u8], at: usize) -> u8
    requires { Whole values.now 1 8 at }
    ensures { result ≡ packed_codes 1 8 (map code_of (slice at (at + 8) values.now)) }
{
    nibble(values, at) * 16 + nibble(values, at + 4)
}

// The byte of 4 codes of 2 bits.
fn four(values: &[u8], at: usize) -> u8
    requires { Whole values.now 2 4 at }
    ensures { result ≡ packed_codes 2 4 (map code_of (slice at (at + 4) values.now)) }
{
    let a = code_of_four(values[at]) * 64 + code_of_four(values[at + 1]) * 16;
    let b = code_of_four(values[at + 2]) * 4 + code_of_four(values[at + 3]);
    a + b
}

// The byte of 2 codes of 4 bits.
fn two(values: &[u8], at: usize) -> u8
    requires { Whole values.now 4 2 at }
    ensures { result ≡ packed_codes 4 2 (map code_of (slice at (at + 2) values.now)) }
{
    code_of(values[at]) * 16 + code_of(values[at + 1])
}

// The code k, and 0 past the last.
fn digit(value: &[u8], k: usize) -> u8
    requires { Symbols value.now 0 (length value.now) }
    ensures { result ≡ get_or (map code_of (drop k value.now)) 0 0 }
{
    if k < value.len() {
        return code_of(value[k]);
    }
    0
}

// The last byte, which these codes do not fill; the unused bits are 0.
fn rest(value: &[u8], b: usize) -> u8
    requires { Holding value.now b 0 (length value.now) }
    ensures { result ≡ packed_codes b (8 / b) (map code_of value.now) }
{
    let base = 1 << b;
    let mut sum: u32 = 0;
    for k in 0..8 / b {
        sum = sum * base + u32::from(digit(value, k));
    }
    sum as u8
}

// The byte of 8 / B codes of B bits.
fn whole<const B: usize>(values: &[u8], at: usize) -> u8
    requires { Size B × Whole values.now B (8 / B) at }
    ensures { result ≡ packed_codes B (8 / B) (map code_of (slice at (at + 8 / B) values.now)) }
{
    match B {
        1 => eight(values, at),
        2 => four(values, at),
        _ => two(values, at),
    }
}

// Codes of B bits, as many to a byte as it holds.
fn pack_codes<const B: usize>(value: &[u8], out: &mut [u8], at: usize)
    requires { Packing value.now B out.old at }
    ensures { out.new ≡ placed out.old at (pack B (packed_size B (length value.now)) (map code_of value.now)) }
{
    let places = 8 / B;
    let count = value.len() / places;
    for j in 0..count {
        out[at + j] = whole::<B>(value, places * j);
    }
    let p = places * count;
    if p < value.len() {
        out[at + count] = rest(&value[p..], B);
    }
}

// The codes of a value, b bits each, put at `at`.
pub fn pack(value: &[u8], b: usize, out: &mut [u8], at: usize)
    requires { Packing value.now b out.old at }
    ensures { out.new ≡ placed out.old at (pack b (packed_size b (length value.now)) (map code_of value.now)) }
{
    match b {
        1 => pack_codes::<1>(value, out, at),
        2 => pack_codes::<2>(value, out, at),
        _ => pack_codes::<4>(value, out, at),
    }
}
