// Where the parts of a written file stand, and the parts that are no table of rows: the header, the heads of
// the names and of the times, the sections of one value, END, the section list and the last byte.
#![tactic(auto)]

ghost use Rattle.std.specs.Prelude.{◌≡◌, [], ◌∷◌, ◌+◌, ◌*◌, ◌≤◌, ◌<◌, length, if◌then◌else◌};
ghost use Rattle.lxt_format.specs.Buffers.{placed};
ghost use Rattle.lxt_format.specs.Reals.{test_pattern};
ghost use Rattle.lxt_format.specs.Sections.{timescale_allowed};
ghost use Rattle.lxt_written.specs.WrittenFile.{header, words, signed_byte};
ghost use Rattle.lxt_layout.specs.Layout.{Bounded, PlacesFor, Below, items_from, values_section, item_values, tail_of};

use lxt_pack::put;

// What the places depend on: the number of facilities, the bytes of all names, the offset after the last
// change, the entries of the time table, and whether a facility is a real.
#[derive(Clone, Copy)]
pub struct Sizes {
    pub facilities: usize,
    pub names: usize,
    pub changes: usize,
    pub entries: usize,
    pub real: bool,
}

// Where the sections start, END, and the length of the file.
#[derive(Clone, Copy)]
pub struct Places {
    pub names: usize,
    pub geometry: usize,
    pub sync: usize,
    pub times: usize,
    pub timescale: usize,
    pub end: usize,
    pub length: usize,
}

// The bytes of the real test, where there is one, and of END, the section list and the last byte.
fn test_size(real: bool) -> usize
    ensures { (result ≡ (if real then 8 else 0)) × (result ≤ 8) }
{
    if real { 8 } else { 0 }
}

fn tail_size(real: bool) -> usize
    ensures { (result ≡ (if real then 42 else 37)) × (result ≤ 42) }
{
    if real { 42 } else { 37 }
}

pub fn placed_by(sizes: Sizes) -> Places
    requires { Bounded sizes }
    ensures { PlacesFor sizes result }
{
    let names = sizes.changes;
    let geometry = names + 8 + sizes.names;
    let sync = geometry + 16 * sizes.facilities;
    let times = sync + 4 * sizes.facilities;
    let timescale = times + 12 + 8 * sizes.entries;
    let end = timescale + 2 + test_size(sizes.real);
    let length = end + tail_size(sizes.real);
    Places {
        names,
        geometry,
        sync,
        times,
        timescale,
        end,
        length,
    }
}

// ---- the parts

// "01 38; then a 16-bit version", here 4.
pub fn put_header(out: &mut [u8])
    requires { 4 ≤ length out.old }
    ensures { out.new ≡ placed out.old 0 header }
{
    put::number::<4>(out, 0, 0x0138_0004);
}

// The head of the names: count and memory.
pub fn put_names_head(out: &mut [u8], at: usize, count: u32, memory: u32)
    requires { at + 8 ≤ length out.old }
    ensures { out.new ≡ placed out.old at (words (count ∷ memory ∷ [])) }
{
    put::number::<4>(out, at, count);
    put::number::<4>(out, at + 4, memory);
}

// The head of the times: count, first and last.
pub fn put_times_head(out: &mut [u8], at: usize, count: u32, first: u32, last: u32)
    requires { at + 12 ≤ length out.old }
    ensures { out.new ≡ placed out.old at (words (count ∷ first ∷ last ∷ [])) }
{
    put::number::<4>(out, at, count);
    put::number::<4>(out, at + 4, first);
    put::number::<4>(out, at + 8, last);
}

// "timescale outside -21 to 2" is not allowed.
pub fn timescale_is_allowed(timescale: i8) -> bool
    ensures { result ≡ timescale_allowed timescale }
{
    (-21 <= timescale) & (timescale <= 2)
}

// The real test.
fn put_test(out: &mut [u8], at: usize)
    requires { at + 8 ≤ length out.old }
    ensures { out.new ≡ placed out.old at test_pattern }
{
    put::number::<4>(out, at, 0x6E86_1BF0);
    put::number::<4>(out, at + 4, 0xF921_0940);
}

// The timescale and the initial symbol.
fn put_pair(out: &mut [u8], at: usize, timescale: i8, initial: u8)
    requires { at + 2 ≤ length out.old }
    ensures { out.new ≡ placed out.old at (signed_byte timescale ∷ initial ∷ []) }
{
    out[at] = timescale.cast_unsigned();
    out[at + 1] = initial;
}

// The timescale, the initial symbol, and where a facility is a real the real test.
pub fn put_values(out: &mut [u8], at: usize, timescale: i8, initial: u8, real: bool)
    requires { at + 2 + (if real then 8 else 0) ≤ length out.old }
    ensures { out.new ≡ placed out.old at (values_section timescale initial real) }
{
    put_pair(out, at, timescale, initial);
    if real {
        put_test(out, at + 2);
    }
}

// An item of the section list: a value of 4 bytes and its tag.
fn put_item(out: &mut [u8], at: usize, value: u32, tag: u32)
    requires { (at + 5 ≤ length out.old) × (tag < 256) }
    ensures { out.new ≡ placed out.old at (items_from tag (value ∷ [])) }
{
    put::number::<4>(out, at, value);
    put::number::<1>(out, at + 4, tag);
}

// Items of rising tags from 1 on.
fn put_items(out: &mut [u8], at: usize, values: &[u32])
    requires { (at + 5 * length values.now ≤ length out.old) × (length values.now ≤ 8) }
    ensures { out.new ≡ placed out.old at (items_from 1 values.now) }
{
    for (i, value) in values.iter().enumerate() {
        put_item(out, at + 5 * i, *value, i as u32 + 1);
    }
}

// How many items the section list has.
fn item_count(real: bool) -> usize
    ensures { (result ≡ (if real then 8 else 7)) × (result ≤ 8) }
{
    if real { 8 } else { 7 }
}

// The section list.
fn put_list(out: &mut [u8], at: usize, p: Places, real: bool)
    requires { (at + (if real then 40 else 35) ≤ length out.old) × (p.length < 4294967296) × Below p }
    ensures { out.new ≡ placed out.old at (items_from 1 (item_values p real)) }
{
    let values = [
        4,
        p.sync as u32,
        p.names as u32,
        p.geometry as u32,
        p.timescale as u32,
        p.times as u32,
        (p.timescale + 1) as u32,
        (p.timescale + 2) as u32,
    ];
    let count = item_count(real);
    put_items(out, at, &values[..count]);
}

// END, the section list and the last byte.
pub fn put_tail(out: &mut [u8], p: Places, real: bool)
    requires { (p.end + (if real then 42 else 37) ≤ length out.old) × (p.length < 4294967296) × Below p }
    ensures { out.new ≡ placed out.old p.end (tail_of p real) }
{
    let end = p.end;
    let last = end + 1 + 5 * item_count(real);
    put::number::<1>(out, end, 0);
    put_list(out, end + 1, p, real);
    put::number::<1>(out, last, 0xB4);
}
