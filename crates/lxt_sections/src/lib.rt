// Big-endian reads, the frame and the section list of a trace: refusals 1 to 9.
#![tactic(auto)]

ghost use Rattle.std.specs.Prelude.{◌≡◌, true, false, not, ◌&&◌, ◌||◌, ◌+◌, ◌*◌, ◌≤◌, ◌<◌, eqb, length, get_or, set, replicate};
ghost use Rattle.std.specs.List.{list_any};
ghost use Rattle.lxt_format.specs.Bytes.{number_at, u16_at, u32_at};
ghost use Rattle.lxt_format.specs.Basics.{range, any};
ghost use Rattle.lxt_format.specs.Sections.{starts_right, ends_right, inside};
ghost use Rattle.lxt_format.specs.Basics.{answer};
ghost use Rattle.lxt_format.specs.Answers.{says};
ghost use Rattle.lxt_sections.specs.Stage.{frame_refusal, listed_of, placed_by, places_of, table_in, Ready, all_inside, counted_refusal, sections_of, located};

use lxt_format::{File, Refusal, SectionCursor, Summary};

pub mod times;
pub mod zeros;

// The number in the two bytes from `at` on.
pub fn be16(file: &[u8], at: usize) -> u32
    requires { at + 2 ≤ length file.now }
    ensures { (result ≡ u16_at file.now at) × (result < 65536) }
{
    u32::from(u16::from_be_bytes([file[at], file[at + 1]]))
}

// The number in the four bytes from `at` on.
pub fn be32(file: &[u8], at: usize) -> u32
    requires { at + 4 ≤ length file.now }
    ensures { result ≡ u32_at file.now at }
{
    u32::from_be_bytes([file[at], file[at + 1], file[at + 2], file[at + 3]])
}

// The number in the eight bytes from `at` on.
pub fn be64(file: &[u8], at: usize) -> u64
    requires { at + 8 ≤ length file.now }
    ensures { result ≡ number_at 8 file.now at }
{
    u64::from_be_bytes([
        file[at],
        file[at + 1],
        file[at + 2],
        file[at + 3],
        file[at + 4],
        file[at + 5],
        file[at + 6],
        file[at + 7],
    ])
}

fn starts_right(file: &[u8]) -> bool
    requires { 6 ≤ length file.now }
    ensures { result ≡ starts_right file.now }
{
    (file[0] == 0x01) & (file[1] == 0x38) & (be16(file, 2) <= 4)
}

fn ends_right(file: &[u8]) -> bool
    requires { 6 ≤ length file.now }
    ensures { result ≡ ends_right file.now }
{
    file[file.len() - 1] == 0xb4
}

// Refusals 1 to 3.
fn frame(file: &[u8]) -> Result<(), Refusal>
    ensures { says result ≡ answer (frame_refusal file.now) tt }
{
    if !(File { length: file.len() }).length_is_allowed() {
        return Err(Refusal::Length);
    }
    if !starts_right(file) {
        return Err(Refusal::Header);
    }
    if !ends_right(file) {
        return Err(Refusal::LastByte);
    }
    Ok(())
}

// How many tags there are, from 00 to 14 hex.
const TAGS: usize = 21;

// The section list: the counting value of each tag, and END's offset.
#[derive(Clone, Copy)]
pub struct Listing {
    pub table: [u32; TAGS],
    pub end: usize,
}

// Puts the value of a tag into the table; a tag above them is skipped.
fn put(table: &mut [u32; TAGS], tag: usize, value: u32)
    ensures { table.new ≡ set table.old tag value }
{
    if tag < TAGS {
        table[tag] = value;
    }
}

// Reads the section list towards the front, up to the first END; without one there is no list. A value that is
// met later takes the place of one met before.
fn list(file: &[u8]) -> Option<Listing>
    ensures { result ≡ listed_of file.now }
{
    let mut met = [0u32; TAGS];
    let mut p = SectionCursor::fresh(file.len()).at;
    let table = 'items: loop {
        if p < SectionCursor::FIRST {
            return None;
        }
        let tag = usize::from(file[p]);
        if tag == 0 {
            break 'items met;
        }
        if p < SectionCursor::FIRST + 4 {
            return None;
        }
        put(&mut met, tag, be32(file, p - 4));
        p -= SectionCursor::ITEM;
    };
    Some(Listing { table, end: p })
}

// What the section list says, by name: C, where each section starts (0 where it is absent), whether a
// compressed section is there, and T. `excluded` is tag 13, a table of excluded times; `time_zero` is tag 14,
// an offset of all times.
#[derive(Clone, Copy)]
pub struct Places {
    pub compressed: bool,
    pub end: usize,
    pub changes: u32,
    pub sync: u32,
    pub names: u32,
    pub geometry: u32,
    pub timescale: u32,
    pub times: u32,
    pub initial: u32,
    pub real_test: u32,
    pub wide_times: u32,
    pub excluded: u32,
    pub time_zero: u32,
}

fn any_counts(values: &[u32]) -> bool
    ensures { result ≡ list_any (λ v. not (eqb v 0)) values.now }
{
    values.iter().any(|v| *v != 0)
}

// One of the tags 0A to 12 counts.
fn any_compressed(t: [u32; TAGS]) -> bool
    ensures { result ≡ any (λ tag. not (eqb (get_or t tag 0) 0)) (range 0x0A 9) }
{
    any_counts(&t[0x0A..0x13])
}

fn placed(l: Listing) -> Places
    ensures { result ≡ placed_by l }
{
    let t = l.table;
    Places {
        compressed: any_compressed(t),
        end: l.end,
        changes: t[1],
        sync: t[2],
        names: t[3],
        geometry: t[4],
        timescale: t[5],
        times: t[6],
        initial: t[7],
        real_test: t[8],
        wide_times: t[9],
        excluded: t[19],
        time_zero: t[20],
    }
}

// The four sections that every trace has are there, and times.
fn all_present(p: Places) -> bool
    ensures { result ≡ ((not (eqb p.changes 0) && (not (eqb p.sync 0) && (not (eqb p.names 0) && (not (eqb p.geometry 0) && true)))) && (not (eqb p.times 0) || not (eqb p.wide_times 0))) }
{
    ((p.changes != 0) & ((p.sync != 0) & ((p.names != 0) & ((p.geometry != 0) & true))))
        & ((p.times != 0) | (p.wide_times != 0))
}

// Where the table of times starts: that of tag 09 where it is there, else that of tag 06.
fn table_of(p: Places) -> u32
    ensures { result ≡ table_in p }
{
    if p.wide_times != 0 {
        return p.wide_times;
    }
    p.times
}

// `size` bytes from `start` on lie between offset 4 and `end`.
pub fn lies(end: usize, start: u32, size: usize) -> bool
    requires { size < 1099511627776 }
    ensures { result ≡ inside end start size }
{
    4 <= start && start as usize + size <= end
}

// A section is absent, or its body lies inside.
fn body(end: usize, start: u32, size: usize) -> bool
    requires { size < 1099511627776 }
    ensures { result ≡ (not (not (eqb start 0)) || inside end start size) }
{
    start == 0 || lies(end, start, size)
}

// All bodies lie inside, with `n` facilities and times of `size` bytes, and C is from 4 to T.
fn all_inside(p: Places, n: u32, size: usize) -> bool
    requires { size < 1099511627776 }
    ensures { result ≡ all_inside p n size }
{
    body(p.end, p.sync, 4 * (n as usize))
        & body(p.end, p.names, 8)
        & body(p.end, p.geometry, 16 * (n as usize))
        & body(p.end, p.timescale, 1)
        & body(p.end, p.times, size)
        & body(p.end, p.initial, 1)
        & body(p.end, p.wide_times, size)
        & lies(p.end, p.changes, 0)
}

// The sections of a file that refusals 1 to 9 pass: n, m, C, T, where each section starts (0 where it is
// absent) and whether its times have 8 bytes.
#[derive(Clone, Copy)]
pub struct Sections {
    pub wide_times: bool,
    pub facilities: u32,
    pub time_count: u32,
    pub end: usize,
    pub changes: u32,
    pub sync: u32,
    pub names: u32,
    pub geometry: u32,
    pub timescale: u32,
    pub times: u32,
    pub initial: u32,
    pub real_test: u32,
    pub excluded: u32,
    pub time_zero: u32,
}

// Refusals 8 and 9, once 1 to 7 have passed. The head of a table is tested before its count is read.
fn counted(file: &[u8], p: Places) -> Result<Sections, Refusal>
    requires { Ready file.now p }
    ensures { says result ≡ answer (counted_refusal file.now) (sections_of file.now) }
{
    if !lies(p.end, p.names, 8) {
        return Err(Refusal::SectionOutside);
    }
    let wide_times = p.wide_times != 0;
    let times = table_of(p);
    if !lies(p.end, times, times::size(wide_times, 0)) {
        return Err(Refusal::SectionOutside);
    }
    let facilities = be32(file, p.names as usize);
    let time_count = be32(file, times as usize);
    if !all_inside(p, facilities, times::size(wide_times, time_count)) {
        return Err(Refusal::SectionOutside);
    }
    if !Summary::count_is_allowed(facilities) {
        return Err(Refusal::TooManyFacilities);
    }
    Ok(Sections {
        wide_times,
        facilities,
        time_count,
        end: p.end,
        changes: p.changes,
        sync: p.sync,
        names: p.names,
        geometry: p.geometry,
        timescale: p.timescale,
        times,
        initial: p.initial,
        real_test: p.real_test,
        excluded: p.excluded,
        time_zero: p.time_zero,
    })
}

// Refusals 1 to 9, or where everything lies.
pub fn locate(file: &[u8]) -> Result<Sections, Refusal>
    ensures { says result ≡ located file.now }
{
    frame(file)?;
    let Some(listing) = list(file) else {
        return Err(Refusal::SectionList);
    };
    let p = placed(listing);
    if p.compressed {
        return Err(Refusal::Compressed);
    }
    if (p.times != 0) & (p.wide_times != 0) {
        return Err(Refusal::TwoTimeTables);
    }
    if !all_present(p) {
        return Err(Refusal::SectionAbsent);
    }
    counted(file, p)
}
