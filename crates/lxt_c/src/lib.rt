// The exported C functions. Each returns 0 or the refusal's number and writes its answer through lent
// memory; where it is refused, nothing lent changes. include/lxt.h documents them for C.
#![tactic(auto)]

ghost use Rattle.std.specs.Prelude.{◌≡◌, length, [], Ok};
ghost use Rattle.lxt_format.specs.Judge.{judge};
ghost use Rattle.lxt_format.specs.Stray.{stray_asked};
ghost use Rattle.lxt_format.specs.Answers.{says, value_shown, text_says};
ghost use Rattle.lxt_format.specs.Questions.{facts_asked, root_asked, name_asked, name_buffer, before_asked, change_asked, change_buffer, value_asked, value_buffer, text_asked};
ghost use Rattle.lxt_c.specs.Numbers.{number_of, judge_numbers, judge_timescale, kind_number, facts_numbers, facts_msb, facts_lsb, one_number, shown_numbers, value_numbers, change_time, change_clean, lookup_visited, text_numbers};

use lxt_format::{Kind, Refusal, TextPlace, Value};
use lxt_reader::{changes, facilities, names, texts, values};

pub mod column;
pub mod walk;
pub mod write;

// n, C, T, the initial symbol's code and whether the padding of every change is 0; the timescale, which is
// signed, stands by itself.
#[unsafe(no_mangle)]
pub extern "C" fn lxt_judge(file: &[u8], answer: &mut [u32; 5], timescale: &mut i8) -> u32
    ensures value { result ≡ number_of (judge file.now) }
    ensures answer_after { answer.new ≡ judge_numbers (judge file.now) answer.old }
    ensures timescale_after { timescale.new ≡ judge_timescale (judge file.now) timescale.old }
{
    match lxt_reader::judge(file) {
        Ok(s) => {
            *answer = [
                s.facilities,
                s.changes,
                s.end,
                u32::from(s.initial),
                u32::from(s.clean),
            ];
            *timescale = s.timescale;
            0
        }
        Err(r) => u32::from(r.number()),
    }
}

// The width and the number of the kind (0 bits, 1 integer, 2 real, 3 text) of a facility, its msb and
// its lsb.
#[unsafe(no_mangle)]
pub extern "C" fn lxt_facts(
    file: &[u8],
    facility: u32,
    answer: &mut [u32; 2],
    msb: &mut i32,
    lsb: &mut i32,
) -> u32
    ensures value { result ≡ number_of (facts_asked file.now facility) }
    ensures answer_after { answer.new ≡ facts_numbers (facts_asked file.now facility) answer.old }
    ensures msb_after { msb.new ≡ facts_msb (facts_asked file.now facility) msb.old }
    ensures lsb_after { lsb.new ≡ facts_lsb (facts_asked file.now facility) lsb.old }
{
    match facilities::facts_of(file, facility) {
        Ok(facts) => {
            *answer = [facts.width, kind_number(facts.kind)];
            *msb = facts.msb;
            *lsb = facts.lsb;
            0
        }
        Err(r) => u32::from(r.number()),
    }
}

fn kind_number(kind: Kind) -> u32
    ensures { result ≡ kind_number kind }
{
    match kind {
        Kind::Bits => 0,
        Kind::Integer => 1,
        Kind::Real => 2,
        Kind::Text => 3,
    }
}

// An answer that is one number.
fn give<T: Copy>(a: Result<T, Refusal>, number: &mut T) -> u32
    ensures { (result ≡ number_of (says a)) × (number.new ≡ one_number (says a) number.old) }
{
    match a {
        Ok(k) => {
            *number = k;
            0
        }
        Err(r) => u32::from(r.number()),
    }
}

// How many bytes of the file lie in no change and in no section.
#[unsafe(no_mangle)]
pub extern "C" fn lxt_stray(file: &[u8], stray: &mut u32) -> u32
    ensures value { result ≡ number_of (stray_asked file.now) }
    ensures stray_after { stray.new ≡ one_number (stray_asked file.now) stray.old }
{
    give(lxt_reader::stray(file), stray)
}

// The root of a facility.
#[unsafe(no_mangle)]
pub extern "C" fn lxt_root(file: &[u8], facility: u32, root: &mut u32) -> u32
    ensures value { result ≡ number_of (root_asked file.now facility) }
    ensures root_after { root.new ≡ one_number (root_asked file.now facility) root.old }
{
    give(facilities::root_of(file, facility), root)
}

// The length of a facility's name, which is written into the lent names buffer.
#[unsafe(no_mangle)]
pub extern "C" fn lxt_name(file: &[u8], facility: u32, names: &mut [u8], size: &mut u32) -> u32
    ensures value { result ≡ number_of (name_asked file.now facility (length names.old)) }
    ensures names_after { names.new ≡ name_buffer file.now facility names.old }
    ensures size_after { size.new ≡ one_number (name_asked file.now facility (length names.old)) size.old }
{
    give(names::length_of(file, facility, names), size)
}

// The change before a given change, 0 where there is none.
#[unsafe(no_mangle)]
pub extern "C" fn lxt_change_before(
    file: &[u8],
    facility: u32,
    offset: u32,
    before: &mut u32,
) -> u32
    ensures value { result ≡ number_of (before_asked file.now facility offset) }
    ensures before_after { before.new ≡ one_number (before_asked file.now facility offset) before.old }
{
    give(changes::before(file, facility, offset), before)
}

// A value as three numbers: 0 and the width; 1 and a real's 64 bits; 2, a text's start and its
// length; or 3, not driven.
fn numbers_of(v: Value) -> [u64; 3]
    ensures { result ≡ shown_numbers (value_shown v) }
{
    match v {
        Value::Bits { width } => [0, u64::from(width), 0],
        Value::Real { number: _, bits } => [1, bits, 0],
        Value::Text { start, length } => [2, u64::from(start), u64::from(length)],
        Value::NotDriven => [3, 0, 0],
    }
}

// A change's time and value, and whether its padding is 0; symbols are written into the lent bits buffer.
#[unsafe(no_mangle)]
pub extern "C" fn lxt_change(
    file: &[u8],
    facility: u32,
    offset: u32,
    bits: &mut [u8],
    time: &mut i64,
    answer: &mut [u64; 3],
    clean: &mut u32,
) -> u32
    ensures value { result ≡ number_of (change_asked file.now facility offset (length bits.old)).value }
    ensures bits_after { bits.new ≡ change_buffer file.now facility offset bits.old }
    ensures time_after { time.new ≡ change_time (change_asked file.now facility offset (length bits.old)) time.old }
    ensures answer_after { answer.new ≡ value_numbers (change_asked file.now facility offset (length bits.old)).value answer.old }
    ensures clean_after { clean.new ≡ change_clean (change_asked file.now facility offset (length bits.old)) clean.old }
{
    match values::of_change(file, facility, offset, bits) {
        Ok(t) => {
            *time = t.time;
            *answer = numbers_of(t.value);
            *clean = u32::from(t.clean);
            0
        }
        Err(r) => u32::from(r.number()),
    }
}

// The value at a time, and how many changes were visited; symbols are written into the lent bits buffer.
#[unsafe(no_mangle)]
pub extern "C" fn lxt_value_at(
    file: &[u8],
    facility: u32,
    time: i64,
    bits: &mut [u8],
    answer: &mut [u64; 3],
    visited: &mut u32,
) -> u32
    ensures value { result ≡ number_of (value_asked file.now facility time (length bits.old)).value }
    ensures bits_after { bits.new ≡ value_buffer file.now facility time bits.old }
    ensures answer_after { answer.new ≡ value_numbers (value_asked file.now facility time (length bits.old)).value answer.old }
    ensures visited_after { visited.new ≡ lookup_visited (value_asked file.now facility time (length bits.old)) visited.old }
{
    match values::at_time(file, facility, time, bits) {
        Ok(l) => {
            *answer = numbers_of(l.value);
            *visited = l.visited;
            0
        }
        Err(r) => u32::from(r.number()),
    }
}

// A text as three numbers: 0 and its start and length in the file; 1, 0 and the length of the lent text; or
// 2, 0 and 0, another kind.
fn part_of(p: TextPlace) -> [u64; 3]
    ensures { result ≡ text_numbers (text_says (Ok p)) [] }
{
    match p {
        TextPlace::File { start, length } => [0, u64::from(start), u64::from(length)],
        TextPlace::Lent { length } => [1, 0, length as u64],
        TextPlace::OtherKind => [2, 0, 0],
    }
}

// Where the text at a time stands, in the file or the lent text.
#[unsafe(no_mangle)]
pub extern "C" fn lxt_text_at(
    file: &[u8],
    facility: u32,
    time: i64,
    text: &[u8],
    part: &mut [u64; 3],
) -> u32
    ensures value { result ≡ number_of (text_asked file.now facility time (length text.now)) }
    ensures part_after { part.new ≡ text_numbers (text_asked file.now facility time (length text.now)) part.old }
{
    match texts::place_at(file, facility, time, text) {
        Ok(p) => {
            *part = part_of(p);
            0
        }
        Err(r) => u32::from(r.number()),
    }
}
