// The types of the reader's answers and the limits of the format. Every rule of the format is a
// definition in specs/; nothing here computes more than a bound.
#![tactic(auto)]

ghost use Rattle.std.specs.Prelude.{◌≡◌, ◌&&◌, ◌-◌, leb};
ghost use Rattle.lxt_format.specs.Limits.{shortest_file, longest_file, most_facilities, longest_name, widest_facility, longest_column};

pub mod refusal;

pub use crate::refusal::Refusal;

// A file, by its length in bytes.
#[derive(Clone, Copy)]
pub struct File {
    pub length: usize,
}

impl File {
    pub const SHORTEST: usize = 6;

    pub const LONGEST: usize = 16_777_216;

    // The longest file that the small program prints.
    pub const LONGEST_PRINTED: usize = 65_536;

    // Check 1.
    pub fn length_is_allowed(self) -> bool
        ensures { result ≡ (leb shortest_file self.length && leb self.length longest_file) }
    {
        (File::SHORTEST <= self.length) & (self.length <= File::LONGEST)
    }
}

// A place in the section list: the offset of the next tag. The list is read towards the front.
#[derive(Clone, Copy)]
pub struct SectionCursor {
    pub at: usize,
}

impl SectionCursor {
    // The bytes of an item: a tag and the 4-byte value before it.
    pub const ITEM: usize = 5;
    // The lowest offset of a tag or a value, and of a section's body.
    pub const FIRST: usize = 4;

    // At the byte before the last one.
    pub fn fresh(length: usize) -> SectionCursor
        ensures { result.at ≡ length - 2 }
    {
        if length < 2 {
            SectionCursor { at: 0 }
        } else {
            SectionCursor { at: length - 2 }
        }
    }
}

// A place in the name table: the offset of the next name's prefix bytes, the length of the name
// before it, and how much of the memory M is left.
#[derive(Clone, Copy)]
pub struct NameCursor {
    pub at: usize,
    pub before: usize,
    pub memory: usize,
}

impl NameCursor {
    // The longest name, and so the room that a names buffer needs.
    pub const LONGEST: usize = 1_023;

    // Before the first name: the name before it is empty.
    pub fn fresh(at: usize, memory: usize) -> NameCursor
        ensures { result ≡ record { at = at; before = 0; memory = memory } }
    {
        NameCursor {
            at,
            before: 0,
            memory,
        }
    }

    pub fn length_is_allowed(length: usize) -> bool
        ensures { result ≡ leb length longest_name }
    {
        length <= NameCursor::LONGEST
    }
}

// What a facility's values are.
#[derive(Clone, Copy)]
pub enum Kind {
    Bits,
    Integer,
    Real,
    Text,
}

// The facts of a facility. Integers have 32, 31 and 0; reals and texts 0, 0 and 0.
#[derive(Clone, Copy)]
pub struct Facts {
    pub width: u32,
    pub msb: i32,
    pub lsb: i32,
    pub kind: Kind,
}

impl Facts {
    pub const WIDEST: u64 = 4_096;

    pub fn width_is_allowed(width: u64) -> bool
        ensures { result ≡ leb width widest_facility }
    {
        width <= Facts::WIDEST
    }
}

// What judging an accepted file answers.
#[derive(Clone, Copy)]
pub struct Summary {
    // n
    pub facilities: u32,
    // C
    pub changes: u32,
    // T
    pub end: u32,
    pub timescale: i8,
    // the code of the initial symbol, 0 to 8
    pub initial: u8,
    // the unused bits of every change on the chain of a root are 0
    pub clean: bool,
}

impl Summary {
    pub const MOST_FACILITIES: u32 = 4_096;

    pub fn count_is_allowed(facilities: u32) -> bool
        ensures { result ≡ leb facilities most_facilities }
    {
        facilities <= Summary::MOST_FACILITIES
    }
}

// A value: that of a change, or that at a time.
#[derive(Clone, Copy)]
pub enum Value {
    // The symbols stand in the lent buffer.
    Bits { width: u32 },
    // The number, and the 64 bits that it was made from: a NaN's bits are lost in the number.
    Real { number: f64, bits: u64 },
    // A part of the file, without the zero.
    Text { start: u32, length: u32 },
    NotDriven,
}

// A change's time and value, and whether its unused bits are 0.
#[derive(Clone, Copy)]
pub struct TimedValue {
    pub time: i64,
    pub value: Value,
    pub clean: bool,
}

// The value at a time, and how many changes were visited to find it: those of the root with a later time,
// and the change answered, if any.
#[derive(Clone, Copy)]
pub struct Lookup {
    pub value: Value,
    pub visited: u32,
}

// The text of a facility at a time, with a text that the caller lends where it has no change up to then: where it
// stands.
#[derive(Clone, Copy)]
pub enum TextPlace {
    // A part of the file, without the zero.
    File { start: u32, length: u32 },
    // The whole lent text.
    Lent { length: usize },
    // The values of the facility are no texts.
    OtherKind,
}

// The facility numbers that a column is asked for, by how many they are.
#[derive(Clone, Copy)]
pub struct ColumnList {
    pub length: usize,
}

impl ColumnList {
    pub const LONGEST: usize = 4_096;

    // Check 35.
    pub fn length_is_allowed(self) -> bool
        ensures { result ≡ leb self.length longest_column }
    {
        self.length <= ColumnList::LONGEST
    }
}

// A facility's number and an offset: a pair of the walk record, whose offset is the pending one, or
// a pair that a walk hands out.
#[repr(C)]
#[derive(Clone, Copy)]
pub struct Pair {
    pub number: u32,
    pub offset: u32,
}

// Carrying on: how many pairs were handed out, and whether all pending offsets are 0.
#[derive(Clone, Copy)]
pub struct Handed {
    pub count: u32,
    pub done: bool,
}
