// The entries of the time table, one after the other: up from entry 0, or down from the last one. The time
// of an entry has the bias of 2^63.
ghost use Rattle.std.specs.Prelude.{◌≡◌, ◌+◌, ◌<◌};
ghost use Rattle.lxt_format.specs.Times.{time_of};
ghost use Rattle.lxt_format.specs.BiasedTimes.{biased};
ghost use Rattle.lxt_values.specs.Times.{Times};
ghost use Rattle.lxt_values.specs.Entries.{EntryAt, Latest};

use lxt_sections::times::{biased, deltas_of};

// The time table of a file: where it starts, how many entries it has, and whether their times have 8 bytes.
#[derive(Clone, Copy)]
pub struct TimeTable<'f> {
    pub file: &'f [u8],
    pub at: usize,
    pub count: u32,
    pub wide: bool,
    pub ghost there: { Times file.now at count wide },
}

// An entry by its number, with its position and its time.
#[derive(Clone, Copy)]
pub struct Entry {
    pub number: usize,
    pub position: u64,
    pub time: u64,
}

impl<'f> TimeTable<'f> {
    pub fn new(file: &'f [u8], at: usize, count: u32, wide: bool) -> TimeTable<'f>
        requires { Times file.now at count wide }
        ensures same_file { result.file.now ≡ file.now }
        ensures place { (result.at ≡ at) × ((result.count ≡ count) × (result.wide ≡ wide)) }
    {
        TimeTable {
            file,
            at,
            count,
            wide,
        }
    }

    // Entry 0 of a table that has one.
    pub fn first(self) -> Entry
        requires { 0 < self.count }
        ensures { EntryAt self.entry.file.now result.number result.position result.time × (result.number ≡ 0) }
    {
        let d = deltas_of(self.file, self.at, self.count, self.wide, 0);
        Entry {
            number: 0,
            position: u64::from(d.position),
            time: biased(d.time),
        }
    }

    // The entry after `e`.
    pub fn following(self, e: Entry) -> Entry
        requires { EntryAt self.file.now e.number e.position e.time × (e.number + 1 < self.count) }
        ensures { EntryAt self.entry.file.now result.number result.position result.time × (result.number ≡ e.number + 1) }
    {
        let d = deltas_of(self.file, self.at, self.count, self.wide, e.number + 1);
        Entry {
            number: e.number + 1,
            position: e.position + u64::from(d.position),
            time: e.time + d.time,
        }
    }

    // The entry before `e`.
    fn preceding(self, e: Entry) -> Entry
        requires { EntryAt self.file.now e.number e.position e.time × (0 < e.number) }
        ensures { EntryAt self.entry.file.now result.number result.position result.time × (result.number + 1 ≡ e.number) }
    {
        let d = deltas_of(self.file, self.at, self.count, self.wide, e.number);
        Entry {
            number: e.number - 1,
            position: e.position - u64::from(d.position),
            time: e.time - d.time,
        }
    }

    // The last entry of a table that has one.
    pub fn last(self) -> Entry
        requires { 0 < self.count }
        ensures { EntryAt self.entry.file.now result.number result.position result.time × (result.number + 1 ≡ self.entry.count) }
    {
        let mut e = self.first();
        for _number in 1..self.count as usize {
            e = self.following(e);
        }
        e
    }

    // The entry that gives the time of a change at `o`, looked for from the entry `e` down; the entries
    // after `e` lie above `o`.
    pub fn down(self, e: Entry, o: usize) -> Entry
        requires { Latest self.file.now o e.number e.position e.time }
        ensures { Latest self.entry.file.now o result.number result.position result.time × (result.time ≡ biased (time_of self.entry.file.now o)) }
    {
        let mut entry = e;
        // down to the entry that is met first, not a count
        while 0 < entry.number {
            if entry.position <= o as u64 {
                return entry;
            }
            entry = self.preceding(entry);
        }
        entry
    }
}
