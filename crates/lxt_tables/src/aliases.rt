// Aliases and roots: refusal 12.
ghost use Rattle.std.specs.Prelude.{◌≡◌, ◌+◌, ◌≤◌, ◌<◌, length, get_or, not, if◌then◌else◌};
ghost use Rattle.lxt_format.specs.Basics.{range, all};
ghost use Rattle.lxt_format.specs.Limits.{most_facilities};
ghost use Rattle.lxt_format.specs.Geometry.{rows_of, is_alias, root_of, aliases_allowed};
ghost use Rattle.lxt_tables.specs.Asked.{Right, Roots, Stores, Resolved};

use crate::geometry::GeometryTable;
use lxt_format::Summary;

// A table of roots has an entry for each facility of any file. An entry that is no facility's number
// says that the root is not known yet; the bytes of this one are equal, so that a table is filled with bytes.
pub const ROOM: usize = Summary::MOST_FACILITIES as usize;

pub const UNKNOWN: u32 = 0xFFFF_FFFF;

// What a table of roots has for facility `at`; `n` behind its end.
fn entry(n: u32, roots: &[u32], at: u32) -> u32
    ensures { result < n → (at < length roots.now) × (result ≡ get_or roots.now at 0) }
{
    if (at as usize) < roots.len() {
        return roots[at as usize];
    }
    n
}

impl GeometryTable<'_> {
    // The root of facility `f`, or `n` where it has none, by a way that ends at the first facility whose root is
    // in the table. A way of more than `n` facilities meets one twice and never ends.
    fn root_by(self, roots: &[u32], f: u32) -> u32
        requires { Right self.file.now self.count roots.now }
        ensures { result ≡ root_of self.entry.file.now f }
    {
        let n = self.count;
        let mut at = f;
        for _i in 0..n {
            if n <= at {
                return n;
            }
            let known = entry(n, roots, at);
            if known < n {
                return known;
            }
            if !self.is_alias(at) {
                return at;
            }
            at = self.rows(at);
        }
        n // the way goes round
    }

    // The same without a table.
    pub fn root(self, f: u32) -> u32
        ensures { result ≡ root_of self.entry.file.now f }
    {
        self.root_by(&[], f)
    }

    // The facility that an alias stands for; any other one itself.
    fn stands_for(self, f: u32) -> u32
        requires { f < self.count }
        ensures { result ≡ (if is_alias self.entry.file.now f then rows_of self.entry.file.now f else f) }
    {
        if self.is_alias(f) {
            return self.rows(f);
        }
        f
    }

    // Stores the root of `f` for each facility on the way to it, as far as none is known.
    fn put_root(self, roots: &mut [u32], f: u32, root: u32)
        requires { Stores self.file.now self.count f root roots.old }
        ensures { Roots self.entry.file.now self.entry.count (f + 1) roots.new }
    {
        let mut at = f;
        // a way along aliases, not a count
        while self.count <= roots[at as usize] {
            roots[at as usize] = root;
            at = self.stands_for(at);
        }
    }

    // Whether every facility has a root; if so, the root of each is in the table. A way is gone twice, to
    // find its root and to store it, and then never again.
    pub fn put_roots(self, roots: &mut [u32]) -> bool
        requires { Roots self.file.now self.count 0 roots.old }
        ensures { Resolved self.entry.file.now self.entry.count result roots.new }
    {
        for f in 0..self.count {
            let root = self.root_by(roots, f);
            if self.count <= root {
                return false;
            }
            self.put_root(roots, f, root);
        }
        true
    }

    // Whether no facility is an alias.
    fn none_is_alias(self) -> bool
        ensures { result ≡ all (λ f. not (is_alias self.entry.file.now f)) (range 0 self.entry.count) }
    {
        for f in 0..self.count {
            if self.is_alias(f) {
                return false;
            }
        }
        true
    }

    // Refusal 12: every facility has a root. Where there is no alias, no table is made.
    pub fn aliases_allowed(self) -> bool
        requires { self.count ≤ most_facilities }
        ensures { result ≡ aliases_allowed self.entry.file.now }
    {
        if self.none_is_alias() {
            return true;
        }
        let mut roots = [UNKNOWN; ROOM];
        self.put_roots(&mut roots)
    }
}
