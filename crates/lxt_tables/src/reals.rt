// The real facilities of a trace and the byte order that the real test fixes: refusal 14.
ghost use Rattle.std.specs.Prelude.{◌≡◌, map, ◌+◌, ◌≤◌, ltb, length, get_or, take, drop};
ghost use Rattle.std.specs.List.{list_all};
ghost use Rattle.lxt_format.specs.Basics.{range, all};
ghost use Rattle.lxt_format.specs.Reals.{place_of, test_pattern, has_real};

use crate::geometry::GeometryTable;

impl GeometryTable<'_> {
    // A root is of kind real. An alias has flag bit 3, so its flags are not 2.
    pub fn has_real(self) -> bool
        ensures { result ≡ has_real self.entry.file.now }
    {
        for f in 0..self.count {
            if self.flags(f) == 2 {
                return true;
            }
        }
        false
    }
}

// Where `b` stands among the eight bytes from `at` on, or 8.
fn place_of(file: &[u8], at: usize, b: u8) -> u8
    requires { at + 8 ≤ length file.now }
    ensures { result ≡ place_of b (take 8 (drop at file.now)) }
{
    for j in 0..8u8 {
        if file[at + usize::from(j)] == b {
            return j;
        }
    }
    8
}

// The place of each byte of the pattern among the eight from `at` on, the lowest byte's first.
pub fn byte_order(file: &[u8], at: usize) -> [u8; 8]
    requires { at + 8 ≤ length file.now }
    ensures { result ≡ map (λ b. place_of b (take 8 (drop at file.now))) test_pattern }
{
    [
        place_of(file, at, 0x6e),
        place_of(file, at, 0x86),
        place_of(file, at, 0x1b),
        place_of(file, at, 0xf0),
        place_of(file, at, 0xf9),
        place_of(file, at, 0x21),
        place_of(file, at, 0x09),
        place_of(file, at, 0x40),
    ]
}

fn all_below_8(places: &[u8]) -> bool
    ensures { result ≡ list_all (λ p. ltb p 8) places.now }
{
    places.iter().all(|p| *p < 8)
}

// Every byte of the pattern has a place.
pub fn is_reordering(order: [u8; 8]) -> bool
    ensures { result ≡ all (λ i. ltb (get_or order i 0) 8) (range 0 8) }
{
    all_below_8(&order)
}
