// Whether the chain of any pending offset has a fault, refusals 15 and 16, in a file whose chains may run
// into each other or share bytes. The changes are visited by falling offset, each once: facilities whose
// chains have come to the same offset are one group from there on.
ghost use Rattle.std.specs.Prelude.{◌≡◌, true, false, not, ◌+◌, ◌*◌, ◌-◌, ◌≤◌, ◌<◌, max, length, get_or, eqb};
ghost use Rattle.lxt_format.specs.Limits.{widest_facility};
ghost use Rattle.lxt_changes.specs.Windows.{Known};
ghost use Rattle.lxt_chains.specs.Reading.{Ready};
ghost use Rattle.lxt_format.specs.Geometry.{is_alias};
ghost use Rattle.lxt_chains.specs.Windows.{window, Upto, Vacant};
ghost use Rattle.lxt_chains.specs.Groups.{bits_width, kind_number, both_kinds, kept_as, others_kept, FaultAs, FaultyAt, Faulty, Decides, Judges, Groups, Grouped, Settles, Settling, Entered, Passes, Room, Alone, Single, Roots, ChainFault};

use crate::chains::Chains;
use crate::window;
use crate::window::WINDOW;
use lxt_changes::symbols::Window;
use lxt_changes::{delta, keep, symbols};
use lxt_format::{Kind, Summary};

// As many groups as there are facilities in any file.
pub const MOST: usize = Summary::MOST_FACILITIES as usize;

// The change at `o` has no fault as one of an integer, if that is asked. None of its commands has codes of 4
// bits.
fn integer_passes(file: &[u8], c: Chains, asked: bool, o: usize) -> bool
    requires { Ready file.now c }
    ensures { result ≡ kept_as file.now asked Kind.Integer 32 o }
{
    if !asked {
        return true;
    }
    if !keep::head_keeps(file, c.from, c.end, Kind::Integer, o) {
        return false;
    }
    keep::symbols_fit(file, c.end, 32, o)
}

// The same as one of a real.
fn real_passes(file: &[u8], c: Chains, asked: bool, o: usize) -> bool
    requires { Ready file.now c }
    ensures { result ≡ kept_as file.now asked Kind.Real 0 o }
{
    if !asked {
        return true;
    }
    if !keep::head_keeps(file, c.from, c.end, Kind::Real, o) {
        return false;
    }
    delta::data_at(file, o) + 8 <= c.end
}

// The same as one of a text: it starts at or below the last zero before T.
fn text_passes(file: &[u8], c: Chains, asked: bool, o: usize) -> bool
    requires { Ready file.now c }
    ensures { result ≡ kept_as file.now asked Kind.Text 0 o }
{
    if !asked {
        return true;
    }
    if !keep::head_keeps(file, c.from, c.end, Kind::Text, o) {
        return false;
    }
    delta::data_at(file, o) < c.zero
}

// The change at `o` has no fault for any kind of a group but bits.
#[tactic(auto, unfolding(crate::specs::Groups::others_kept))]
fn others_pass(file: &[u8], c: Chains, kinds: u8, o: usize) -> bool
    requires { Ready file.now c }
    ensures { result ≡ others_kept file.now kinds o }
{
    integer_passes(file, c, kinds % 2 == 1, o)
        && real_passes(file, c, kinds / 2 % 2 == 1, o)
        && text_passes(file, c, kinds / 4 % 2 == 1, o)
}

// The change at `o` has no fault as one of bits, if there are any. Only codes of 4 bits can be wrong. Where it has none,
// the bytes of good codes that are known after that. (Inlined: as a call it sends them through memory at each change.)
#[inline(always)]
fn bits_pass(file: &[u8], c: Chains, width: u32, o: usize, w: Window) -> Option<Window>
    requires { Ready file.now c × (Known file.now w × (width ≤ widest_facility)) }
    ensures { Judges file.now (FaultAs file.now (not (eqb width 0)) Kind.Bits width o) result }
{
    if width == 0 {
        return Some(w);
    }
    if !keep::head_keeps(file, c.from, c.end, Kind::Bits, o) {
        return None;
    }
    if !keep::symbols_fit(file, c.end, width, o) {
        return None;
    }
    if symbols::size_of(file[o]) != 4 {
        return Some(w);
    }
    symbols::codes_allowed(file, 4, width, delta::data_at(file, o), w)
}

// The change at `o` has no fault for any kind of a group. Most groups are of bits alone.
fn passes(file: &[u8], c: Chains, width: u32, kinds: u8, o: usize, w: Window) -> Option<Window>
    requires { Ready file.now c × (Known file.now w × (width ≤ widest_facility)) }
    ensures { Judges file.now (FaultyAt file.now width kinds o) result }
{
    if kinds == 0 {
        return bits_pass(file, c, width, o, w);
    }
    if !others_pass(file, c, kinds, o) {
        return None;
    }
    bits_pass(file, c, width, o, w)
}

// The kinds of two groups together.
fn both_kinds(a: u8, b: u8) -> u8
    ensures { result ≡ both_kinds a b }
{
    let integers = (a % 2).max(b % 2);
    let reals = (a / 2 % 2).max(b / 2 % 2);
    let texts = (a / 4 % 2).max(b / 4 % 2);
    integers + (2 * reals + 4 * texts)
}

// Puts a group into the slot of its pending offset, or, where another group has come there before, adds
// it to that one.
fn settle(
    pending: &mut [u32],
    slots: &mut [u16],
    widths: &mut [u16],
    kinds: &mut [u8],
    base: usize,
    f: usize,
)
    requires { Settles base f pending.old slots.old widths.old kinds.old }
    ensures { Settling base f pending.old slots.old widths.old kinds.old pending.new slots.new widths.new kinds.new }
{
    let Some(g) = window::enter(slots, base, f, pending[f]) else {
        return;
    };
    widths[g] = widths[g].max(widths[f]);
    kinds[g] = both_kinds(kinds[g], kinds[f]);
    pending[f] = 0;
}

// Puts all groups whose pending offsets lie in the window from `base` on into its slots.
fn settle_all(
    pending: &mut [u32],
    slots: &mut [u16],
    widths: &mut [u16],
    kinds: &mut [u8],
    base: usize,
)
    requires { Groups pending.old widths.old kinds.old × (Vacant slots.old × Upto pending.old (base + window - 1)) }
    ensures { Entered base (length pending.new) pending.old widths.old kinds.old pending.new slots.new widths.new kinds.new }
{
    for f in 0..pending.len() {
        settle(pending, slots, widths, kinds, base, f);
    }
}

// Tests the change whose group stands in slot `i`. Where it has no fault, the group goes on to the change
// before it.
fn visit(
    file: &[u8],
    c: Chains,
    pending: &mut [u32],
    slots: &mut [u16],
    widths: &mut [u16],
    kinds: &mut [u8],
    base: usize,
    i: usize,
    w: Window,
) -> Option<Window>
    requires { Ready file.now c × (Grouped c base (i + 1) pending.old slots.old widths.old kinds.old × (((i < window) × (get_or slots.old i 0 ≡ 0 → ⊥)) × Known file.now w)) }
    ensures { Passes file.now c base i pending.old widths.old kinds.old pending.new slots.new widths.new kinds.new result }
{
    let f = slots[i] as usize - 1;
    let o = base + i;
    let known = passes(file, c, u32::from(widths[f]), kinds[f], o, w)?;
    pending[f] = delta::previous(file, o) as u32;
    slots[i] = 0;
    settle(pending, slots, widths, kinds, base, f);
    Some(known)
}

// Tests the changes of a window, by falling offset.
fn decide_window(
    file: &[u8],
    c: Chains,
    pending: &mut [u32],
    slots: &mut [u16],
    widths: &mut [u16],
    kinds: &mut [u8],
    base: usize,
    w: Window,
) -> Option<Window>
    requires { Ready file.now c × (Grouped c base window pending.old slots.old widths.old kinds.old × Known file.now w) }
    ensures { Passes file.now c base 0 pending.old widths.old kinds.old pending.new slots.new widths.new kinds.new result }
{
    let mut i = WINDOW;
    let mut known = w;
    while let Some(at) = window::down(pending, slots, base, i) {
        i = at;
        known = visit(file, c, pending, slots, widths, kinds, base, i, known)?;
    }
    Some(known)
}

// Whether a chain of any group has a fault. No change at or above T is read.
fn decide(
    file: &[u8],
    c: Chains,
    pending: &mut [u32],
    slots: &mut [u16],
    widths: &mut [u16],
    kinds: &mut [u8],
) -> bool
    requires { Ready file.now c × (Groups pending.old widths.old kinds.old × Vacant slots.old) }
    ensures { Decides (Faulty file.now pending.old widths.old kinds.old) result }
{
    let mut w = Window { from: 0, to: 0 };
    // down to the window of the highest change that is left, not a count
    while let Some(high) = window::highest(pending) {
        if c.end <= high {
            return true;
        }
        let base = high - high % WINDOW;
        settle_all(pending, slots, widths, kinds, base);
        let Some(known) = decide_window(file, c, pending, slots, widths, kinds, base, w) else {
            return true;
        };
        w = known;
    }
    false
}

// The width of bits; 0 for the other kinds.
#[tactic(auto, unfolding(crate::specs::Groups::bits_width))]
fn bits_width(kind: Kind, width: u32) -> u16
    requires { width ≤ widest_facility }
    ensures { result ≡ bits_width kind width }
{
    match kind {
        Kind::Bits => width as u16,
        Kind::Integer | Kind::Real | Kind::Text => 0,
    }
}

// The number of a kind in a group's kinds.
#[tactic(auto, unfolding(crate::specs::Groups::kind_number))]
fn kind_number(kind: Kind) -> u8
    ensures { result ≡ kind_number kind }
{
    match kind {
        Kind::Bits => 0,
        Kind::Integer => 1,
        Kind::Real => 2,
        Kind::Text => 4,
    }
}

// Makes facility `f` with the pending offset `o` a group of its own, if it has one.
fn put_group(file: &[u8], c: Chains, widths: &mut [u16], kinds: &mut [u8], f: usize, o: u32)
    requires { Ready file.now c × ((f < c.facilities) × (((f < length widths.old) × (f < length kinds.old)) × (0 < o → is_alias file.now f ≡ false))) }
    ensures { Alone file.now f o widths.old kinds.old widths.new kinds.new }
{
    if o == 0 {
        return;
    }
    let facts = c.geometry(file).own_facts(f as u32);
    widths[f] = bits_width(facts.kind, facts.width);
    kinds[f] = kind_number(facts.kind);
}

// Makes each facility that has a pending offset a group of its own.
pub fn put_groups(file: &[u8], c: Chains, pending: &[u32], widths: &mut [u16], kinds: &mut [u8])
    requires { Ready file.now c × (Roots file.now c pending.now × Room pending.now widths.old kinds.old) }
    ensures { Single file.now (length pending.now) pending.now widths.new kinds.new }
{
    for (f, &o) in pending.iter().enumerate() {
        put_group(file, c, widths, kinds, f, o);
    }
}

// Whether the chain from any of the pending offsets on has a fault, found with room for a window and for
// a group for each offset.
fn any_within(
    file: &[u8],
    c: Chains,
    pending: &mut [u32],
    slots: &mut [u16],
    widths: &mut [u16],
    kinds: &mut [u8],
) -> bool
    requires { Ready file.now c × (Roots file.now c pending.old × (Vacant slots.old × Room pending.old widths.old kinds.old)) }
    ensures { Decides (ChainFault file.now pending.old) result }
{
    put_groups(file, c, pending, widths, kinds);
    decide(file, c, pending, slots, widths, kinds)
}

// Whether the chain from any of the pending offsets on has a fault (refusals 15, 16).
pub fn any_fault(file: &[u8], c: Chains, pending: &mut [u32]) -> bool
    requires { Ready file.now c × Roots file.now c pending.old }
    ensures { Decides (ChainFault file.now pending.old) result }
{
    let mut slots = [0u16; WINDOW];
    let mut widths = [0u16; MOST];
    let mut kinds = [0u8; MOST];
    let k = pending.len();
    any_within(
        file,
        c,
        pending,
        &mut slots,
        &mut widths[..k],
        &mut kinds[..k],
    )
}
