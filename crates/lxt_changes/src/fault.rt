// The faults of a change and of a chain, refusals 15 and 16, and whether their padding is 0.
ghost use Rattle.std.specs.Prelude.{◌≡◌, ◌+◌, ◌-◌, ◌≤◌, ◌<◌, length};
ghost use Rattle.lxt_changes.specs.Windows.{Known};
ghost use Rattle.lxt_format.specs.Limits.{widest_facility};
ghost use Rattle.lxt_format.specs.Changes.{signal, fault_at, clean_at, chain_fault, chain_clean};
ghost use Rattle.lxt_format.specs.Basics.{answer};
ghost use Rattle.lxt_format.specs.Answers.{says};
ghost use Rattle.lxt_changes.specs.Faults.{LastZero, start_fault, symbol_fault, symbol_clean, body_fault, Found, Setting};

use crate::symbols::Window;
use crate::{delta, padding, symbols};
use lxt_format::{Kind, Refusal};

// One past the last zero byte before `end`, or 0: a text that starts below it ends before `end`.
pub fn last_zero(file: &[u8], end: usize) -> usize
    requires { end ≤ length file.now }
    ensures { LastZero file.now end result }
{
    for p in (0..end).rev() {
        if file[p] == 0 {
            return p + 1;
        }
    }
    0
}

// A change without a fault: whether its padding is 0; and what is known of good bytes after that was found.
#[derive(Clone, Copy)]
pub struct Sound {
    pub clean: bool,
    pub window: Window,
}

// The first two tests: where the change starts, and its command byte.
fn start_fault(file: &[u8], from: usize, end: usize, kind: Kind, o: usize) -> Result<(), Refusal>
    requires { end ≤ length file.now }
    ensures { says result ≡ answer (start_fault file.now from end kind o) tt }
{
    if o < from {
        return Err(Refusal::ChangeOutside);
    }
    if end <= o {
        return Err(Refusal::ChangeOutside);
    }
    if !symbols::command_fits(kind, file[o]) {
        return Err(Refusal::ChangeContent);
    }
    Ok(())
}

// The next two tests, of a change of symbols: the whole change before T, and its data.
fn symbol_fault(file: &[u8], end: usize, width: u32, o: usize, w: Window) -> Result<Sound, Refusal>
    requires { Known file.now w × (((1 ≤ width) × (width ≤ widest_facility)) × ((o < end) × (end ≤ length file.now))) }
    ensures { Found file.now (symbol_fault file.now end width o) (symbol_clean file.now width o) result }
{
    let b = symbols::size_of(file[o]);
    let at = delta::data_at(file, o);
    if end < at + symbols::packed_size(b, width) {
        return Err(Refusal::ChangeOutside);
    }
    if b == 0 {
        return Ok(Sound {
            clean: true,
            window: w,
        });
    }
    let Some(window) = symbols::codes_allowed(file, b, width, at, w) else {
        return Err(Refusal::ChangeContent);
    };
    Ok(Sound {
        clean: padding::padding_clean(file, b, width, at),
        window,
    })
}

// The same of a real: its 8 bytes end before T.
fn real_fault(file: &[u8], end: usize, o: usize) -> Result<(), Refusal>
    requires { (o < end) × (end ≤ length file.now) }
    ensures { says result ≡ answer (body_fault file.now end Kind.Real 0 o) tt }
{
    if end < delta::data_at(file, o) + 8 {
        return Err(Refusal::ChangeOutside);
    }
    Ok(())
}

// The same of a text: it starts at or below the last zero before T.
fn text_fault(file: &[u8], end: usize, zero: usize, o: usize) -> Result<(), Refusal>
    requires { LastZero file.now end zero × ((o < end) × (end ≤ length file.now)) }
    ensures { says result ≡ answer (body_fault file.now end Kind.Text 0 o) tt }
{
    if zero <= delta::data_at(file, o) {
        return Err(Refusal::ChangeOutside);
    }
    Ok(())
}

// The end and the data of a change of any kind.
fn body_fault(
    file: &[u8],
    end: usize,
    zero: usize,
    kind: Kind,
    width: u32,
    o: usize,
    w: Window,
) -> Result<Sound, Refusal>
    requires { Setting file.now end zero kind width × (Known file.now w × (o < end)) }
    ensures { Found file.now (body_fault file.now end kind width o) (clean_at file.now (signal 0 end kind width) o) result }
{
    match kind {
        Kind::Bits | Kind::Integer => return symbol_fault(file, end, width, o, w),
        Kind::Real => real_fault(file, end, o)?,
        Kind::Text => text_fault(file, end, zero, o)?,
    }
    Ok(Sound {
        clean: true,
        window: w,
    })
}

// The fault of the change at `o` of a facility of that kind and width: C is `from`, T is `end`, and
// `zero` is one past the last zero before T.
pub fn change_fault(
    file: &[u8],
    from: usize,
    end: usize,
    zero: usize,
    kind: Kind,
    width: u32,
    o: usize,
    w: Window,
) -> Result<Sound, Refusal>
    requires { Setting file.now end zero kind width × Known file.now w }
    ensures { Found file.now (fault_at file.now (signal from end kind width) o) (clean_at file.now (signal from end kind width) o) result }
{
    start_fault(file, from, end, kind, o)?;
    let body = body_fault(file, end, zero, kind, width, o, w)?;
    if !delta::previous_allowed(file, from, o) {
        return Err(Refusal::ChangeOutside);
    }
    Ok(body)
}

// The first fault of the chain that starts at `start`, newest change first; where there is none, whether the
// padding of all its changes is 0.
pub fn first_fault(
    file: &[u8],
    from: usize,
    end: usize,
    zero: usize,
    kind: Kind,
    width: u32,
    start: usize,
) -> Result<bool, Refusal>
    requires { Setting file.now end zero kind width }
    ensures { says result ≡ answer (chain_fault file.now (signal from end kind width) start) (chain_clean file.now (signal from end kind width) start) }
{
    let mut o = start;
    let mut clean = true;
    let mut w = Window { from: 0, to: 0 };
    // a chain of offsets, not a count
    while o != 0 {
        let found = change_fault(file, from, end, zero, kind, width, o, w)?;
        clean &= found.clean;
        w = found.window;
        o = delta::previous(file, o);
    }
    Ok(clean)
}
