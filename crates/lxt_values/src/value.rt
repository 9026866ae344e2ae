// The value of a change.
ghost use Rattle.std.specs.Prelude.{◌≡◌, ◌≤◌, length};
ghost use Rattle.lxt_format.specs.Values.{content_by};
ghost use Rattle.lxt_format.specs.Answers.{shown, value_shown};
ghost use Rattle.lxt_format.specs.Questions.{holding_bits};
ghost use Rattle.lxt_values.specs.Value.{start_content, content_from, Readies, Shows};

use crate::{reals, symbols, texts};
use lxt_changes::delta;
use lxt_format::{Kind, Value};

// The value of the change at `o` of a facility of that kind and width; its symbols go into the lent
// buffer. `order` is the byte order of reals, T is `end`.
pub fn read(
    file: &[u8],
    end: usize,
    order: [u8; 8],
    kind: Kind,
    width: u32,
    o: usize,
    bits: &mut [u8],
) -> Value
    requires { Readies file.now end order kind width o (length bits.old) }
    ensures { (value_shown result ≡ shown (content_by file.now kind width o)) × (bits.new ≡ holding_bits (content_by file.now kind width o) bits.old) }
{
    let at = delta::data_at(file, o);
    match kind {
        Kind::Bits | Kind::Integer => {
            symbols::write(file, width, o, bits);
            Value::Bits { width }
        }
        Kind::Real => {
            let word = reals::bits_of(file, order, at);
            Value::Real {
                number: reals::number(word),
                bits: word,
            }
        }
        Kind::Text => Value::Text {
            start: at as u32,
            length: texts::length(file, at, end) as u32,
        },
    }
}

// What a facility shows before its first change: the initial symbol at every place, or nothing.
fn initial(kind: Kind, width: u32, code: u8, bits: &mut [u8]) -> Value
    requires { width ≤ length bits.old }
    ensures { (value_shown result ≡ shown (start_content kind width code)) × (bits.new ≡ holding_bits (start_content kind width code) bits.old) }
{
    match kind {
        Kind::Bits | Kind::Integer => {
            symbols::fill(width, symbols::symbol_of(code), bits);
            Value::Bits { width }
        }
        Kind::Real | Kind::Text => Value::NotDriven,
    }
}

// The value by the latest change, at `o`; where there is none, what the facility shows before its first one, by the
// code of the initial symbol.
pub fn at(
    file: &[u8],
    end: usize,
    order: [u8; 8],
    code: u8,
    kind: Kind,
    width: u32,
    o: Option<usize>,
    bits: &mut [u8],
) -> Value
    requires { Shows file.now end order kind width o (length bits.old) }
    ensures { (value_shown result ≡ shown (content_from file.now code kind width o)) × (bits.new ≡ holding_bits (content_from file.now code kind width o) bits.old) }
{
    match o {
        Some(o) => read(file, end, order, kind, width, o, bits),
        None => initial(kind, width, code, bits),
    }
}
