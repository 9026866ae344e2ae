// The lines of a printed trace, each put at the start of a lent buffer.
ghost use Rattle.std.specs.Prelude.{◌≡◌, ◌+◌, ◌*◌, ◌≤◌, ◌<◌, ◌++◌, length};
ghost use Rattle.lxt_format.specs.Limits.{widest_facility};
ghost use Rattle.lxt_format.specs.Columns.{onto};
ghost use Rattle.lxt_format.specs.Names.{name_of};
ghost use Rattle.lxt_format.specs.Times.{time_of};
ghost use Rattle.lxt_format.specs.BiasedTimes.{biased, unbiased};
ghost use Rattle.lxt_format.specs.Values.{content_of};
ghost use Rattle.lxt_chains.specs.Pending.{pair_of, Allowed};
ghost use Rattle.lxt_print.specs.Lines.{decimal, signed_decimal, space, facility_line, change_line, done_line, refused_line, kind_word, value_text};
ghost use Rattle.lxt_print.specs.Placing.{Opened, NamesAt, Put, facility_head, facility_end, change_head};

use crate::text::{put_bytes, put_decimal, put_hex};
use lxt_format::{Kind, Value};
use lxt_sections::times::BIAS;
use lxt_tables::Tables;
use lxt_values::names::{NamesLeft, next};
use lxt_values::value::read;

// "refused" and the number.
pub fn refused(k: u8, out: &mut [u8]) -> usize
    requires { 32 ≤ length out.old }
    ensures { (result ≡ length (refused_line k)) × (out.new ≡ onto (refused_line k) out.old) }
{
    let p = put_bytes(out, 0, b"refused ");
    let q = put_decimal(out, p, u64::from(k));
    put_bytes(out, q, b"\n")
}

// "done" and how many changes were printed.
pub fn done(count: u32, out: &mut [u8]) -> usize
    requires { 32 ≤ length out.old }
    ensures { (result ≡ length (done_line count)) × (out.new ≡ onto (done_line count) out.old) }
{
    let p = put_bytes(out, 0, b"done ");
    let q = put_decimal(out, p, u64::from(count));
    put_bytes(out, q, b"\n")
}

// A number and a space.
fn put_number(out: &mut [u8], at: usize, n: u32) -> usize
    requires { at + 21 ≤ length out.old }
    ensures { Put out.old at (decimal n ++ space) result out.new × (result ≤ at + 21) }
{
    let p = put_decimal(out, at, u64::from(n));
    put_bytes(out, p, b" ")
}

fn put_kind(out: &mut [u8], at: usize, kind: Kind) -> usize
    requires { at + 7 ≤ length out.old }
    ensures { Put out.old at (kind_word kind) result out.new × (result ≤ at + 7) }
{
    match kind {
        Kind::Bits => put_bytes(out, at, b"bits"),
        Kind::Integer => put_bytes(out, at, b"integer"),
        Kind::Real => put_bytes(out, at, b"real"),
        Kind::Text => put_bytes(out, at, b"text"),
    }
}

// A facility's number and name.
fn put_facility(f: u32, name: &[u8], out: &mut [u8]) -> usize
    requires { length name.now + 31 ≤ length out.old }
    ensures { Put out.old 0 (facility_head f name.now) result out.new × (result ≤ length name.now + 31) }
{
    let p = put_bytes(out, 0, b"facility ");
    let q = put_number(out, p, f);
    let r = put_bytes(out, q, name);
    put_bytes(out, r, b" ")
}

// A facility's kind and width; of an alias "alias" and its root's number.
fn put_shape(file: &[u8], t: Tables, f: u32, out: &mut [u8], at: usize) -> usize
    requires { Opened file.now t × ((f < t.facilities) × (at + 28 ≤ length out.old)) }
    ensures { Put out.old at (facility_end file.now f) result out.new × (result ≤ at + 28) }
{
    let geometry = t.geometry(file);
    if geometry.is_alias(f) {
        let p = put_bytes(out, at, b"alias ");
        return put_decimal(out, p, u64::from(geometry.root(f)));
    }
    let facts = geometry.own_facts(f);
    let q = put_kind(out, at, facts.kind);
    let r = put_bytes(out, q, b" ");
    put_decimal(out, r, u64::from(facts.width))
}

// A facility: its number, name, kind and width; of an alias "alias" and its root's number.
pub fn facility(file: &[u8], t: Tables, f: u32, name: &[u8], out: &mut [u8]) -> usize
    requires { Opened file.now t × ((f < t.facilities) × ((name.now ≡ name_of file.now f) × (1100 ≤ length out.old))) }
    ensures { (result ≡ length (facility_line file.now f)) × (out.new ≡ onto (facility_line file.now f) out.old) }
{
    let p = put_facility(f, name, out);
    let q = put_shape(file, t, f, out, p);
    put_bytes(out, q, b"\n")
}

// The length of a line that was put, and what is left of the names.
#[derive(Clone, Copy)]
pub struct NamedLine {
    pub size: usize,
    pub names: NamesLeft,
}

// The same line, where the name is the next of those that are left. It is expanded in a lent buffer, which
// holds the name before.
pub fn next_facility(
    file: &[u8],
    t: Tables,
    f: u32,
    names: NamesLeft,
    name: &mut [u8],
    out: &mut [u8],
) -> NamedLine
    requires { Opened file.now t × ((f < t.facilities) × (NamesAt file.now t f names name.old × (1100 ≤ length out.old))) }
    ensures size_value { (result.size ≡ length (facility_line file.now f)) × (out.new ≡ onto (facility_line file.now f) out.old) }
    ensures names_at { NamesAt file.now t (f + 1) result.names name.new }
{
    let rest = next(file, t.end, names, name);
    let size = facility(file, t, f, &name[..rest.before], out);
    NamedLine { size, names: rest }
}

// A time, which has its bias, with "-" where it is negative.
fn put_time(out: &mut [u8], at: usize, time: u64) -> usize
    requires { at + 21 ≤ length out.old }
    ensures { Put out.old at (signed_decimal (unbiased time)) result out.new × (result ≤ at + 21) }
{
    if time < BIAS {
        let p = put_bytes(out, at, b"-");
        return put_decimal(out, p, BIAS - time);
    }
    put_decimal(out, at, time - BIAS)
}

// A change's number, offset and time, which has its bias.
fn put_change(f: u32, o: u32, time: u64, out: &mut [u8]) -> usize
    requires { 80 ≤ length out.old }
    ensures { Put out.old 0 (change_head f o (unbiased time)) result out.new × (result ≤ 80) }
{
    let p = put_bytes(out, 0, b"change ");
    let q = put_number(out, p, f);
    let r = put_number(out, q, o);
    let s = put_time(out, r, time);
    put_bytes(out, s, b" ")
}

// The value of a change: symbols as they are, reals and texts in hexadecimal.
fn put_value(file: &[u8], t: Tables, f: u32, o: u32, out: &mut [u8], at: usize) -> usize
    requires { Opened file.now t × ((f < t.facilities) × (Allowed file.now (pair_of f o) × (at + (2 * length file.now + widest_facility) ≤ length out.old))) }
    ensures { Put out.old at (value_text file.now (content_of file.now f o)) result out.new × (result ≤ at + (2 * length file.now + widest_facility)) }
{
    let facts = t.geometry(file).own_facts(f);
    let value = read(
        file,
        t.end,
        t.order,
        facts.kind,
        facts.width,
        o as usize,
        &mut out[at..],
    );
    match value {
        Value::Bits { width } => at + width as usize,
        Value::Real { bits, .. } => put_hex(out, at, &bits.to_be_bytes()),
        Value::Text { start, length } => {
            let from = start as usize;
            put_hex(out, at, &file[from..from + length as usize])
        }
        Value::NotDriven => at,
    }
}

// A change: its number, offset, time, which has its bias, and value.
pub fn change(file: &[u8], t: Tables, f: u32, o: u32, time: u64, out: &mut [u8]) -> usize
    requires { Opened file.now t × ((f < t.facilities) × (Allowed file.now (pair_of f o) × ((time ≡ biased (time_of file.now o)) × (2 * length file.now + 4200 ≤ length out.old)))) }
    ensures { (result ≡ length (change_line file.now (pair_of f o))) × (out.new ≡ onto (change_line file.now (pair_of f o)) out.old) }
{
    let p = put_change(f, o, time, out);
    let q = put_value(file, t, f, o, out, p);
    put_bytes(out, q, b"\n")
}
