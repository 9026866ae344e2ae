// The names of a trace: refusal 10. No name is kept; the lengths decide.
ghost use Rattle.std.specs.Prelude.{◌≡◌, ◌≤◌, length, IfSome};
ghost use Rattle.lxt_tables.specs.Asked.{Placed};
ghost use Rattle.lxt_tables.specs.Steps.{end_of_names, name_table_end};

use lxt_format::NameCursor;
use lxt_sections::zeros::zero_from;
use lxt_sections::{Sections, be16, be32};

// The offset after the last of `n` names that stand from `at` up to `end`; none where they break a rule, or M is
// too small for them.
pub fn names_end(file: &[u8], at: usize, end: usize, n: u32, memory: u32) -> Option<usize>
    requires { (at ≤ end) × (end ≤ length file.now) }
    ensures value { result ≡ end_of_names file.now at end n memory }
    ensures within { IfSome result (λ next. next ≤ end) }
{
    let mut next = NameCursor::fresh(at, memory as usize);
    for _ in 0..n {
        let p = next.at;
        if end - p < 2 {
            return None;
        }
        let prefix = be16(file, p) as usize;
        let from = p + 2;
        let zero = zero_from(file, from, end);
        let length = prefix + (zero - from);
        let allowed = (prefix <= next.before)
            & ((zero < end)
                & (NameCursor::length_is_allowed(length) & (length + 1 <= next.memory)));
        if !allowed {
            return None;
        }
        next = NameCursor {
            at: zero + 1,
            before: length,
            memory: next.memory - (length + 1),
        };
    }
    Some(next.at)
}

// The offset after the last name; none is refusal 10. The names follow the head, which holds n and M.
pub fn name_table_end(file: &[u8], p: Sections) -> Option<u32>
    requires { Placed file.now p }
    ensures { result ≡ name_table_end file.now }
{
    let head = p.names as usize;
    let memory = be32(file, head + 4);
    let end = names_end(file, head + 8, p.end, p.facilities, memory)?;
    Some(end as u32)
}
