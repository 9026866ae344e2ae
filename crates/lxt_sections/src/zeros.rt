// Zero-terminated bytes.
ghost use Rattle.std.specs.Prelude.{◌≡◌, ◌+◌, ◌-◌, ◌≤◌, length};
ghost use Rattle.std.proofs.Math.Seq.{slice};
ghost use Rattle.lxt_format.specs.Bytes.{to_zero};

// The offset of the first zero from `from` on before `end`; where there is none, `end`, or `from` where that is
// higher.
pub fn zero_from(file: &[u8], from: usize, end: usize) -> usize
    requires { end ≤ length file.now }
    ensures { (result ≡ from + to_zero (slice from end file.now)) × (result - from ≤ end - from) }
{
    for p in from..end {
        if file[p] == 0 {
            return p;
        }
    }
    from.max(end)
}
