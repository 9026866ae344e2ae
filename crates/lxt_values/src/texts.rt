// Zero-terminated bytes.
ghost use Rattle.std.specs.Prelude.{◌≡◌, ◌-◌, ◌≤◌, length};
ghost use Rattle.std.proofs.Math.Seq.{slice};
ghost use Rattle.lxt_format.specs.Bytes.{to_zero};

use lxt_sections::zeros::zero_from;

// How many bytes stand from `from` on before the first zero, or before `end` where there is none.
pub fn length(file: &[u8], from: usize, end: usize) -> usize
    requires { end ≤ length file.now }
    ensures { (result ≡ to_zero (slice from end file.now)) × (result ≤ end - from) }
{
    zero_from(file, from, end) - from
}
