// Bytes without a zero.
ghost use Rattle.std.specs.Prelude.{◌≡◌};
ghost use Rattle.lxt_written.specs.Writing.{no_zero};

// No byte is 0.
pub fn no_zero(bytes: &[u8]) -> bool
    ensures { result ≡ no_zero bytes.now }
{
    !bytes.contains(&0)
}
