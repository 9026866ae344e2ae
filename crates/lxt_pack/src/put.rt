// Bytes put into the lent buffer. Each function puts its bytes at a place and leaves the others.
ghost use Rattle.std.specs.Prelude.{◌≡◌, ◌+◌, ◌≤◌, length};
ghost use Rattle.lxt_format.specs.Buffers.{placed};
ghost use Rattle.lxt_written.specs.WrittenChanges.{big_endian};

// The lowest N bytes of a number, big-endian.
pub fn number<const N: usize>(out: &mut [u8], at: usize, x: u32)
    requires bytes { N ≤ 4 }
    requires room { at + N ≤ length out.old }
    ensures { out.new ≡ placed out.old at (big_endian N x) }
{
    out[at..at + N].copy_from_slice(&x.to_be_bytes()[4 - N..]);
}

// Bytes as they are.
pub fn copy(out: &mut [u8], at: usize, bytes: &[u8])
    requires { at + length bytes.now ≤ length out.old }
    ensures { out.new ≡ placed out.old at bytes.now }
{
    // a loop: for copy_from_slice C's callers would have to link memmove
    for (k, byte) in bytes.iter().enumerate() {
        out[at + k] = *byte;
    }
}
