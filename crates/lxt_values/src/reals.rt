// Reals: their 64 bits in the byte order of the trace, and the number that the bits are.
ghost use Rattle.std.specs.Prelude.{◌≡◌, ◌+◌, ◌≤◌, length};
ghost use Rattle.lxt_format.specs.Reals.{bits_in_order, real_of};
ghost use Rattle.lxt_values.specs.Reals.{Places};

// The 64 bits of the real whose data starts at `at`; byte i, lowest first, stands at place order[i].
pub fn bits_of(file: &[u8], order: [u8; 8], at: usize) -> u64
    requires { Places order × (at + 8 ≤ length file.now) }
    ensures { result ≡ bits_in_order file.now at order }
{
    let mut bits: u64 = 0;
    for i in (0..8).rev() {
        let place = usize::from(order[i]);
        bits = bits * 256 + u64::from(file[at + place]);
    }
    bits
}

// The bits of an infinity without the sign: those above it, without the sign, are a NaN's.
const INFINITY: u64 = 0x7ff0_0000_0000_0000;

// The weight of the sign.
const SIGN: u64 = 0x8000_0000_0000_0000;

// The number of 64 bits. A NaN's bits give the one NaN.
pub fn number(bits: u64) -> f64
    ensures { result ≡ real_of bits }
{
    if INFINITY < bits % SIGN {
        return 0.0 / 0.0;
    }
    f64::from_bits(bits)
}
