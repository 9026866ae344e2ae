// Text put into a lent buffer. Each function puts its text at a place and answers the place after it.
ghost use Rattle.std.specs.Prelude.{◌≡◌, ◌+◌, ◌*◌, ◌≤◌, ◌<◌, length};
ghost use Rattle.lxt_print.specs.Lines.{decimal, hex_digit, hex_bytes};
ghost use Rattle.lxt_print.specs.Placing.{Put};

// Bytes as they are.
pub fn put_bytes(out: &mut [u8], at: usize, bytes: &[u8]) -> usize
    requires { at + length bytes.now ≤ length out.old }
    ensures { Put out.old at bytes.now result out.new }
{
    let end = at + bytes.len();
    out[at..end].copy_from_slice(bytes);
    end
}

// How many digits a number has.
fn places(n: u64) -> usize
    ensures { (result ≡ length (decimal n)) × (result ≤ 20) }
{
    let mut k = 1;
    let mut rest = n / 10;
    // digits that are left, not a count
    while 0 < rest {
        rest /= 10;
        k += 1;
    }
    k
}

// A number in decimal. Its digits are stored from the last to the first.
pub fn put_decimal(out: &mut [u8], at: usize, n: u64) -> usize
    requires { at + 20 ≤ length out.old }
    ensures { Put out.old at (decimal n) result out.new × (result ≤ at + 20) }
{
    let end = at + places(n);
    let mut rest = n;
    for i in (at..end).rev() {
        out[i] = b'0' + (rest % 10) as u8;
        rest /= 10;
    }
    end
}

fn hex_digit(d: u8) -> u8
    requires { d < 16 }
    ensures { result ≡ hex_digit d }
{
    if d < 10 { b'0' + d } else { b'a' - 10 + d }
}

// Bytes in hexadecimal, two digits each.
pub fn put_hex(out: &mut [u8], at: usize, bytes: &[u8]) -> usize
    requires { at + 2 * length bytes.now ≤ length out.old }
    ensures { Put out.old at (hex_bytes bytes.now) result out.new × (result ≡ at + 2 * length bytes.now) }
{
    let mut p = at;
    for &b in bytes {
        out[p] = hex_digit(b / 16);
        out[p + 1] = hex_digit(b % 16);
        p += 2;
    }
    p
}
