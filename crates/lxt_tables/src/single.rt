// The two sections of one byte.
ghost use Rattle.std.specs.Prelude.{◌≡◌};
ghost use Rattle.lxt_format.specs.Sections.{timescale_of, initial_of};
ghost use Rattle.lxt_tables.specs.Asked.{OneByte};

// The timescale, from -21 to 2; -9 where it is absent or another.
pub fn timescale(file: &[u8], at: u32) -> i8
    requires { OneByte file.now 0x05 at }
    ensures { result ≡ timescale_of file.now }
{
    if at == 0 {
        return -9;
    }
    let scale = file[at as usize].cast_signed();
    if (-21 <= scale) & (scale <= 2) {
        scale
    } else {
        -9
    }
}

// The code of the initial symbol; 3 (X) where it is absent or above 8.
pub fn initial(file: &[u8], at: u32) -> u8
    requires { OneByte file.now 0x07 at }
    ensures { result ≡ initial_of file.now }
{
    if at == 0 {
        return 3;
    }
    let code = file[at as usize];
    if code <= 8 { code } else { 3 }
}
