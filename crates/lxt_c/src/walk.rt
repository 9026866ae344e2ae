// The walk for C: starting one, and carrying on.
ghost use Rattle.std.specs.Prelude.{◌≡◌, length};
ghost use Rattle.lxt_format.specs.Questions.{start_asked, start_record, carry_asked, carry_record, carry_output};
ghost use Rattle.lxt_c.specs.Numbers.{number_of, carry_numbers};

use lxt_format::Pair;

// Starts a walk over the facilities whose byte in `asked` is not 0; the record is written into the lent
// pairs.
#[unsafe(no_mangle)]
pub extern "C" fn lxt_start_walk(file: &[u8], asked: &[u8], pairs: &mut [Pair]) -> u32
    ensures { (result ≡ number_of (start_asked file.now asked.now (length pairs.old))) × (pairs.new ≡ start_record file.now asked.now pairs.old) }
{
    match lxt_record::start(file, asked, pairs) {
        Ok(()) => 0,
        Err(r) => u32::from(r.number()),
    }
}

// Carries on with a walk by up to `size` changes, which go into the output buffer by number and offset: how many
// were handed out, and 1 where all pending offsets are 0, else 0.
#[unsafe(no_mangle)]
pub extern "C" fn lxt_carry_on(
    file: &[u8],
    pairs: &mut [Pair],
    size: u32,
    output: &mut [u32],
    answer: &mut [u32; 2],
) -> u32
    ensures { (result ≡ number_of (carry_asked file.now pairs.old size (length output.old))) × (answer.new ≡ carry_numbers (carry_asked file.now pairs.old size (length output.old)) answer.old) × (output.new ≡ carry_output file.now pairs.old size output.old) × (pairs.new ≡ carry_record file.now pairs.old size (length output.old)) }
{
    match lxt_record::carry_on(file, pairs, size, output) {
        Ok(h) => {
            *answer = [h.count, u32::from(h.done)];
            0
        }
        Err(r) => u32::from(r.number()),
    }
}
