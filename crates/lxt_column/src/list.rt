// The facility numbers of a column.
ghost use Rattle.std.specs.Prelude.{◌≡◌, true, ltb};
ghost use Rattle.lxt_format.specs.Basics.{all};
ghost use Rattle.lxt_format.specs.Questions.{widths_of};
ghost use Rattle.lxt_tables.specs.Asked.{Resolved};
ghost use Rattle.lxt_column.specs.Listing.{Listed};

use lxt_tables::Tables;

// Whether all numbers are below `n`.
pub fn all_below(facilities: &[u32], n: u32) -> bool
    ensures { result ≡ all (λ f. ltb f n) facilities.now }
{
    facilities.iter().all(|&f| f < n)
}

// The widths of all facilities of the list together.
pub fn widths(file: &[u8], t: Tables, roots: &[u32], facilities: &[u32]) -> usize
    requires { Listed file.now t facilities.now × Resolved file.now t.facilities true roots.now }
    ensures { result ≡ widths_of file.now facilities.now }
{
    let geometry = t.geometry(file);
    let mut sum: usize = 0;
    for &facility in facilities {
        let root = roots[facility as usize];
        let facts = geometry.own_facts(root);
        sum += facts.width as usize;
    }
    sum
}
