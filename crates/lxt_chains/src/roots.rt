// The pending offsets from which all changes of a file follow: the sync entry of each root.
ghost use Rattle.std.specs.Prelude.{◌≡◌, ◌≤◌, ◌<◌, length};
ghost use Rattle.lxt_chains.specs.Pending.{root_offsets};
ghost use Rattle.lxt_chains.specs.Reading.{Ready, root_offset, FirstOffsets};
ghost use Rattle.lxt_chains.specs.Tree.{Blank, Holding};

use crate::chains::Chains;
use lxt_tables::geometry;

// The pending offset from which all changes of a facility follow; an alias has none.
fn root_offset(file: &[u8], c: Chains, f: u32) -> u32
    requires { Ready file.now c × (f < c.facilities) }
    ensures { result ≡ root_offset file.now f }
{
    if c.geometry(file).is_alias(f) {
        return 0;
    }
    geometry::sync_of(file, c.sync, c.facilities, f)
}

// Those of all facilities, in the leaves of a tree.
pub fn put_root_offsets(file: &[u8], c: Chains, nodes: &mut [u32], m: usize)
    requires { Ready file.now c × ((c.facilities ≤ m) × Blank m nodes.old) }
    ensures { Holding (root_offsets file.now) m nodes.new }
{
    for f in 0..c.facilities {
        nodes[m + f as usize] = root_offset(file, c, f);
    }
}

// Those of the first facilities, as many as there is room for.
pub fn put_offsets(file: &[u8], c: Chains, pending: &mut [u32])
    requires { Ready file.now c × (length pending.old ≤ c.facilities) }
    ensures { FirstOffsets file.now (length pending.old) pending.new }
{
    for (f, pending) in pending.iter_mut().enumerate() {
        *pending = root_offset(file, c, f as u32);
    }
}
