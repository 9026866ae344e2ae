// The first pass: whether the input is allowed, and the sizes of what is to be written.
ghost use Rattle.std.specs.Prelude.{◌≡◌, ◌&&◌, ◌≤◌, length, leb};
ghost use Rattle.lxt_format.specs.Limits.{most_facilities};
ghost use Rattle.lxt_format.specs.Sections.{timescale_allowed};
ghost use Rattle.lxt_writer.specs.Changes.{Widths, ChangesMeasured};
ghost use Rattle.lxt_writer.specs.Plan.{Planned};

use crate::changes;
use lxt_facilities::names;
use lxt_format::{File, Summary};
use lxt_layout::Sizes;

// What the first pass finds where all is allowed: the sizes of the file's parts and the memory M of the names.
#[derive(Clone, Copy)]
pub struct Plan {
    pub sizes: Sizes,
    pub memory: usize,
}

// The number of facilities, the timescale and the code of the initial symbol.
fn values_allowed(count: usize, initial: u8, timescale: i8) -> bool
    ensures { result ≡ (leb count most_facilities && (timescale_allowed timescale && leb initial 8)) }
{
    count <= Summary::MOST_FACILITIES as usize
        && lxt_layout::timescale_is_allowed(timescale)
        && initial <= 8
}

fn measure_changes(
    facilities: &[[u32; 5]],
    changes: &[[u32; 4]],
    values: &[u8],
) -> Option<changes::Measured>
    requires { Widths facilities.now × (length facilities.now ≤ most_facilities) }
    ensures { ChangesMeasured facilities.now changes.now values.now result }
{
    let mut last = [0u32; Summary::MOST_FACILITIES as usize];
    changes::measure(facilities, changes, values, &mut last[..facilities.len()])
}

pub fn plan_for(
    facilities: &[[u32; 5]],
    names: &[u8],
    changes: &[[u32; 4]],
    values: &[u8],
    initial: u8,
    timescale: i8,
) -> Option<Plan>
    ensures { Planned facilities.now names.now changes.now values.now initial timescale result }
{
    let n = facilities.len();
    if !values_allowed(n, initial, timescale) {
        return None;
    }
    let f = names::measure(facilities, names)?;
    let c = measure_changes(facilities, changes, values)?;
    let sizes = Sizes {
        facilities: n,
        names: f.size,
        changes: c.end,
        entries: c.entries,
        real: f.real,
    };
    let places = lxt_layout::placed_by(sizes);
    if places.length > File::LONGEST {
        return None;
    }
    Some(Plan {
        sizes,
        memory: f.memory,
    })
}
