//! Seeds files, as bytes.
ghost use Rattle.std.specs.Prelude.{◌≤◌, length, IfOk, IfErr};
ghost use Rattle.bf_seeds.specs.Seeds.{ArePlacesOfFile, IsFaultOfFile};

use crate::fault::SeedsFault;
use crate::reading::places_in_text;
use bf_dependents::Place;
use bf_interval::Interval;
use bf_plan::Plan;
use std::alloc::Global;

/// How many bytes a seeds file may have, 8 MiB.
pub const LONGEST_FILE: usize = 8_388_608;

/// The places that the bytes of a seeds file name, in order. `BadFile` where it has more than 8,388,608 bytes or isn't
/// UTF-8; for the first bad line `BadSeed` where it has another form, or `Unknown` where the plan lacks its task or its
/// run is the start of no data interval. `OutOfMemory` where memory ran out.
pub fn read_seeds(
    alloc: Global,
    plan: &Plan,
    intervals: &[Interval],
    bytes: &[u8],
) -> Result<Vec<Place>, SeedsFault>
    requires few { length intervals.now ≤ 4_096 }
    ensures ok { IfOk result (λ places. ArePlacesOfFile plan.now.dag intervals.now bytes.now
        places.items) }
    ensures err { IfErr result (IsFaultOfFile plan.now.dag intervals.now bytes.now) }
{
    if bytes.len() > LONGEST_FILE {
        return Err(SeedsFault::BadFile);
    }
    match std::str::from_utf8(bytes) {
        Ok(text) => places_in_text(alloc, plan, intervals, text),
        Err(_) => Err(SeedsFault::BadFile),
    }
}
