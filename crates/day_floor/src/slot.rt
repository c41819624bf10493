// What a finding says, as a slot keeps it.
ghost use Rattle.std.specs.Prelude.{◌≡◌};
ghost use Rattle.day_floor.specs.Slots.{found_of};
ghost use Rattle.ways_expressway.specs.Findings.{shown};

use crate::due_slot::Found;
use ways_expressway::Finding;

/// What a finding says.
pub(crate) fn said(finding: Finding) -> Found
    ensures { result ≡ found_of (shown finding).1 }
{
    Found {
        lav: finding.lav,
        toll: finding.toll,
        alert: finding.alert,
    }
}
