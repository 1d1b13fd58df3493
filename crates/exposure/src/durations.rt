// What is counted of a group's years: the years themselves for risk, and their share of both groups' years for dose.
ghost use Rattle.std.specs.Prelude.{◌≡◌, ◌+◌, ◌≤◌, ◌<◌};
ghost use Rattle.exposure.specs.Exposure.{max_years};
ghost use Rattle.exposure.specs.Totals.{duration};

use crate::kind::Kind;
use rounding::nearest;

// The shares of the years are hundredths.
pub const HUNDREDTHS: u64 = 100;

// A share is rounded to the nearest hundredth, halves up.
#[tactic(auto, using(crate::proofs::Shares::parts))]
pub(crate) fn duration_of(kind: Kind, years: u64, total: u64) -> u64
    requires { (years ≤ max_years) × (years ≤ total) × (0 < total) × (total ≤ max_years + max_years) }
    ensures value { result ≡ duration kind years total }
    ensures range { result ≤ 100 }
{
    match kind {
        Kind::Risk => years,
        Kind::Dose => nearest(HUNDREDTHS * years, total),
    }
}
