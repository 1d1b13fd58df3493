// What a verdict reads of an exposure: X and Y over both groups.
ghost use Rattle.std.specs.Prelude.{◌≡◌, false, ◌+◌, ◌*◌, ◌≤◌, ◌<◌};
ghost use Rattle.exposure.specs.Exposure.{group_out_of_range, max_days, max_years, max_quarter_hours, max_breathing};
ghost use Rattle.exposure.specs.Totals.{duration, time_of, air_of, totals_of};

use crate::accepted::AcceptedExposure;
use crate::durations::duration_of;
use crate::groups::Group;
use crate::kind::Kind;

// The air that is breathed, X, and the time that is spent, Y.
#[derive(Clone, Copy)]
pub struct Totals {
    pub x: u32,
    pub y: u32,
}

impl Group {
    // Its days times what is counted of its years times its quarter hours.
    fn time(self, duration: u64) -> u64
        requires { (group_out_of_range self ≡ false) × (duration ≤ 100) }
        ensures value { result ≡ time_of self duration }
        ensures range { result ≤ max_days * 100 * max_quarter_hours }
    {
        u64::from(self.days) * duration * u64::from(self.quarter_hours)
    }

    // What it adds to X and Y, of `total` years of both groups. For X its time is taken times its breathing.
    fn totals(self, kind: Kind, total: u64) -> Totals
        requires accepted { group_out_of_range self ≡ false }
        requires years { (self.years ≤ total) × (0 < total) × (total ≤ max_years + max_years) }
        ensures x { result.x ≡ air_of self (duration kind self.years total) }
        ensures x_range { result.x ≤ max_days * 100 * max_quarter_hours * max_breathing }
        ensures y { result.y ≡ time_of self (duration kind self.years total) }
        ensures y_range { result.y ≤ max_days * 100 * max_quarter_hours }
    {
        let time = self.time(duration_of(kind, u64::from(self.years), total));
        // Both ranges fit 32 bits, so that nothing is cut.
        Totals {
            x: (time * u64::from(self.breathing)) as u32,
            y: time as u32,
        }
    }
}

// X and Y of a kind.
#[tactic(auto, using(crate::proofs::WithinLimits::within_limits))]
pub fn totals_of(kind: Kind, accepted: AcceptedExposure) -> Totals
    ensures { result ≡ totals_of kind accepted.exposure }
{
    let exposure = accepted.exposure;
    let child = exposure.child.totals(kind, exposure.years());
    let adult = exposure.adult.totals(kind, exposure.years());
    Totals {
        x: child.x + adult.x,
        y: child.y + adult.y,
    }
}
