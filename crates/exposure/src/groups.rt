// Who is in the room, and for how long: the two groups, their limits and the defaults.
ghost use Rattle.std.specs.Prelude.{◌≡◌};
ghost use Rattle.exposure.specs.Totals.{Z};
ghost use Rattle.exposure.specs.Exposure.{group_out_of_range, exposure_out_of_range};
ghost use Rattle.exposure.specs.Exposure.{exposure_answer, residential, worker};

use crate::accepted::AcceptedExposure;
use refusals::Refusal;

const MAX_DAYS: u16 = 366;

const MAX_YEARS: u16 = 100;

const MAX_QUARTER_HOURS: u16 = 96;

const MAX_BREATHING: u16 = 100;

// The quarter hours per day of a resident and of a worker.
const ALL_DAY: u16 = 96;

const SHIFT: u16 = 32;

// A group's days per year EF, years ED, quarter hours per day ET and breathing IRA in m³ per day.
#[derive(Clone, Copy)]
pub struct Group {
    pub days: u16,
    pub years: u16,
    pub quarter_hours: u16,
    pub breathing: u16,
}

impl Group {
    fn out_of_range(self) -> bool
        ensures { result ≡ group_out_of_range self }
    {
        (self.days > MAX_DAYS)
            | (self.years > MAX_YEARS)
            | (self.quarter_hours > MAX_QUARTER_HOURS)
            | (self.breathing > MAX_BREATHING)
    }
}

#[derive(Clone, Copy)]
pub struct Exposure {
    pub child: Group,
    pub adult: Group,
}

impl Exposure {
    // The defaults of source 001: a resident, and a worker.
    pub const RESIDENTIAL: Exposure = Exposure {
        child: Group {
            days: 350,
            years: 6,
            quarter_hours: ALL_DAY,
            breathing: 10,
        },
        adult: Group {
            days: 350,
            years: 20,
            quarter_hours: ALL_DAY,
            breathing: 20,
        },
    };

    pub const WORKER: Exposure = Exposure {
        child: Group {
            days: 0,
            years: 0,
            quarter_hours: 0,
            breathing: 0,
        },
        adult: Group {
            days: 250,
            years: 25,
            quarter_hours: SHIFT,
            breathing: 60,
        },
    };

    // The constants are the definitions' defaults.
    fn residential_default() -> Exposure
        ensures { result ≡ residential }
    {
        Exposure::RESIDENTIAL
    }

    fn worker_default() -> Exposure
        ensures { result ≡ worker }
    {
        Exposure::WORKER
    }

    // Z.
    pub(crate) fn years(self) -> u64
        ensures { result ≡ Z self }
    {
        u64::from(self.child.years) + u64::from(self.adult.years)
    }

    // Refuses a group over its limits, and a Z of 0.
    pub fn new(child: Group, adult: Group) -> Result<Exposure, Refusal>
        ensures { result ≡ exposure_answer (record { child = child; adult = adult }) }
    {
        let accepted = AcceptedExposure::try_from(Exposure { child, adult })?;
        Ok(accepted.exposure)
    }
}

// Ground 6.
#[tactic(auto, unfolding(crate::specs::Exposure::exposure_out_of_range))]
pub fn out_of_range(exposure: Exposure) -> bool
    ensures { result ≡ exposure_out_of_range exposure }
{
    exposure.child.out_of_range() | exposure.adult.out_of_range() | (exposure.years() == 0)
}
