// An exposure within its limits.
ghost use Rattle.std.specs.Prelude.{◌≡◌, false, Ok, Err, MatchResult};
ghost use Rattle.exposure.specs.Exposure.{exposure_out_of_range, exposure_answer};

use crate::groups::{Exposure, out_of_range};
use refusals::Refusal;

#[derive(Clone, Copy)]
pub struct AcceptedExposure {
    pub exposure: Exposure,
    pub ghost within: { exposure_out_of_range exposure ≡ false },
}

// Ground 6 refuses any other.
impl TryFrom<Exposure> for AcceptedExposure {
    type Error = Refusal;

    ghost try_from_gives = { λ exposure answer.
        MatchResult answer
        (λ accepted. exposure_answer exposure ≡ Ok accepted.exposure)
        (λ refusal. exposure_answer exposure ≡ Err refusal) };

    fn try_from(exposure: Exposure) -> Result<AcceptedExposure, Refusal> {
        if out_of_range(exposure) {
            return Err(Refusal::ExposureOutOfRange);
        }
        Ok(AcceptedExposure { exposure })
    }
}
