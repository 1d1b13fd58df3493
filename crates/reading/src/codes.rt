// What the codes of a unit and of a medium stand for. Any other code is ground 2's.
ghost use Rattle.std.specs.Prelude.{◌≡◌};
ghost use Rattle.reading.specs.Reading.{amount_in, amount_of, unit_coded, unit_of, medium_coded, medium_of};

use crate::amounts::{Amount, Medium, Unit};
use refusals::Refusal;

impl TryFrom<u8> for Unit {
    type Error = Refusal;

    ghost try_from_gives = { λ code unit. unit ≡ unit_coded code };

    fn try_from(code: u8) -> Result<Unit, Refusal> {
        match code {
            0 => Ok(Unit::PicocuriesPerLitre),
            1 => Ok(Unit::PicocuriesPerCubicMetre),
            2 => Ok(Unit::BecquerelsPerCubicMetre),
            _ => Err(Refusal::CodeUnknown),
        }
    }
}

impl TryFrom<u8> for Medium {
    type Error = Refusal;

    ghost try_from_gives = { λ code medium. medium ≡ medium_coded code };

    fn try_from(code: u8) -> Result<Medium, Refusal> {
        match code {
            0 => Ok(Medium::IndoorAir),
            1 => Ok(Medium::SoilGas),
            2 => Ok(Medium::Groundwater),
            _ => Err(Refusal::CodeUnknown),
        }
    }
}

impl Unit {
    pub(crate) fn amount(self, x: f64) -> Amount
        ensures { result ≡ amount_in self x }
    {
        match self {
            Unit::PicocuriesPerLitre => Amount::PicocuriesPerLitre(x),
            Unit::PicocuriesPerCubicMetre => Amount::PicocuriesPerCubicMetre(x),
            Unit::BecquerelsPerCubicMetre => Amount::BecquerelsPerCubicMetre(x),
        }
    }
}

// Units 0, 1, 2; any other code is taken as 2, and the job reader refuses it.
#[tactic(auto, using(crate::proofs::ThreeCodes::unit_taken))]
pub fn unit(code: u8) -> Unit
    ensures { result ≡ unit_of code }
{
    Unit::try_from(code).unwrap_or(Unit::BecquerelsPerCubicMetre)
}

// An amount in the unit of a code.
pub fn amount(code: u8, x: f64) -> Amount
    ensures { result ≡ amount_of code x }
{
    unit(code).amount(x)
}

// Media 0, 1, 2; any other code is taken as 2, and the job reader refuses it.
#[tactic(auto, using(crate::proofs::ThreeCodes::medium_taken))]
pub fn medium(code: u8) -> Medium
    ensures { result ≡ medium_of code }
{
    Medium::try_from(code).unwrap_or(Medium::Groundwater)
}
