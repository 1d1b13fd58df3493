// What a room is judged on: a risk, or a yearly dose.
ghost use Rattle.std.specs.Prelude.{◌≡◌};
ghost use Rattle.exposure.specs.Exposure.{kind_coded};

use refusals::Refusal;

#[derive(Clone, Copy, PartialEq, Eq)]
pub enum Kind {
    Risk,
    Dose,
}

// Any other code is ground 2's.
impl TryFrom<u8> for Kind {
    type Error = Refusal;

    ghost try_from_gives = { λ code kind. kind ≡ kind_coded code };

    fn try_from(code: u8) -> Result<Kind, Refusal> {
        match code {
            0 => Ok(Kind::Risk),
            1 => Ok(Kind::Dose),
            _ => Err(Refusal::CodeUnknown),
        }
    }
}
