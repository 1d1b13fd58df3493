// An answer as one signed number: the answer itself, or minus the refusal's number.
ghost use Rattle.std.specs.Prelude.{◌≡◌, ◌<◌, ◌^◌, IfOk};
ghost use Rattle.refusals.specs.Grounds.{refused_number, answer_number};

use super::Refusal;

// Minus the number of the refusal.
pub fn refused_number(refusal: Refusal) -> i64
    ensures { result ≡ refused_number refusal }
{
    // A refusal's number is below 2^63, so that the cast cuts nothing.
    -(u64::from(refusal) as i64)
}

// A count or a length, or its refusal.
pub fn answer_number(answer: Result<usize, Refusal>) -> i64
    requires { IfOk answer (λ n. n < 2 ^ 63) }
    ensures { result ≡ answer_number answer }
{
    match answer {
        Ok(n) => n as i64,
        Err(refusal) => refused_number(refusal),
    }
}
