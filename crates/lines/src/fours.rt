// The four digits of every number below 10,000, so that a long number is written four digits at a time.
ghost use Rattle.std.specs.Prelude.{◌≡◌, ◌+◌, ◌%◌};
ghost use Rattle.lines.specs.Digits.{four_digits, HoldsFourDigits};

const FOURS: usize = 10_000;

// Worked out when a program starts: as a constant it would be 40,000 bytes that a proof has to read.
#[derive(Drop)]
pub struct FourDigits {
    pub(crate) digits: [[u8; 4]; FOURS],
    pub ghost right: { HoldsFourDigits digits },
}

impl FourDigits {
    pub fn new() -> FourDigits
        ensures { HoldsFourDigits result.digits }
    {
        let mut digits = [[0u8; 4]; FOURS];
        for n in 0..FOURS {
            digits[n] = four_digits(n);
        }
        FourDigits { digits }
    }
}

// With zeros before it.
fn four_digits(n: usize) -> [u8; 4]
    ensures { result ≡ four_digits n }
{
    [digit(n / 1_000), digit(n / 100), digit(n / 10), digit(n)]
}

// The last digit of a number.
fn digit(n: usize) -> u8
    ensures { result ≡ 48 + n % 10 }
{
    // Below 10, so that the cast cuts nothing.
    b'0' + (n % 10) as u8
}
