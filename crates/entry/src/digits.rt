// The nine characters of four digits and an exponent.
ghost use Rattle.std.specs.Prelude.{◌≡◌, [], ◌∷◌};
ghost use Rattle.entry.specs.Form.{digit, sign, form};

use crate::ENTRY_LENGTH;
use crate::scaling::Share;

// The last digit of a number. By hand, since `char::from_digit` answers an Option, and a char of four bytes.
fn digit(n: u64) -> u8
    ensures { result ≡ digit n }
{
    // Below ten, so that nothing is cut.
    b'0' + (n % 10) as u8
}

// A plus stands before 00 alone.
fn sign(e: u64) -> u8
    ensures { result ∷ [] ≡ sign e }
{
    if e == 0 { b'+' } else { b'-' }
}

impl Share {
    // The nine characters of a share; no digit but the last four, or the exponent's last two, is shown.
    pub fn printed(self) -> [u8; ENTRY_LENGTH]
        ensures { result ≡ form self.thousandths self.exponent }
    {
        let d = self.thousandths;
        let e = self.exponent;
        [
            digit(d / 1000),
            b'.',
            digit(d / 100),
            digit(d / 10),
            digit(d),
            b'E',
            sign(e),
            digit(e / 10),
            digit(e),
        ]
    }
}
