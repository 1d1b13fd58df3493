// What stands at the places of an entry, d.dddE-dd.
ghost use Rattle.std.specs.Prelude.{◌≡◌, ◌<◌, ◌≤◌, ◌^◌};
ghost use Rattle.printed.specs.Places.{digit_at, number_at, share_at, of_form};

use entry::Share;
use numbers::u8_at;

// What a byte is as a digit; the nine characters of the form show whether it is one.
fn digit_at(bytes: &[u8], at: u32) -> u64
    ensures digit { result ≡ digit_at bytes.now at }
    ensures small { result < 256 }
{
    u64::from(u8_at(bytes, at).saturating_sub(b'0'))
}

// The number that so many digits from `at` on write, if they are digits. No byte is 256 more than '0', so that a digit
// more makes the number less than 1,000 times as large.
#[tactic(auto, unfolding(crate::specs::Places::number_at))]
pub fn number_at(bytes: &[u8], at: u32, digits: u32) -> u64
    requires { (at < 2 ^ 31) × (digits ≤ 6) }
    ensures number { result ≡ number_at bytes.now at digits }
    ensures small { result < 1000 ^ digits }
{
    let mut number: u64 = 0;
    for k in 0..digits {
        number = number * 10 + digit_at(bytes, at + k);
    }
    number
}

// The share that the characters from `at` on print, if they print one.
pub fn share_at(bytes: &[u8], at: u32) -> Share
    requires { at < 2 ^ 30 }
    ensures { result ≡ share_at bytes.now at }
{
    Share {
        thousandths: number_at(bytes, at, 1) * 1000 + number_at(bytes, at + 2, 3),
        exponent: number_at(bytes, at + 7, 2),
    }
}

// Whether a share is a number of the form, or zero.
pub fn of_form(share: Share) -> bool
    ensures { result ≡ of_form share }
{
    let d = share.thousandths;
    let e = share.exponent;
    (d == 0 && e == 0) || (1000 <= d && d <= 9999 && e <= 99)
}
