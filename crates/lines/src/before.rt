// What is written before a place of a list: the list from where it begins is then that, and what stood from the place
// on.
ghost use Rattle.std.specs.Prelude.{◌≡◌, ◌+◌, ◌≤◌, ◌<◌, ◌++◌, length, drop};
ghost use Rattle.text.specs.Words.{decimal, most_digits};

use crate::fours::FourDigits;

// A word: where it begins.
pub(crate) fn put_word(out: &mut [u8], end: usize, word: &[u8]) -> usize
    requires room { length word.now ≤ end }
    requires within { end ≤ length out.old }
    ensures place { result + length word.now ≡ end }
    ensures written { drop result out.new ≡ word.now ++ drop end out.old }
{
    let start = end - word.len();
    out[start..end].copy_from_slice(word);
    start
}

// A number in decimal: where it begins. Up to three zeros may be written before it.
#[tactic(auto, using(crate::proofs::FromTheEnd::from_the_end))]
pub(crate) fn put_number(out: &mut [u8], end: usize, n: u64, fours: &FourDigits) -> usize
    requires room { most_digits ≤ end }
    requires within { end ≤ length out.old }
    ensures place { result + length (decimal n) ≡ end }
    ensures written { drop result out.new ≡ decimal n ++ drop end out.old }
{
    let mut at = end;
    let mut left = n;
    while 10_000 <= left {
        at -= 4;
        put_four(out, at, fours.digits[(left % 10_000) as usize]);
        left /= 10_000;
    }
    put_four(out, at - 4, fours.digits[left as usize]);
    at - digit_count(left)
}

// Four digits, by value: lent, they might lie in the list itself, as far as the compiler can tell.
fn put_four(out: &mut [u8], at: usize, digits: [u8; 4])
    requires { at + 4 ≤ length out.old }
    ensures { drop at out.new ≡ digits ++ drop (at + 4) out.old }
{
    out[at..at + 4].copy_from_slice(&digits);
}

// How many digits a number below 10,000 has.
fn digit_count(n: u64) -> usize
    requires { n < 10000 }
    ensures { result ≡ length (decimal n) }
{
    1 + usize::from(10 <= n) + usize::from(100 <= n) + usize::from(1_000 <= n)
}
