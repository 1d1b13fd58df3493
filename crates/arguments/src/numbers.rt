// The numbers that stand as arguments, in digits.
ghost use Rattle.std.specs.Prelude.{◌≡◌, ◌+◌, ◌*◌, min, map, string_bytes, None, IfOk, MatchResult};
ghost use Rattle.arguments.specs.Digits.{highest, number_written};

use anyhow::{Result, bail};

// The number that a word writes in digits, or none where it is no such word. Not std's `parse`, which takes a sign and
// refuses a number that is too high.
pub fn number_written(word: &[u8]) -> Option<u32>
    ensures { result ≡ number_written word.now }
{
    if word.is_empty() {
        return None;
    }
    let mut number: u32 = 0;
    for byte in word {
        if !byte.is_ascii_digit() {
            return None;
        }
        number = with_digit(number, *byte - b'0');
    }
    Some(number)
}

// Ten times the number and a digit, where that fits.
fn with_digit(number: u32, digit: u8) -> u32
    ensures { result ≡ min (number * 10 + digit) highest }
{
    number.saturating_mul(10).saturating_add(u32::from(digit))
}

// The number that a word writes; where it writes none, that is told, with what is wanted.
pub fn read_number(word: &str, wanted: &str) -> Result<u32>
    ensures { MatchResult result (λ number. number_written word.now ≡ Some number)
        (λ _. number_written word.now ≡ None) }
{
    match number_written(word.as_bytes()) {
        Some(number) => Ok(number),
        None => bail!("{word}: {wanted}"),
    }
}

// The numbers that the words write; the first that writes none is told, with what is wanted.
pub fn read_numbers(rt: &HostRuntime, words: &[String], wanted: &str) -> Result<Vec<u32>>
    ensures { IfOk result (λ numbers.
        map Some numbers.items ≡ map (λ word. number_written (string_bytes word)) words.now) }
{
    let mut numbers = Vec::new(rt.alloc());
    for word in words {
        numbers.push(read_number(word.as_str(), wanted)?)?;
    }
    Ok(numbers)
}
