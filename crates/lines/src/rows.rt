// A rate's line, by its answer and its row.
ghost use Rattle.std.specs.Prelude.{ℕ, pos, ◌≡◌, ◌+◌, ◌*◌, ◌≤◌, ◌++◌, length, drop};
ghost use Rattle.text.specs.Words.{most_digits};
ghost use Rattle.lines.specs.Lines.{factors_text, line_room};
ghost use Rattle.book.specs.Limits.{max_members};
ghost use Rattle.lines.specs.Private.Rows.{line_of};

use crate::before::{put_number, put_word};
use crate::fours::FourDigits;

// A space and a factor, for each.
fn put_factors(out: &mut [u8], end: usize, factors: &[u64], fours: &FourDigits) -> usize
    requires room { (most_digits + 1) * length factors.now ≤ end }
    requires within { end ≤ length out.old }
    ensures place { (result ≤ end) × (end ≤ result + (most_digits + 1) * length factors.now) }
    ensures written { drop result out.new ≡ factors_text factors.now ++ drop end out.old }
{
    let mut at = end;
    for i in (0..factors.len()).rev() {
        at = put_number(out, at, factors[i], fours);
        at = put_word(out, at, b" ");
    }
    at
}

// A line, for each rate: where it begins.
pub(crate) fn put_line(
    out: &mut [u8],
    end: usize,
    v: u32,
    answer: i64,
    row: &[u64],
    fours: &FourDigits,
) -> usize
    requires room { line_room ≤ end }
    requires within { end ≤ length out.old }
    requires few { length row.now ≤ max_members }
    requires counted { (n : ℕ) → answer ≡ pos n → n ≤ length row.now }
    ensures place { (result ≤ end) × (end ≤ result + line_room) }
    ensures written { drop result out.new ≡ line_of v answer row.now ++ drop end out.old }
{
    let mut at = put_word(out, end, b"\n");
    if answer < 0 {
        at = put_number(out, at, answer.unsigned_abs(), fours);
        at = put_word(out, at, b" refused ");
    } else {
        at = put_factors(out, at, &row[..(answer as usize)], fours);
    }
    put_number(out, at, u64::from(v), fours)
}
