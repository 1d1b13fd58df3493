// The lines of a run.
ghost use Rattle.std.specs.Prelude.{◌≡◌, ◌*◌, ◌≤◌, length, drop};
ghost use Rattle.book.specs.Limits.{max_members};
ghost use Rattle.portfolios.specs.Run.{answers_left, rows_left};
ghost use Rattle.lines.specs.Lines.{lines_text, line_room};

use crate::fours::FourDigits;
use crate::rows::put_line;
use book::MAX_MEMBERS;
use portfolios::factors_at_rates;

// As long as any line is.
pub const LINE_ROOM: usize = 357;

// The line of every rate, at the end of `out`: where they begin. Answers and rows are left in the lists beside it, as
// by the call for many rates. What stands before the lines is room to work in.
pub fn write_lines(
    rates: &[u32],
    book: &[u8],
    answers: &mut [i64],
    rows: &mut [u64],
    out: &mut [u8],
    fours: &FourDigits,
) -> usize
    requires answers { length rates.now ≤ length answers.old }
    requires rows { max_members * length rates.now ≤ length rows.old }
    requires room { line_room * length rates.now ≤ length out.old }
    ensures answers { answers.new ≡ answers_left rates.now book.now max_members answers.old rows.old }
    ensures rows { rows.new ≡ rows_left rates.now book.now max_members answers.old rows.old }
    ensures place { result ≤ length out.new }
    ensures written { drop result out.new ≡ lines_text book.now rates.now }
{
    factors_at_rates(rates, book, MAX_MEMBERS, answers, rows);
    let mut at = out.len();
    for k in (0..rates.len()).rev() {
        let row = &rows[MAX_MEMBERS * k..MAX_MEMBERS * (k + 1)];
        at = put_line(out, at, rates[k], answers[k], row, fours);
    }
    at
}
