// The next rates of a run: four side by side where they can be, and otherwise one.
ghost use Rattle.std.specs.Prelude.{IfSome, pos, ◌≡◌, ◌*◌, ◌≤◌, ◌<◌, [], ◌∷◌, ◌++◌, length, take, drop};
ghost use Rattle.refusals.specs.Grounds.{first_met, answer_number};
ghost use Rattle.book.specs.Fields.{members};
ghost use Rattle.book.specs.BookGrounds.{book_grounds};
ghost use Rattle.balance.specs.Factors.{factor_answer, factor_list};
ghost use Rattle.portfolios.specs.Rows.{rows_at, answers_at};
ghost use Rattle.portfolios.specs.Private.Next.{NextRun};

use crate::four::Four;
use crate::rows::four_rows;
use balance::factors_read;
use book::{AcceptedChain, HeldChain, Rate};
use refusals::{Refusal, answer_number};

// The first four rates, where there are so many and none is too high.
fn four_rates(rates: &[u32]) -> Option<Four<Rate>>
    ensures { IfSome result (λ v. rates.now
        ≡ v.a.hundredths ∷ v.b.hundredths ∷ v.c.hundredths ∷ v.d.hundredths ∷ drop 4 rates.now) }
{
    let [a, b, c, d, ..] = rates else {
        return None;
    };
    Some(Four {
        a: Rate::try_from(*a).ok()?,
        b: Rate::try_from(*b).ok()?,
        c: Rate::try_from(*c).ok()?,
        d: Rate::try_from(*d).ok()?,
    })
}

// Four rates that are accepted, with a whole row each.
fn run_four(
    v: Four<Rate>,
    chain: AcceptedChain<'_>,
    width: usize,
    answers: &mut [i64],
    rows: &mut [u64],
)
    requires wide { members chain.chain.now.bytes.now ≤ width }
    requires whole { 4 * width ≤ length rows.old }
    requires lent { 4 ≤ length answers.old }
    ensures answers { let n = pos (members chain.entry.chain.now.bytes.now) in
        answers.new ≡ n ∷ n ∷ n ∷ n ∷ drop 4 answers.old }
    ensures rows { let rates = v.a.hundredths ∷ v.b.hundredths ∷ v.c.hundredths ∷ v.d.hundredths ∷ [] in
        rows.new ≡ rows_at width chain.entry.chain.now.bytes.now rates (take (4 * width) rows.old)
        ++ drop (4 * width) rows.old }
{
    four_rows(v, chain, width, &mut rows[..4 * width]);
    // At most 16, so that the cast cuts nothing.
    answers[..4].fill(chain.members() as i64);
}

// One rate, with what there is of its row.
fn run_one(
    found: Result<(), Refusal>,
    v: u32,
    chain: &HeldChain<'_>,
    width: usize,
    rows: &mut [u64],
) -> i64
    requires checked { found ≡ first_met (book_grounds chain.now.bytes.now) }
    ensures answer { result ≡ answer_number (factor_answer v chain.now.bytes.now (length (take width rows.old))) }
    ensures rows { rows.new ≡ factor_list v chain.now.bytes.now (take width rows.old) ++ drop width rows.old }
{
    let end = width.min(rows.len());
    answer_number(factors_read(found, v, chain, &mut rows[..end]))
}

// The next four rates, where each is accepted and has a whole row, or else the next one: how many they were.
pub(crate) fn run_next(
    found: Result<(), Refusal>,
    chain: &HeldChain<'_>,
    rates: &[u32],
    width: usize,
    answers: &mut [i64],
    rows: &mut [u64],
) -> usize
    requires checked { found ≡ first_met (book_grounds chain.now.bytes.now) }
    requires some { 0 < length rates.now }
    requires lent { length answers.old ≡ length rates.now }
    ensures { NextRun width chain.now.bytes.now rates.now answers.old rows.old result answers.new rows.new }
{
    if let Ok(()) = found {
        // Lent again, for the four rows alone.
        let accepted = AcceptedChain { chain: &*chain };
        if accepted.members() <= width && width <= rows.len() / 4 {
            if let Some(v) = four_rates(rates) {
                run_four(v, accepted, width, answers, rows);
                return 4;
            }
        }
    }
    answers[0] = run_one(found, rates[0], chain, width, rows);
    1
}
