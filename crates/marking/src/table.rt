// The marks of a table, a line at a time.
ghost use Rattle.std.specs.Prelude.{◌≡◌, ◌+◌, ◌*◌, ◌<◌, ◌≤◌, ◌^◌, ◌∷◌, [], true};
ghost use Rattle.refusals.specs.Grounds.{ground_of, first_met, answer_if};
ghost use Rattle.refusals.specs.declared.Refusal.TheVariants.{TableNotOfForm};
ghost use Rattle.book.specs.Fields.{members};
ghost use Rattle.balance.specs.Balance.{raised, G};
ghost use Rattle.marking.specs.Form.{line_of_form, table_not_of_form};
ghost use Rattle.marking.specs.Marks.{mark_in, marks_of};
ghost use Rattle.marking.specs.Private.Counted.{counted_to, entries_in};

use crate::form::line_of_form;
use crate::line::{rate_in, share_in};
use crate::split::first_length;
use crate::tally::{Marks, Place};
use balance::{GRAINS, fill_accepted};
use book::{AcceptedChain, MAX_MEMBERS, Rate};
use printed::mark_of;
use refusals::Refusal;
use tables::MAX_RATES;

// The end of member i's interval.
fn raised(i: usize, factor: u64) -> u64
    requires { (i < 2 ^ 32) × (factor ≤ G) }
    ensures { result ≡ raised i factor }
{
    // A u64 has no `From<usize>`; no cast here cuts anything.
    (factor + 2 * i as u64).min(GRAINS)
}

// The entries of one more line, whose number counts from 0, are marked and counted.
fn mark_line(mut marks: Marks, line: &[u8], number: u64, chain: AcceptedChain<'_>) -> Marks
    requires of_form { line_of_form (members chain.chain.now.bytes.now) line.now ≡ true }
    requires few { (entries_in marks < 2 ^ 62) × (number < 2 ^ 62) }
    ensures { let book = chain.entry.chain.now.bytes.now in
        result ≡ counted_to marks (mark_in book line.now) number (members book) }
{
    let count = chain.members();
    let mut factors = [0u64; MAX_MEMBERS];
    // A rate within its limit, and a member's number: no cast here cuts anything.
    let v = Rate {
        hundredths: rate_in(line, count) as u32,
    };
    fill_accepted(v, chain, &mut factors);
    for i in 0..count {
        let factor = factors[i];
        let mark = mark_of(share_in(line, count, i), factor, raised(i, factor));
        marks = marks.counted(
            mark,
            Place {
                line: number + 1,
                member: i as u64,
            },
        );
    }
    marks
}

// The marks of all lines, or that the text is not of the form. The first line that is not ends it, or the first too
// many, so that the time grows with the text's length alone.
pub(crate) fn mark_lines(text: &[u8], chain: AcceptedChain<'_>) -> Result<Marks, Refusal>
    ensures { let book = chain.entry.chain.now.bytes.now in
        result ≡ answer_if (first_met (ground_of TableNotOfForm (table_not_of_form (members book) text.now) ∷ []))
        (marks_of book text.now) }
{
    let mut marks = Marks {
        right: 0,
        close: 0,
        wrong: 0,
        first: None,
    };
    let mut rest = text;
    let mut number: usize = 0;
    while !rest.is_empty() {
        let (line, after) = rest.split_at(first_length(rest));
        if number == MAX_RATES {
            return Err(Refusal::TableNotOfForm);
        }
        if !line_of_form(line, chain.members()) {
            return Err(Refusal::TableNotOfForm);
        }
        marks = mark_line(marks, line, number as u64, chain);
        number += 1;
        rest = after;
    }
    if number == 0 {
        return Err(Refusal::TableNotOfForm);
    }
    Ok(marks)
}
