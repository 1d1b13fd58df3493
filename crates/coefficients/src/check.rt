// The check of a second set, ground 23.
ghost use Rattle.std.specs.Prelude.{◌≡◌};
ghost use Rattle.refusals.specs.Grounds.{first_met};
ghost use Rattle.book.specs.BookGrounds.{coefficient_too_high};
ghost use Rattle.coefficients.specs.Sets.{group_at};
ghost use Rattle.coefficients.specs.SetGrounds.{second_set_out_of_range, set_grounds};

use super::set::{CoefficientSet, group_at, set_in_use};
use book::{COEFFICIENTS, MAX_COEFFICIENT, coefficient_at, member_count};
use numbers::some_below;
use refusals::{Refusal, refuse_if};

// One of member i's five numbers is too high.
fn group_too_high(second: &[u8], i: u16) -> bool
    ensures { result ≡ coefficient_too_high second.now (group_at i) }
{
    // There are five, so that nothing is cut.
    some_below(COEFFICIENTS as u16, |which| {
        MAX_COEFFICIENT < coefficient_at(second, group_at(i), which)
    })
}

#[tactic(auto, unfolding(crate::specs::SetGrounds::second_set_out_of_range))]
fn second_set_out_of_range(book: &[u8], second: &[u8]) -> bool
    ensures { result ≡ second_set_out_of_range book.now second.now }
{
    let members = member_count(book);
    // At most 5,100; a usize has no `From<u32>`.
    (second.len() != group_at(members) as usize)
        | some_below(members, |i| group_too_high(second, i))
}

// It is refused only if it was lent.
pub fn check_second(book: &[u8], second: &[u8]) -> Result<(), Refusal>
    ensures { result ≡ first_met (set_grounds book.now second.now) }
{
    match set_in_use(second) {
        CoefficientSet::Book => Ok(()),
        CoefficientSet::Second => refuse_if(
            second_set_out_of_range(book, second),
            Refusal::SecondSetOutOfRange,
        ),
    }
}
