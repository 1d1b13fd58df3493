// Ground 13: the numbers of each member.
ghost use Rattle.std.specs.Prelude.{◌≡◌};
ghost use Rattle.book.specs.Fields.{first_coefficient};
ghost use Rattle.book.specs.BookGrounds.{longest, coefficient_too_high, member_wrong, member_out_of_range};

use super::super::coefficients::coefficient_at;
use super::super::fields::{first_coefficient, half_life};
use super::super::header::member_count;
use super::super::layout::COEFFICIENTS;
use super::super::limits::{MAX_COEFFICIENT, MAX_HALF_LIFE, MAX_PARENT_HALF_LIFE};
use numbers::some_below;

// The longest half-life that member i may have.
fn longest_half_life(i: u16) -> u64
    ensures { result ≡ longest i }
{
    if i == 0 {
        MAX_PARENT_HALF_LIFE
    } else {
        MAX_HALF_LIFE
    }
}

// One of member i's five numbers is too high. Where they begin is worked out for each: the machine then adds nothing.
fn coefficient_too_high(book: &[u8], i: u16) -> bool
    ensures { result ≡ coefficient_too_high book.now (first_coefficient i) }
{
    // There are five, so that nothing is cut.
    some_below(COEFFICIENTS as u16, |which| {
        MAX_COEFFICIENT < coefficient_at(book, first_coefficient(i), which)
    })
}

// A number of member i is out of range.
fn member_wrong(book: &[u8], i: u16) -> bool
    ensures { result ≡ member_wrong book.now i }
{
    let half_life_wrong = !(1..=longest_half_life(i)).contains(&half_life(book, i));
    half_life_wrong | coefficient_too_high(book, i)
}

#[tactic(auto, unfolding(crate::specs::BookGrounds::member_out_of_range))]
pub(crate) fn member_out_of_range(book: &[u8]) -> bool
    ensures { result ≡ member_out_of_range book.now }
{
    some_below(member_count(book), |i| member_wrong(book, i))
}
