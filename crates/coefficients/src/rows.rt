// What a room is screened by besides its chain.
ghost use Rattle.std.specs.Prelude.{◌≡◌};
ghost use Rattle.coefficients.specs.Rows.{row_in_use, numbers_in_use};

use super::set::{CoefficientSet, group_at, set_in_use};
use book::{
    AcceptedChain, COEFFICIENTS, Coefficients, MAX_MEMBERS, coefficients_at, fill_first,
    first_coefficient, working_level_divisor,
};

// Each member's five numbers in use, in the array's first places, the set that they are of, and W, which is always the
// book's. They stand apart from the chain, which the factor call reads alone, and which is the same whichever set is in
// use. With no heap, the rows are a fixed array with their count beside.
#[derive(Clone, Copy)]
pub struct NumbersInUse {
    pub set: CoefficientSet,
    pub members: usize,
    pub rows: [Coefficients; MAX_MEMBERS],
    pub divisor: u16,
}

// Member i's.
fn row_in_use(book: &[u8], second: &[u8], i: u16) -> Coefficients
    ensures { result ≡ row_in_use book.now second.now i }
{
    match set_in_use(second) {
        CoefficientSet::Book => coefficients_at(book, first_coefficient(i)),
        CoefficientSet::Second => coefficients_at(second, group_at(i)),
    }
}

// All of them, read once.
pub fn numbers_in_use(chain: AcceptedChain<'_>, second: &[u8]) -> NumbersInUse
    ensures { let book = chain.entry.chain.now.bytes.now in
        result ≡ numbers_in_use book second.now }
{
    let book = chain.chain.bytes;
    let members = chain.members();
    let mut numbers = NumbersInUse {
        set: set_in_use(second),
        members,
        rows: [[0u32; COEFFICIENTS]; MAX_MEMBERS],
        divisor: working_level_divisor(book),
    };
    fill_first(
        &mut numbers.rows,
        members,
        |i|
            ensures { result ≡ row_in_use book.entry.now second.entry.now i }
        { row_in_use(book, second, i) },
    );
    numbers
}
