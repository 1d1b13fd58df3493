// The steady balance of a branched decay chain under ventilation: from a chain book and a rate to the share of each
// daughter in the air.
#![tactic(auto)]

mod feeds;
mod fill;
mod limits;

ghost use Rattle.std.specs.Prelude.{◌≡◌, length};
ghost use Rattle.refusals.specs.Grounds.{first_met};
ghost use Rattle.book.specs.BookGrounds.{book_grounds};
ghost use Rattle.balance.specs.Factors.{factor_answer, factor_list};
ghost use Rattle.balance.specs.Promises.{ListPromise};

use book::{AcceptedChain, HeldChain, Rate, check_book, read_chain};
pub use feeds::inflow_of;
pub use fill::{fill_accepted, member_factor};
pub use limits::{DECAY, GRAINS};
use refusals::{Refusal, refuse_if};

// The factors of every member at rate `v`, into the first places of `out`: how many they are; a refusal leaves `out` as
// it was.
pub fn factors(v: u32, book: &[u8], out: &mut [u64]) -> Result<usize, Refusal>
    ensures answered { result ≡ factor_answer v book.now (length out.old) }
    ensures written { out.new ≡ factor_list v book.now out.old }
    ensures sound { ListPromise v book.now result out.new }
{
    let chain = read_chain(book);
    factors_read(check_book(book), v, &chain, out)
}

// The same for a book that is checked and read already, with what its checks found and its chain.
pub fn factors_read(
    found: Result<(), Refusal>,
    v: u32,
    chain: &HeldChain<'_>,
    out: &mut [u64],
) -> Result<usize, Refusal>
    requires { found ≡ first_met (book_grounds chain.now.bytes.now) }
    ensures answered { result ≡ factor_answer v chain.now.bytes.now (length out.old) }
    ensures written { out.new ≡ factor_list v chain.now.bytes.now out.old }
    ensures sound { ListPromise v chain.now.bytes.now result out.new }
{
    let rate = Rate::try_from(v)?;
    found?;
    let accepted = AcceptedChain { chain };
    let members = accepted.members();
    refuse_if(out.len() < members, Refusal::ListTooShort)?;
    fill_accepted(rate, accepted, out);
    Ok(members)
}
