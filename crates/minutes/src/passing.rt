// Minutes and periods, passed in the lent list itself:
// it holds the factors of the minute before, and then those of this one.
ghost use Rattle.std.specs.Prelude.{◌≡◌, ◌++◌, ◌-◌, ◌≤◌, length, take, drop};
ghost use Rattle.book.specs.BookGrounds.{Accepted};
ghost use Rattle.book.specs.Fields.{members};
ghost use Rattle.minutes.specs.Minutes.{start};
ghost use Rattle.minutes.specs.Periods.{factors_after};
ghost use Rattle.minutes.specs.Private.Holding.{RatesWithin, Holds, minute_at, minutes_at};

use super::step::new_factor;
use balance::{GRAINS, inflow_of};
use book::{AcceptedChain, Rate, read_chain};

// A room that was shut: the parent has all its grains, and the others none yet.
#[tactic(auto, using(crate::proofs::Beginning::beginning))]
fn begin(out: &mut [u64], count: usize)
    requires { (1 ≤ count) × (count ≤ length out.old) }
    ensures { out.new ≡ start (count - 1) ++ drop count out.old }
{
    out[..count].fill(0);
    out[0] = GRAINS;
}

// One minute. A member's inflow is read from places that hold this minute's factors already,
// and its own place still holds the old one. `Holds` says again that the book is accepted,
// since its laws are of a list and the bytes of a book alone.
#[tactic(auto, using(book::proofs::Rates::scale_positive, balance::proofs::Filling::Quotients::later_half_life))]
fn pass_minute(chain: AcceptedChain<'_>, v: Rate, out: &mut [u64])
    requires { Holds chain.chain.now.bytes.now out.old }
    ensures { let book = chain.entry.chain.now.bytes.now in
        out.new ≡ minute_at book v.hundredths out.old ++ drop (members book) out.old }
{
    // By number: an iterator over `out` would lend it, and each turn reads it whole.
    for i in 1..chain.members() {
        let inflow = inflow_of(chain, i, out);
        out[i] = new_factor(inflow, chain.scale(), chain.half_life(i), v, out[i]);
    }
}

// So many minutes at one rate.
fn pass_minutes(chain: AcceptedChain<'_>, v: Rate, count: u32, out: &mut [u64])
    requires { Holds chain.chain.now.bytes.now out.old }
    ensures { let book = chain.entry.chain.now.bytes.now in
        out.new ≡ minutes_at book v.hundredths count (take (members book) out.old) ++ drop (members book) out.old }
{
    for _passed in 0..count {
        pass_minute(chain, v, out);
    }
}

// All the periods one after the other, from a shut room on, and how many members there are.
fn pass_each(periods: &[u32], chain: AcceptedChain<'_>, out: &mut [u64]) -> usize
    requires rates_within { RatesWithin periods.now }
    requires enough { members chain.chain.now.bytes.now ≤ length out.old }
    ensures counted { result ≡ members chain.entry.chain.now.bytes.now }
    ensures passed { let book = chain.entry.chain.now.bytes.now in
        out.new ≡ factors_after periods.now book ++ drop (members book) out.old }
{
    let members = chain.members();
    begin(out, members);
    for period in periods.chunks_exact(2) {
        let v = Rate {
            hundredths: period[0],
        };
        pass_minutes(chain, v, period[1], out);
    }
    members
}

// The same for a book that is accepted, and read here.
pub(crate) fn pass_periods(periods: &[u32], book: &[u8], out: &mut [u64]) -> usize
    requires rates_within { RatesWithin periods.now }
    requires accepted { Accepted book.now }
    requires enough { members book.now ≤ length out.old }
    ensures counted { result ≡ members book.now }
    ensures passed { out.new ≡ factors_after periods.now book.now ++ drop (members book.now) out.old }
{
    let chain = read_chain(book);
    pass_each(periods, AcceptedChain { chain: &chain }, out)
}
