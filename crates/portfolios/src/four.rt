// The factors at four rates side by side.
ghost use Rattle.std.specs.Prelude.{◌≡◌, ◌+◌, ◌*◌, ◌≤◌, ◌<◌, ◌^◌, get_or, length};
ghost use Rattle.book.specs.Fields.{members};
ghost use Rattle.balance.specs.Chain.{chain_of};
ghost use Rattle.balance.specs.Balance.{inflow};
ghost use Rattle.balance.specs.Inflow.{Fed};
ghost use Rattle.balance.specs.Factors.{factor_list};

use balance::{GRAINS, member_factor};
use book::{AcceptedChain, Feed, Rate};

// One of each for four rows.
#[derive(Clone, Copy)]
pub(crate) struct Four<T> {
    pub(crate) a: T,
    pub(crate) b: T,
    pub(crate) c: T,
    pub(crate) d: T,
}

// A sum and one feed more.
fn with_feed(sum: u64, feed: Feed, factors: &[u64]) -> u64
    requires from { feed.from < length factors.now }
    requires fits { sum + feed.share * get_or factors.now feed.from 0 < 2 ^ 64 }
    ensures { result ≡ sum + feed.share * get_or factors.now feed.from 0 }
{
    // A usize has no `From<u32>`; the cast cuts nothing.
    sum + u64::from(feed.share) * factors[feed.from as usize]
}

// What flows into a member in each of four rows: a feed is read once for all of them.
#[tactic(auto, using(crate::proofs::OneRow::summing))]
fn inflows_of(
    chain: AcceptedChain<'_>,
    i: usize,
    a: &[u64],
    b: &[u64],
    c: &[u64],
    d: &[u64],
) -> Four<u64>
    requires a { Fed chain.chain.now.bytes.now i a.now }
    requires b { Fed chain.chain.now.bytes.now i b.now }
    requires c { Fed chain.chain.now.bytes.now i c.now }
    requires d { Fed chain.chain.now.bytes.now i d.now }
    ensures a { result.a ≡ inflow a.now ((chain_of chain.entry.chain.now.bytes.now).feeds i) }
    ensures b { result.b ≡ inflow b.now ((chain_of chain.entry.chain.now.bytes.now).feeds i) }
    ensures c { result.c ≡ inflow c.now ((chain_of chain.entry.chain.now.bytes.now).feeds i) }
    ensures d { result.d ≡ inflow d.now ((chain_of chain.entry.chain.now.bytes.now).feeds i) }
{
    let mut sums = Four {
        a: 0,
        b: 0,
        c: 0,
        d: 0,
    };
    for feed in chain.feeds(i) {
        sums.a = with_feed(sums.a, *feed, a);
        sums.b = with_feed(sums.b, *feed, b);
        sums.c = with_feed(sums.c, *feed, c);
        sums.d = with_feed(sums.d, *feed, d);
    }
    sums
}

// The factors of an accepted book at four rates, into the first places of four rows. One row alone waits for each
// member's quotient before the next is begun; four fill the time.
#[tactic(auto, using(crate::proofs::OneRow::filling))]
pub(crate) fn fill_four(
    v: Four<Rate>,
    chain: AcceptedChain<'_>,
    a: &mut [u64],
    b: &mut [u64],
    c: &mut [u64],
    d: &mut [u64],
)
    requires a { members chain.chain.now.bytes.now ≤ length a.old }
    requires b { members chain.chain.now.bytes.now ≤ length b.old }
    requires c { members chain.chain.now.bytes.now ≤ length c.old }
    requires d { members chain.chain.now.bytes.now ≤ length d.old }
    ensures a { a.new ≡ factor_list v.a.hundredths chain.entry.chain.now.bytes.now a.old }
    ensures b { b.new ≡ factor_list v.b.hundredths chain.entry.chain.now.bytes.now b.old }
    ensures c { c.new ≡ factor_list v.c.hundredths chain.entry.chain.now.bytes.now c.old }
    ensures d { d.new ≡ factor_list v.d.hundredths chain.entry.chain.now.bytes.now d.old }
{
    a[0] = GRAINS;
    b[0] = GRAINS;
    c[0] = GRAINS;
    d[0] = GRAINS;
    for i in 1..chain.members() {
        let inflows = inflows_of(chain, i, a, b, c, d);
        let scale = chain.scale();
        let half_life = chain.half_life(i);
        a[i] = member_factor(inflows.a, scale, half_life, v.a);
        b[i] = member_factor(inflows.b, scale, half_life, v.b);
        c[i] = member_factor(inflows.c, scale, half_life, v.c);
        d[i] = member_factor(inflows.d, scale, half_life, v.d);
    }
}
