// What flows into a member: the sum along its feeds.
ghost use Rattle.std.specs.Prelude.{◌≡◌};
ghost use Rattle.balance.specs.Chain.{chain_of};
ghost use Rattle.balance.specs.Balance.{inflow};
ghost use Rattle.balance.specs.Inflow.{Fed};

use book::AcceptedChain;

// The sum over a member's feeds of share times the factor of from.
pub fn inflow_of(chain: AcceptedChain<'_>, i: usize, factors: &[u64]) -> u64
    requires { Fed chain.chain.now.bytes.now i factors.now }
    ensures { result ≡ inflow factors.now ((chain_of chain.entry.chain.now.bytes.now).feeds i) }
{
    let mut sum: u64 = 0;
    for feed in chain.feeds(i) {
        // A usize has no `From<u32>`; the cast cuts nothing.
        sum += u64::from(feed.share) * factors[feed.from as usize];
    }
    sum
}
