// The balance of an accepted chain, written into a lent list. The chain's arrays are lent: none is copied, and none is
// of factors.
ghost use Rattle.std.specs.Prelude.{◌≡◌, Ok, ◌++◌, ◌+◌, ◌*◌, ◌/◌, ◌≤◌, ◌<◌, length, drop};
ghost use Rattle.book.specs.Limits.{max_half_life};
ghost use Rattle.book.specs.Fields.{members};
ghost use Rattle.balance.specs.Balance.{K};
ghost use Rattle.balance.specs.Factors.{factors_at, factor_list};
ghost use Rattle.balance.specs.Promises.{ListPromise};

use super::feeds::inflow_of;
use super::limits::{DECAY, GRAINS};
use book::{AcceptedChain, Rate};
use wide::product_quotient;

// A later member's factor: the part of its inflow that decays in the room before it is blown out.
pub fn member_factor(inflow: u64, scale: u64, half_life: u64, v: Rate) -> u64
    requires scale_positive { 0 < scale }
    requires half_life_le_max_half_life { half_life ≤ max_half_life }
    ensures { result ≡ inflow / scale * K / (K + v.hundredths * half_life) }
{
    let whole = inflow / scale;
    let removal = DECAY + u64::from(v.hundredths) * half_life;
    product_quotient(whole, DECAY, removal)
}

// The factors of every member of an accepted book at rate `v`, into the first places of `out`. They are made in member
// order, and each is read back from its place by the members that it feeds. Rate and chain stay two parameters, here
// and above: many rates are taken of one chain. Within a caller it would have the chain copied once more onto the
// stack.
#[inline(never)]
pub fn fill_accepted(v: Rate, chain: AcceptedChain<'_>, out: &mut [u64])
    requires { members chain.chain.now.bytes.now ≤ length out.old }
    ensures filled { let book = chain.entry.chain.now.bytes.now in
        out.new ≡ factors_at book v.hundredths ++ drop (members book) out.old }
    ensures written { out.new ≡ factor_list v.hundredths chain.entry.chain.now.bytes.now out.old }
    ensures sound { let book = chain.entry.chain.now.bytes.now in
        ListPromise v.hundredths book (Ok (members book)) out.new }
{
    out[0] = GRAINS;
    // By number: an iterator over `out` would lend it, and each turn reads it whole.
    for i in 1..chain.members() {
        let inflow = inflow_of(chain, i, out);
        out[i] = member_factor(inflow, chain.scale(), chain.half_life(i), v);
    }
}
