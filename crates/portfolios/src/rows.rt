// The rows of several rates in one lent list.
ghost use Rattle.std.specs.Prelude.{◌≡◌, ◌*◌, ◌≤◌, [], ◌∷◌, length};
ghost use Rattle.book.specs.Fields.{members};
ghost use Rattle.portfolios.specs.Rows.{rows_at};

use super::four::{Four, fill_four};
use book::{AcceptedChain, Rate};

// The rows of four rates, one after the other in a list.
#[tactic(auto, unfolding(crate::specs::Rows::rows_at))]
pub(crate) fn four_rows(v: Four<Rate>, chain: AcceptedChain<'_>, width: usize, rows: &mut [u64])
    requires wide { members chain.chain.now.bytes.now ≤ width }
    requires whole { length rows.old ≡ 4 * width }
    ensures { rows.new ≡ rows_at width chain.entry.chain.now.bytes.now
        (v.a.hundredths ∷ v.b.hundredths ∷ v.c.hundredths ∷ v.d.hundredths ∷ []) rows.old }
{
    let (front, back) = rows.split_at_mut(2 * width);
    let (a, b) = front.split_at_mut(width);
    let (c, d) = back.split_at_mut(width);
    fill_four(v, chain, a, b, c, d);
}
