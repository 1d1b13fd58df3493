// How long a table is, so that one without room is refused before a byte is written.
ghost use Rattle.std.specs.Prelude.{◌≡◌, length};
ghost use Rattle.tables.specs.Table.{table_text};
ghost use Rattle.tables.specs.Private.Tabulable.{Tabulable};

use book::AcceptedChain;
use entry::ENTRY_LENGTH;
use text::decimal_length;

// Counted by itself: handing the lines to a sink that counts would work out the factors of each twice, and what a
// further rate takes has a limit, which that passes.
#[tactic(auto, using(crate::proofs::Measured::counting))]
pub(crate) fn table_length(rates: &[u32], chain: AcceptedChain<'_>) -> usize
    requires { Tabulable rates.now }
    ensures { result ≡ length (table_text chain.entry.chain.now.bytes.now rates.now) }
{
    // A space and an entry for each member, and a line feed.
    let entries = chain.members() * (1 + ENTRY_LENGTH) + 1;
    let mut total = 0;
    for rate in rates {
        total += decimal_length(u64::from(*rate)) + entries;
    }
    total
}
