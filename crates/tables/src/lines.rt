// The lines of a table, each handed to a sink.
ghost use Rattle.std.specs.Prelude.{◌≡◌, ◌≤◌, length};
ghost use Rattle.balance.specs.Balance.{G};
ghost use Rattle.text.specs.Words.{each};
ghost use Rattle.tables.specs.Table.{spaced_entry, line_of, rate_line, table_text};
ghost use Rattle.tables.specs.Private.Tabulable.{Tabulable, NoneAboveParent};

use balance::fill_accepted;
use book::{AcceptedChain, MAX_MEMBERS, Rate};
use entry::entry_of;
use text::Sink;

// One line for each rate.
pub(crate) fn put_rate_lines<S: Sink>(sink: &mut S, rates: &[u32], chain: AcceptedChain<'_>)
    requires tabulable { Tabulable rates.now }
    requires fits { length (table_text chain.chain.now.bytes.now rates.now) ≤ S.room sink.old }
    ensures { S.Took sink.old (table_text chain.entry.chain.now.bytes.now rates.now) sink.new }
{
    for rate in rates {
        put_rate_line(sink, Rate { hundredths: *rate }, chain);
    }
}

// The line of one rate.
#[tactic(auto, using(crate::proofs::RateLine::left))]
fn put_rate_line<S: Sink>(sink: &mut S, v: Rate, chain: AcceptedChain<'_>)
    requires { length (rate_line chain.chain.now.bytes.now 0 v.hundredths) ≤ S.room sink.old }
    ensures { S.Took sink.old (rate_line chain.entry.chain.now.bytes.now 0 v.hundredths) sink.new }
{
    let mut factors = [0u64; MAX_MEMBERS];
    fill_accepted(v, chain, &mut factors);
    put_line_of(sink, u64::from(v.hundredths), &factors[..chain.members()]);
}

// A rate, its factors, a line feed.
fn put_line_of<S: Sink>(sink: &mut S, v: u64, factors: &[u64])
    requires fits { length (line_of v factors.now) ≤ S.room sink.old }
    requires none_above_parent { NoneAboveParent factors.now }
    ensures { S.Took sink.old (line_of v factors.now) sink.new }
{
    sink.number(v);
    put_entries(sink, factors);
    sink.word(b"\n");
}

// A space and an entry for each factor.
fn put_entries<S: Sink>(sink: &mut S, factors: &[u64])
    requires fits { length (each spaced_entry 0 factors.now) ≤ S.room sink.old }
    requires none_above_parent { NoneAboveParent factors.now }
    ensures { S.Took sink.old (each spaced_entry 0 factors.now) sink.new }
{
    for factor in factors {
        put_entry(sink, *factor);
    }
}

// A factor is a plain u64, as in the lists that callers lend;
// that it is at most G is asked here, in `entry` and in `verdict`.
fn put_entry<S: Sink>(sink: &mut S, factor: u64)
    requires fits { length (spaced_entry 0 factor) ≤ S.room sink.old }
    requires factor_bound { factor ≤ G }
    ensures { S.Took sink.old (spaced_entry 0 factor) sink.new }
{
    sink.word(b" ");
    sink.word(&entry_of(factor));
}
