// A printed table of a chain: per rate one line with the factor of every member, written into a lent buffer.
#![tactic(auto)]

mod checks;
mod lengths;
mod limits;
mod lines;
mod source_rates;

ghost use Rattle.std.specs.Prelude.{◌≡◌, length};
ghost use Rattle.text.specs.Answered.{bytes_written};
ghost use Rattle.tables.specs.Table.{table_text};
ghost use Rattle.tables.specs.Answers.{table_answer, table_buffer};
ghost use Rattle.tables.specs.Private.Tabulable.{Tabulable, fitting_answer};

use book::{AcceptedChain, read_chain};
use checks::check_table;
use lengths::table_length;
pub use limits::{MAX_RATES, RATE_DIGITS, TABLE_ROOM};
use lines::put_rate_lines;
use refusals::Refusal;
pub use source_rates::SOURCE_RATES;
use text::Writer;

// The table of a book at every rate of a list, to the start of `out`: the text's length; a refusal leaves `out` as it
// was.
#[tactic(auto, using(crate::proofs::ByChecks::passed, crate::proofs::ByChecks::in_two))]
pub fn tabulate(rates: &[u32], book: &[u8], out: &mut [u8]) -> Result<usize, Refusal>
    ensures answered { result ≡ table_answer rates.now book.now (length out.old) }
    ensures written { out.new ≡ table_buffer rates.now book.now out.old }
{
    check_table(rates, book)?;
    let chain = read_chain(book);
    write_table(rates, AcceptedChain { chain: &chain }, out)
}

// The text's length is known before a byte is written. `Tabulable` stays a clause here and in what is called: a struct
// that lends the rates has two values in an `ensures`, so that each clause would say `rates.entry.list.now`.
fn write_table(rates: &[u32], chain: AcceptedChain<'_>, out: &mut [u8]) -> Result<usize, Refusal>
    requires { Tabulable rates.now }
    ensures answered { let text = table_text chain.entry.chain.now.bytes.now rates.now in
        result ≡ fitting_answer text (length out.old) }
    ensures written { let text = table_text chain.entry.chain.now.bytes.now rates.now in
        out.new ≡ bytes_written text out.old }
{
    if out.len() < table_length(rates, chain) {
        return Err(Refusal::BufferTooShort);
    }
    let mut writer = Writer::new(out);
    put_rate_lines(&mut writer, rates, chain);
    Ok(writer.length())
}
