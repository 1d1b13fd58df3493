// Tables from elsewhere: each entry is read back and marked against a chain book.
#![tactic(auto)]

mod answer_text;
mod form;
mod line;
mod split;
mod table;
mod tally;

ghost use Rattle.std.specs.Prelude.{◌≡◌, IfOk};
ghost use Rattle.marking.specs.Answers.{marks_answer};
ghost use Rattle.marking.specs.Promises.{MarkedPromise};

pub use answer_text::{MARKS_ROOM, marks_text};
use book::{AcceptedChain, check_book, read_chain};
use refusals::Refusal;
use table::mark_lines;
pub use tally::{Marks, Place};

// How many entries of a table are right, close and wrong by a book, and where the first wrong one stands.
#[tactic(auto, using(crate::proofs::Promised::kept))]
pub fn mark_table(text: &[u8], book: &[u8]) -> Result<Marks, Refusal>
    ensures answered { result ≡ marks_answer text.now book.now }
    ensures sound { IfOk result (MarkedPromise text.now book.now) }
{
    check_book(book)?;
    let chain = read_chain(book);
    mark_lines(text, AcceptedChain { chain: &chain })
}
