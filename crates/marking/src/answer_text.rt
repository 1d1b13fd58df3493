// What the program `marks` writes.
ghost use Rattle.std.specs.Prelude.{◌≡◌, ◌≤◌, length, take};
ghost use Rattle.io.specs.Counts.{IsPrefixLen};
ghost use Rattle.text.specs.Answered.{bytes_written};
ghost use Rattle.marking.specs.Answers.{marks_answer};
ghost use Rattle.marking.specs.Text.{first_line, marks_lines, text_of, marks_text, marks_room};

use crate::mark_table;
use crate::tally::{Marks, Place};
use refusals::Refusal;
use text::{MOST_DIGITS, Sink, Writer, put_line};

// The bytes besides the numbers: a word of five letters, a space and a line feed on each line, and one space more on
// the last.
const WORDS: usize = 29;

// No text is longer.
pub const MARKS_ROOM: usize = WORDS + 5 * MOST_DIGITS;

// The constant is the definition's.
fn marks_room() -> usize
    ensures { result ≡ marks_room }
{
    MARKS_ROOM
}

// The first wrong entry, or that there is none.
fn put_first<S: Sink>(sink: &mut S, first: Option<Place>)
    requires { length (first_line first) ≤ S.room sink.old }
    ensures { S.Took sink.old (first_line first) sink.new }
{
    match first {
        Some(place) => {
            sink.word(b"first ");
            sink.number(place.line);
            put_line(sink, b" ", place.member);
        }
        None => sink.word(b"first none\n"),
    }
}

fn put_marks<S: Sink>(sink: &mut S, marks: Marks)
    requires { length (marks_lines marks) ≤ S.room sink.old }
    ensures { S.Took sink.old (marks_lines marks) sink.new }
{
    put_line(sink, b"right ", marks.right);
    put_line(sink, b"close ", marks.close);
    put_line(sink, b"wrong ", marks.wrong);
    put_first(sink, marks.first);
}

// A refusal as in `screen`.
#[tactic(auto, unfolding(crate::specs::Text::text_of))]
fn put_answer<S: Sink>(sink: &mut S, answered: Result<Marks, Refusal>)
    requires { length (text_of answered) ≤ S.room sink.old }
    ensures { S.Took sink.old (text_of answered) sink.new }
{
    match answered {
        Ok(marks) => put_marks(sink, marks),
        Err(refusal) => put_line(sink, b"refused ", u64::from(refusal)),
    }
}

// The text of a table's marks by a book, in so many of the first bytes of `out`. What stands behind it stays as it was.
pub fn marks_text(text: &[u8], book: &[u8], out: &mut [u8; MARKS_ROOM]) -> usize
    ensures within { IsPrefixLen result out.new }
    ensures written { take result out.new ≡ marks_text text.now book.now }
    ensures whole { out.new ≡ bytes_written (marks_text text.now book.now) out.old }
{
    let mut writer = Writer::new(out);
    put_answer(&mut writer, mark_table(text, book));
    writer.length()
}
