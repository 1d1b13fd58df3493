// Whether a line is of R-3's form: the numbers at its places, written again, give its bytes.
ghost use Rattle.std.specs.Prelude.{◌≡◌, ◌≤◌, not, length, nat_eq};
ghost use Rattle.std.specs.Cmp.Lexicographic.{pointwise};
ghost use Rattle.numbers.specs.Tests.{some_below};
ghost use Rattle.book.specs.Limits.{max_members};
ghost use Rattle.printed.specs.Places.{of_form};
ghost use Rattle.marking.specs.Lines.{spaced_shares, line_of, rate_in, share_in};
ghost use Rattle.marking.specs.Form.{line_of_form};
ghost use Rattle.marking.specs.Private.Readable.{Readable};

use crate::line::{SPACED, rate_in, rate_places, share_in};
use book::{MAX_MEMBERS, MAX_RATE};
use numbers::some_below;
use printed::of_form;
use tables::RATE_DIGITS;
use text::{MOST_DIGITS, Sink, Writer};

// Room for a line of any rate.
const LINE_ROOM: usize = MOST_DIGITS + MAX_MEMBERS * SPACED + 1;

// A space and nine characters for each member's number.
fn put_shares<S: Sink>(sink: &mut S, line: &[u8], members: usize)
    requires readable { Readable members line.now }
    requires fits { length (spaced_shares (share_in members line.now) members) ≤ S.room sink.old }
    ensures { S.Took sink.old (spaced_shares (share_in members line.now) members) sink.new }
{
    for i in 0..members {
        sink.word(b" ");
        sink.word(&share_in(line, members, i).printed());
    }
}

// The numbers at a line's places, written as R-3 writes a line.
fn put_line<S: Sink>(sink: &mut S, line: &[u8], members: usize)
    requires readable { Readable members line.now }
    requires fits { length (line_of members (rate_in members line.now) (share_in members line.now)) ≤ S.room sink.old }
    ensures { S.Took sink.old (line_of members (rate_in members line.now) (share_in members line.now)) sink.new }
{
    sink.number(rate_in(line, members));
    put_shares(sink, line, members);
    sink.word(b"\n");
}

// They give the line's bytes.
fn same_written(line: &[u8], members: usize) -> bool
    requires { Readable members line.now }
    ensures { result
        ≡ pointwise nat_eq line.now (line_of members (rate_in members line.now) (share_in members line.now)) }
{
    let mut buffer = [0u8; LINE_ROOM];
    let mut writer = Writer::new(&mut buffer);
    put_line(&mut writer, line, members);
    let length = writer.length();
    line == &buffer[..length]
}

// Some number is not one of the form.
fn some_number_wrong(line: &[u8], members: usize) -> bool
    requires { Readable members line.now }
    ensures { result ≡ some_below members (λ i. not (of_form (share_in members line.now i))) }
{
    // At most 16, so that nothing is cut.
    some_below(members as u16, |i| {
        !of_form(share_in(line, members, usize::from(i)))
    })
}

// A line of so many members is of the form.
#[tactic(auto, unfolding(crate::specs::Form::line_of_form))]
pub(crate) fn line_of_form(line: &[u8], members: usize) -> bool
    requires { members ≤ max_members }
    ensures { result ≡ line_of_form members line.now }
{
    if RATE_DIGITS < rate_places(line, members) {
        return false;
    }
    same_written(line, members)
        & !(u64::from(MAX_RATE) < rate_in(line, members))
        & !some_number_wrong(line, members)
}
