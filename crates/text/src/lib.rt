// Texts of words and numbers. What makes a text hands it to a sink, a piece at a time: to one that counts its bytes, or
// to one that writes them into a lent list. So a text is described once, and what is counted is what is written.
#![tactic(auto)]

ghost use Rattle.std.specs.Prelude.{◌+◌, ◌≤◌, ◌≡◌, ◌^◌, ◌<◌, length, ℕ, List};
ghost use Rattle.text.specs.Words.{decimal, most_digits, numbered};
ghost use Rattle.text.specs.Sinks.{SinkLaws};
ghost use Rattle.text.specs.Answered.{length_written, bytes_written};

// No number of 64 bits has more decimal digits.
pub const MOST_DIGITS: usize = 20;

// What a text is handed to.
pub trait Sink {
    // How many more bytes it takes.
    ghost room: { Self → ℕ };

    // The first was handed the text, and has become the second.
    ghost Took: { Self → List ℕ → Self → Type 0 };

    fn word(&mut self, word: &[u8])
        requires { length word.now ≤ room self.old }
        ensures { Took self.old word.now self.new };

    fn number(&mut self, n: u64)
        requires { length (decimal n) ≤ room self.old }
        ensures { Took self.old (decimal n) self.new };

    ghost laws: { SinkLaws room Took };
}

// A word, a number, a line feed.
pub fn put_line<S: Sink>(sink: &mut S, word: &[u8], n: u64)
    requires { length (numbered word.now n) ≤ S.room sink.old }
    ensures { S.Took sink.old (numbered word.now n) sink.new }
{
    sink.word(word);
    sink.number(n);
    sink.word(b"\n");
}

// What can be handed to any sink.
pub trait Text {
    ghost bytes: { Self → List ℕ };

    fn put<S: Sink>(&self, sink: &mut S)
        requires { length (bytes self.now) ≤ S.room sink.old }
        ensures { S.Took sink.old (bytes self.now) sink.new };
}

// All of a text, to the start of `out`, and its length; where there is no room for all of it none, with `out` as it
// was.
#[tactic(auto, using(crate::proofs::Whole::lent))]
pub fn write_whole<T: Text>(text: &T, out: &mut [u8]) -> Option<usize>
    requires { length (T.bytes text.now) < 2 ^ 64 }
    ensures answered { result ≡ length_written (T.bytes text.now) (length out.old) }
    ensures written { out.new ≡ bytes_written (T.bytes text.now) out.old }
{
    let mut counter = Counter { bytes: 0 };
    text.put(&mut counter);
    if out.len() < counter.bytes {
        return None;
    }
    let mut writer = Writer::new(out);
    text.put(&mut writer);
    Some(writer.length())
}

// Counts the bytes.
#[derive(Drop)]
struct Counter {
    bytes: usize,
}

impl Sink for Counter {
    ghost use Rattle.text.specs.Counts.{uncounted, Counted};
    ghost use Rattle.text.specs.Laws.{counter_laws};

    ghost room = { uncounted };

    ghost Took = { Counted };

    ghost laws = { counter_laws };

    fn word(&mut self, word: &[u8]) {
        self.bytes += word.len();
    }

    fn number(&mut self, n: u64) {
        self.bytes += decimal_length(n);
    }
}

// How many digits a number has.
#[tactic(auto, using(crate::proofs::Digits::counting))]
pub fn decimal_length(n: u64) -> usize
    ensures counted { result ≡ length (decimal n) }
    ensures within { result ≤ most_digits }
{
    // At most 19, and a usize has no `From<u32>`.
    n.checked_ilog10().map_or(1, |k| k as usize + 1)
}

// Writes the bytes into a lent list, from its start on.
#[derive(Drop)]
pub struct Writer<'a> {
    out: &'a mut [u8],
    written: usize,
    ghost within: { written ≤ length out.now },
}

impl<'a> Writer<'a> {
    pub fn new(out: &'a mut [u8]) -> Writer<'a>
        ensures same_list { result.out.ghost_name ≡ out.entry.ghost_name }
        ensures as_it_was { result.out.now ≡ out.old }
        ensures nothing { result.written ≡ 0 }
    {
        Writer { out, written: 0 }
    }

    // How many bytes are written.
    pub fn length(&self) -> usize
        ensures { result ≡ self.now.written }
    {
        self.written
    }
}

impl Sink for Writer<'_> {
    ghost use Rattle.text.specs.Lent.{unwritten, Written};
    ghost use Rattle.text.specs.Laws.{writer_laws};

    ghost room = { unwritten };

    ghost Took = { Written };

    ghost laws = { writer_laws };

    #[tactic(auto, using(crate::proofs::Placed::placed))]
    fn word(&mut self, word: &[u8]) {
        let end = self.written + word.len();
        self.out[self.written..end].copy_from_slice(word);
        self.written = end;
    }

    #[tactic(auto, using(crate::proofs::Digits::digits_decimal))]
    fn number(&mut self, n: u64) {
        let mut digits = [0u8; MOST_DIGITS];
        let k = io::decimal(n, &mut digits);
        self.word(&digits[..k]);
    }
}
