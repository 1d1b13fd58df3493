// The text of an answer.
ghost use Rattle.std.specs.Prelude.{◌≤◌, ◌≡◌, ◌++◌, length};
ghost use Rattle.text.specs.Answered.{length_written, bytes_written};
ghost use Rattle.report.specs.Report.{factor_lines, figure_lines, refused_line, text_of};

use crate::lines::{put_factor_lines, put_figures, put_refusal};
use book::MAX_MEMBERS;
use refusals::Refusal;
use screening::{Answer, Figures};
use text::{Sink, Text, write_whole};

// What `screen` writes of an answer, to the start of `out`, and its length; where there is no room for all of it none,
// with `out` as it was.
#[tactic(auto, using(crate::proofs::ReportLengths::answering), unfolding(crate::specs::Report::text_of))]
pub fn write_answer(answered: Result<Answer, Refusal>, out: &mut [u8]) -> Option<usize>
    ensures answered { result ≡ length_written (text_of answered) (length out.old) }
    ensures written { out.new ≡ bytes_written (text_of answered) out.old }
{
    match answered {
        Ok(answer) => {
            // An answer made by hand can count more members than it has places for.
            let count = answer.count.min(MAX_MEMBERS);
            let screened = Screened {
                factors: &answer.factors[..count],
                figures: answer.figures,
            };
            write_whole(&screened, out)
        }
        Err(refusal) => write_whole(&Refused { refusal }, out),
    }
}

// The lines of a room that was judged.
#[derive(Clone, Copy)]
struct Screened<'a> {
    factors: &'a [u64],
    figures: Figures,
}

impl Text for Screened<'_> {
    ghost bytes = { λ s. factor_lines s.factors.now ++ figure_lines s.figures };

    fn put<S: Sink>(&self, sink: &mut S) {
        put_factor_lines(sink, self.factors);
        put_figures(sink, self.figures);
    }
}

// The line of a refusal.
#[derive(Clone, Copy)]
struct Refused {
    refusal: Refusal,
}

impl Text for Refused {
    ghost bytes = { λ r. refused_line r.refusal };

    fn put<S: Sink>(&self, sink: &mut S) {
        put_refusal(sink, self.refusal);
    }
}
