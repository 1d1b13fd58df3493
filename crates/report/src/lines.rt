// The lines of a report, each handed to a sink.
ghost use Rattle.std.specs.Prelude.{◌≤◌, ◌≡◌, length};
ghost use Rattle.text.specs.Words.{ascii};
ghost use Rattle.report.specs.Report.{factor_line, factor_lines, verdict_line, verdict_word, working_lines};
ghost use Rattle.report.specs.Report.{figure_lines, refused_line};

use refusals::Refusal;
use screening::{Figures, Verdict, WorkingLevels};
use text::{Sink, put_line};

// One line for each factor.
pub(crate) fn put_factor_lines<S: Sink>(sink: &mut S, factors: &[u64])
    requires { length (factor_lines factors.now) ≤ S.room sink.old }
    ensures { S.Took sink.old (factor_lines factors.now) sink.new }
{
    for (i, factor) in factors.iter().enumerate() {
        put_factor_line(sink, i, *factor);
    }
}

fn put_factor_line<S: Sink>(sink: &mut S, member: usize, factor: u64)
    requires { length (factor_line member factor) ≤ S.room sink.old }
    ensures { S.Took sink.old (factor_line member factor) sink.new }
{
    sink.word(b"factor ");
    // A u64 has no `From<usize>`; the cast cuts nothing.
    sink.number(member as u64);
    put_line(sink, b" ", factor);
}

pub(crate) fn put_figures<S: Sink>(sink: &mut S, figures: Figures)
    requires { length (figure_lines figures) ≤ S.room sink.old }
    ensures { S.Took sink.old (figure_lines figures) sink.new }
{
    put_line(sink, b"concentration ", figures.concentration);
    put_verdict(sink, figures.verdict);
    put_line(sink, b"level ", u64::from(figures.level));
    put_working(sink, figures.working);
}

#[tactic(auto, unfolding(crate::specs::Report::verdict_line))]
fn put_verdict<S: Sink>(sink: &mut S, verdict: Verdict)
    requires { length (verdict_line verdict) ≤ S.room sink.old }
    ensures { S.Took sink.old (verdict_line verdict) sink.new }
{
    sink.word(b"verdict ");
    sink.word(word_of(verdict));
    sink.word(b"\n");
}

fn word_of(verdict: Verdict) -> &'static [u8]
    ensures { result.now ≡ ascii (verdict_word verdict) }
{
    match verdict {
        Verdict::Below => b"below",
        Verdict::Close => b"close",
        Verdict::Above => b"above",
    }
}

fn put_working<S: Sink>(sink: &mut S, working: Option<WorkingLevels>)
    requires { length (working_lines working) ≤ S.room sink.old }
    ensures { S.Took sink.old (working_lines working) sink.new }
{
    match working {
        None => sink.word(b"equilibrium none\nworking none\n"),
        Some(WorkingLevels { equilibrium, micro }) => {
            put_line(sink, b"equilibrium ", equilibrium);
            put_line(sink, b"working ", micro);
        }
    }
}

// By word and number: what a refusal's `Display` writes is told of a formatter, and not of a sink.
pub(crate) fn put_refusal<S: Sink>(sink: &mut S, refusal: Refusal)
    requires { length (refused_line refusal) ≤ S.room sink.old }
    ensures { S.Took sink.old (refused_line refusal) sink.new }
{
    put_line(sink, b"refused ", u64::from(refusal));
}
