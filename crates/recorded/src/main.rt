// Answers every recorded case of standard input, one after the other, each as soon as it has it.
#![tactic(auto)]

mod kind;
mod record;

use arguments::ended;
use case_texts::{
    factors_case, lowest_case, marks_case, opening_case, partner_case, rates_case, report_case,
    table_case,
};
use kind::Kind;
use record::{Record, next_record};
use records::answer_all;
use std::alloc::{AllocError, Global};
use std::process::ExitCode;

fn main(rt: HostRuntime) -> ExitCode {
    let alloc = rt.alloc();
    let answered = answer_all(
        &mut rt.stdin(),
        &mut rt.stdout(),
        u64::MAX,
        |input| next_record(alloc, input),
        |record| Ok(text_of(alloc, &record)?),
    );
    ended(&rt, answered)
}

fn text_of(alloc: Global, record: &Record) -> Result<Vec<u8>, AllocError> {
    match record.kind {
        Kind::Report => report_case(alloc, &record.body),
        Kind::Lowest => lowest_case(alloc, &record.body),
        Kind::Factors => factors_case(alloc, &record.body),
        Kind::Table => table_case(alloc, &record.body),
        Kind::Opening => opening_case(alloc, &record.body),
        Kind::Partner => partner_case(alloc, &record.body),
        Kind::Marks => marks_case(alloc, &record.body),
        Kind::Rates => rates_case(alloc, &record.body),
    }
}
