// Answers every recorded job of standard input as `screen` does, and writes the texts one after the other.
#![tactic(auto)]

use arguments::ended;
use case_texts::report_case;
use records::answer_records;
use std::process::ExitCode;

fn main(rt: HostRuntime) -> ExitCode {
    let alloc = rt.alloc();
    let answered = answer_records(alloc, &mut rt.stdin(), &mut rt.stdout(), |job| {
        report_case(alloc, job)
    });
    ended(&rt, answered)
}
