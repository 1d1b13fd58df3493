// Answers every recorded job of standard input as `fan` does, and writes the lines one after the other.
#![tactic(auto)]

use arguments::ended;
use case_texts::lowest_case;
use records::answer_records;
use std::process::ExitCode;

fn main(rt: HostRuntime) -> ExitCode {
    let alloc = rt.alloc();
    let answered = answer_records(alloc, &mut rt.stdin(), &mut rt.stdout(), |job| {
        lowest_case(alloc, job)
    });
    ended(&rt, answered)
}
