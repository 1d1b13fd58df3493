// What is answered to a whole job.
use book::MAX_MEMBERS;
use coefficients::CoefficientSet;
use verdict::{Verdict, WorkingLevels};

// What is worked out for an accepted job, besides its factors, and by which coefficients.
#[derive(Clone, Copy)]
pub struct Figures {
    pub set: CoefficientSet,
    pub concentration: u64,
    pub verdict: Verdict,
    pub level: u32,
    pub working: Option<WorkingLevels>,
}

// The answer to a job that is accepted. With no heap, the factors stand in the first `count` places of a fixed array.
#[derive(Clone, Copy)]
pub struct Answer {
    pub figures: Figures,
    pub factors: [u64; MAX_MEMBERS],
    pub count: usize,
}
