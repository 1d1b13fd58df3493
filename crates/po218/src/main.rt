// The Po-218 column of source 000's radon table A-3, worked out by the factor call and printed as the table prints it.
#![tactic(auto)]

use std::io::Write;
use std::{fmt, io};
use tables::SOURCE_RATES;

// Radon, which is held, and Po-218: half-life 186,000,000,000 ns (3.10 minutes), fed wholly by the parent.
const BOOK: [u8; 80] = [
    2, 1, 232, 3, 0, 0, 0, 0, 0, 0, 249, 244, 154, 42, 1, 0, 0, 0, 0, 0, 0, 0, 0, 0, 0, 0, 0, 0, 0,
    0, 0, 0, 0, 0, 0, 0, 0, 0, 0, 0, 0, 196, 118, 78, 43, 0, 0, 0, 0, 0, 0, 0, 0, 0, 0, 0, 0, 0, 0,
    0, 0, 0, 0, 0, 0, 0, 0, 0, 1, 0, 0, 0, 160, 134, 1, 0, 0, 0, 0, 0,
];

// Po-218's factor at a rate, in grains; none where the call refuses.
fn factor_at(v: u32) -> Option<u64> {
    let mut factors = [0u64; 2];
    balance::factors(v, &BOOK, &mut factors).ok()?;
    Some(factors[1])
}

fn main(rt: HostRuntime) -> io::Result<()> {
    for v in SOURCE_RATES {
        if let Some(factor) = factor_at(v) {
            print!(rt; "{} ", Rate(v))?;
            rt.stdout().write_all(&entry::entry_of(factor))?;
            println!(rt; "")?;
        }
    }
    Ok(())
}

// A rate in air changes per hour, printed without zeros at its end.
#[derive(Drop)]
struct Rate(u32);

impl fmt::Display for Rate {
    fn fmt<W: fmt::Write>(&self, f: &mut fmt::Formatter<W>) -> fmt::Result {
        let whole = self.0 / 100;
        let tenths = self.0 % 100 / 10;
        let hundredths = self.0 % 10;
        if hundredths != 0 {
            write!(f, "{whole}.{tenths}{hundredths}")
        } else if tenths != 0 {
            write!(f, "{whole}.{tenths}")
        } else {
            write!(f, "{whole}")
        }
    }
}
