// The search by halves.
ghost use Rattle.std.specs.Prelude.{ℕ, ◌<◌, ◌≤◌};
ghost use Rattle.numbers.specs.Bisection.{LiesBetween};

// The first number below `count` at which a test holds, or `count` where it holds at none: a test that goes on holding
// once it holds. Each turn halves the span in which the number lies.
pub fn first_where<F: Fn(u32) -> bool>(count: u32, test: F) -> u32
    requires { (k : ℕ) → k < count → F.pre test k }
    ensures first { LiesBetween (F.post test) count result result }
    ensures within { result ≤ count }
{
    let mut low: u32 = 0;
    let mut high = count;
    while low < high {
        let middle = low + (high - low) / 2;
        if test(middle) {
            high = middle;
        } else {
            low = middle + 1;
        }
    }
    low
}
