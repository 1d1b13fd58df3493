// Tests of the numbers below another.
ghost use Rattle.std.specs.Prelude.{◌<◌};
ghost use Rattle.numbers.specs.Tests.{TellsSome};

// Whether a number below `count` passes the test.
pub fn some_below<F: Fn(u16) -> bool>(count: u16, test: F) -> bool
    requires { (i : _) → i < count → F.pre test i }
    ensures { TellsSome (F.post test) count result }
{
    (0..count).any(test)
}
