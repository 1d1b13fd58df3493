// The quotient of a product of two words, and of the sum of two such products.
ghost use Rattle.std.specs.Prelude.{◌≡◌, ◌+◌, ◌*◌, ◌/◌, ◌%◌, ◌^◌};

// f times k, divided by d and rounded down, modulo 2^64: 0 where d is 0.
pub fn product_quotient(f: u64, k: u64, d: u64) -> u64
    ensures { result ≡ f * k / d % 2 ^ 64 }
{
    if d == 0 {
        return 0;
    }
    low_word(product(f, k) / u128::from(d))
}

// a times b plus c times d, divided by e and rounded down, modulo 2^64: 0 where e is 0.
#[tactic(auto, using(crate::proofs::Parts::in_parts))]
pub fn products_quotient(a: u64, b: u64, c: u64, d: u64, e: u64) -> u64
    ensures { result ≡ (a * b + c * d) / e % 2 ^ 64 }
{
    if e == 0 {
        return 0;
    }
    let first = product(a, b);
    let divisor = u128::from(e);
    // The sum of the products may pass two words, and so may that of the quotients: what e leaves of the first product,
    // and the lower word of its quotient, are below a word.
    let rest = first % divisor + product(c, d);
    low_word(u128::from(low_word(first / divisor)) + rest / divisor)
}

// A product of two words, whole.
fn product(x: u64, y: u64) -> u128
    ensures { result ≡ x * y }
{
    u128::from(x) * u128::from(y)
}

// The lower of two words.
fn low_word(words: u128) -> u64
    ensures { result ≡ words % 2 ^ 64 }
{
    // The cast cuts nothing.
    (words % 0x1_0000_0000_0000_0000) as u64
}
