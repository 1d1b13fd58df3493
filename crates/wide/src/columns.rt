// The one chain of carries: six columns of up to 64 bits become six limbs and what is left over.
ghost use Rattle.std.specs.Prelude.{◌≡◌, ℕ, ◌+◌, ◌-◌, ◌*◌, ◌/◌, ◌%◌, ◌^◌, ◌<◌, ◌≤◌, slice_index};
ghost use Rattle.wide.specs.Limbs.{number};
ghost use Rattle.wide.specs.Value.{modulus};

use crate::number::Wide;

// A number, and the carry that counts whole multiples of 2^192.
#[derive(Clone, Copy)]
pub(crate) struct Settled {
    pub number: Wide,
    pub carry: u64,
}

// The column of a sum: one limb and another.
pub(crate) fn limb_sum(x: u32, y: u32) -> u64
    ensures { (result ≡ x + y) × (result ≤ 2 ^ 64 - 2 ^ 32) }
{
    u64::from(x) + u64::from(y)
}

// The column of a product: one limb times another.
pub(crate) fn limb_product(x: u32, k: u32) -> u64
    ensures { (result ≡ x * k) × (result ≤ 2 ^ 64 - 2 ^ 32) }
{
    u64::from(x) * u64::from(k)
}

// Carries from the lowest column up, which is the last; each column above it leaves room for the carry into it.
pub(crate) fn settle(columns: [u64; 6]) -> Settled
    requires { (k : ℕ) → k < 5 → slice_index columns k ≤ 2 ^ 64 - 2 ^ 32 }
    ensures whole { number columns ≡ result.number + modulus * result.carry }
    ensures within { result.number < modulus }
{
    let mut limbs = [0; 6];
    let mut carry = 0;
    // By the index, since nothing is known after a loop of what it wrote through `zip` and `rev` of `iter_mut`.
    for i in (0..6).rev() {
        let column = columns[i] + carry;
        limbs[i] = low(column);
        carry = column / 0x1_0000_0000;
    }
    Settled {
        number: Wide { limbs },
        carry,
    }
}

// The limb that stays in a column once the rest is carried.
// This cast and that of `upper` cut nothing: each is of a number below 2^32.
pub(crate) fn low(column: u64) -> u32
    ensures { result ≡ column % 2 ^ 32 }
{
    (column % 0x1_0000_0000) as u32
}

// The upper half of a word, above its low limb.
pub(crate) fn upper(word: u64) -> u32
    ensures { result ≡ word / 2 ^ 32 }
{
    (word / 0x1_0000_0000) as u32
}
