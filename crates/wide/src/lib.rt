// Whole numbers below 2^192, and the quotients of products of two words.
// Every function takes every input; a result that could pass 2^192 is exact modulo 2^192.
#![tactic(auto)]

mod arithmetic;
mod columns;
mod division;
mod number;
mod order;
mod quotient;

pub use division::{product_quotient, products_quotient};
pub use number::Wide;
