// The value: the rank, counted from a zero.
ghost use Rattle.std.specs.Prelude.{◌≡◌, ◌+◌, ◌-◌, ◌%◌, ◌≤◌, ◌<◌};
ghost use Rattle.theory.specs.Factorial.{factorial};
ghost use Rattle.theory.specs.Rank as meaning;
ghost use Rattle.ranking.specs.Answers.{as_valued, value_answer, value_by_number_answer};
ghost use Rattle.ranking.specs.Zeros.{zero_permutation};

use super::factorials::small_factorial;
use super::rank::rank;
use super::zero::{Zero, zero_rank};
use permutation::answers::Permutation;
use permutation::reasons::Refusal;

// a less b modulo the limit, by one comparison and no division. Of numbers below 20! the sum fits 64 bits.
fn less_modulo(a: u64, b: u64, limit: u64) -> u64
    requires { (a < limit) × (b < limit) × (limit ≤ 2432902008176640000) }
    ensures { result ≡ (a + limit - b) % limit }
{
    if b <= a { a - b } else { a + limit - b }
}

// The value of a rank: the rank less that of the zero.
fn value_of(rank: u64, n: usize, zero: Zero) -> u64
    requires { (n ≤ 20) × (rank < factorial n) }
    ensures { result ≡ (rank + factorial n - meaning.rank n (zero_permutation zero n)) % factorial n }
{
    less_modulo(rank, zero_rank(n, zero), small_factorial(n))
}

pub fn value(permutation: Permutation, zero: Zero) -> Result<u64, Refusal>
    ensures { as_valued result ≡ value_answer permutation zero }
{
    let found = rank(permutation)?;
    Ok(value_of(found, permutation.n, zero))
}

// The zero as a number, as C has it. One that is none is refused after the reasons of the job itself.
pub fn value_by_number(permutation: Permutation, zero: u8) -> Result<u64, Refusal>
    ensures { as_valued result ≡ value_by_number_answer permutation zero }
{
    let found = rank(permutation)?;
    Ok(value_of(found, permutation.n, Zero::try_from(zero)?))
}
