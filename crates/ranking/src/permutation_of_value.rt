// The permutation of a value: that of the rank which has the value.
ghost use Rattle.std.specs.Prelude.{◌≡◌, ◌+◌, ◌%◌, ◌≤◌, ◌<◌, IfOk};
ghost use Rattle.theory.specs.Factorial.{factorial};
ghost use Rattle.permutation.specs.Answers.{as_permuted};
ghost use Rattle.permutation.specs.Refusals.{number_in};
ghost use Rattle.ranking.specs.Answers.{unrank_number, permutation_of_value_answer, permutation_by_number_answer};

use super::factorials::small_factorial;
use super::unrank::unrank;
use super::zero::{Zero, zero_rank};
use permutation::answers::Permutation;
use permutation::reasons::{Refusal, size_within};

// The sum of a and b modulo the limit, by one comparison and no division. The difference stands in `value`: as a sum of a and the limit less b it would be one with the
// limit itself where b is 0. Of numbers below 20! it fits 64 bits.
fn plus_modulo(a: u64, b: u64, limit: u64) -> u64
    requires { (a < limit) × (b < limit) × (limit ≤ 2432902008176640000) }
    ensures { result ≡ (a + b) % limit }
{
    let sum = a + b;
    if limit <= sum { sum - limit } else { sum }
}

// n!, which is above the value: a value that is not below it is refused, as a rank is.
fn limit_above(n: usize, value: u64) -> Result<u64, Refusal>
    ensures number { number_in result ≡ unrank_number n value }
    ensures limit { IfOk result (λ limit. limit ≡ factorial n) }
{
    let limit = small_factorial(size_within(n)?);
    if limit <= value {
        return Err(Refusal::Value);
    }
    Ok(limit)
}

pub fn permutation_of_value(n: usize, value: u64, zero: Zero) -> Result<Permutation, Refusal>
    ensures { as_permuted result ≡ permutation_of_value_answer n value zero }
{
    let limit = limit_above(n, value)?;
    unrank(n, plus_modulo(value, zero_rank(n, zero), limit))
}

// The zero as a number, as C has it. One that is none is refused after the reasons of the job itself.
pub fn permutation_by_number(n: usize, value: u64, zero: u8) -> Result<Permutation, Refusal>
    ensures { as_permuted result ≡ permutation_by_number_answer n value zero }
{
    limit_above(n, value)?;
    permutation_of_value(n, value, Zero::try_from(zero)?)
}
