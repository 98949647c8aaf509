// The rank: the number that the digits stand for.
ghost use Rattle.std.specs.Prelude.{◌≡◌, ◌≤◌};
ghost use Rattle.theory.specs.Rank as meaning;
ghost use Rattle.ranking.specs.Answers.{as_ranked, rank_answer};
ghost use Rattle.ranking.specs.BySpots.{Bounded};

use super::digits::digits;
use super::weights::weight_row;
use permutation::answers::Permutation;
use permutation::reasons::Refusal;

// By value: a row of digits goes in. The lowest digit first, each times its weight.
fn row_value(row: [u8; 20], n: usize) -> u64
    requires { (1 ≤ n) × Bounded row n }
    ensures { result ≡ meaning.weighted_sum n n row }
{
    let mut rank = 0;
    for (digit, weight) in row[..n].iter().zip(weight_row(n)) {
        rank += u64::from(*digit) * *weight;
    }
    rank
}

pub fn rank(permutation: Permutation) -> Result<u64, Refusal>
    ensures { as_ranked result ≡ rank_answer permutation }
{
    let row = digits(permutation)?;
    Ok(row_value(row, permutation.n))
}
