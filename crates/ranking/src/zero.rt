// The zero that a group counts from, and its rank.
ghost use Rattle.std.specs.Prelude.{◌≡◌, ◌≤◌};
ghost use Rattle.theory.specs.Rank as meaning;
ghost use Rattle.ranking.specs.Zeros.{zero_permutation, zero_gives};

use permutation::reasons::Refusal;

// Old, the permutation of rank 0, which modules already in cellars keep; or new, [1, 2, .., n].
#[derive(Clone, Copy, Debug, PartialEq, Eq)]
pub enum Zero {
    Old,
    New,
}

// A zero as a number, for C and in lists: 0 is old and 1 is new, and one that is neither is refused as a value.
impl TryFrom<u8> for Zero {
    type Error = Refusal;

    ghost try_from_gives = { zero_gives };

    #[tactic(auto, unfolding(crate::specs::Zeros::zero_number, crate::specs::Zeros::numbered_zero))]
    fn try_from(number: u8) -> Result<Zero, Refusal> {
        match number {
            0 => Ok(Zero::Old),
            1 => Ok(Zero::New),
            _ => Err(Refusal::Value),
        }
    }
}

// The ranks of [1, 2, .., n] for n from 0 to 20.
static NEW_ZERO_RANKS: [u64; 21] = [
    0,
    0,
    0,
    4,
    10,
    98,
    328,
    4156,
    18422,
    299302,
    1658068,
    32923328,
    218865106,
    5136039322,
    39833449472,
    1078568257828,
    9560027873518,
    293370566129486,
    2925368529296812,
    100332733616284552,
    1111640041132788938,
];

// The rank of the zero of n cells, one arm a zero. For the jobs beside it: it asks for at most twenty cells.
pub fn zero_rank(n: usize, zero: Zero) -> u64
    requires { n ≤ 20 }
    ensures { result ≡ meaning.rank n (zero_permutation zero n) }
{
    match zero {
        Zero::Old => 0,
        Zero::New => NEW_ZERO_RANKS[n],
    }
}
