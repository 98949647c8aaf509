// The permutation of a rank, by spots: the cells are put in one after the other, the smallest first, and nothing is turned round.
ghost use Rattle.std.specs.Prelude.{◌≡◌, true, ◌++◌, ◌+◌, ◌≤◌, ◌<◌, drop};
ghost use Rattle.theory.specs.Unrank as meaning;
ghost use Rattle.permutation.specs.Answers.{as_permuted};
ghost use Rattle.ranking.specs.Answers.{unrank_answer};
ghost use Rattle.ranking.specs.BySpots.{spot_after, cells_by_spots};

use super::factorials::small_factorial;
use permutation::answers::Permutation;
use permutation::insert::put_in;
use permutation::reasons::{Refusal, size_within};

// How many cells stand before cell m, of m cells, where its digit is d.
fn passed_by_digit(m: usize, d: usize) -> usize
    requires { (d < m) × (m ≤ 20) }
    ensures { (result + 1 ≡ meaning.place_of_digit m d) × (result < m) }
{
    if d == m - 1 { 0 } else { d + 1 }
}

// The spot that is met past p cells from the gap s on, of m on the circle: down the places, or up.
#[tactic(auto, using(std::proofs::lemmas::Bool::Decides::nat_tests), unfolding(crate::specs::BySpots::spot_after))]
fn spot_after(down: bool, m: usize, s: usize, p: usize) -> usize
    requires { (s ≤ m) × (p < m) × (m ≤ 20) }
    ensures { (result ≡ spot_after down m s p) × (result < m) }
{
    if down {
        if p + s < m { p + s } else { p + s - m }
    } else if p < s {
        s - 1 - p
    } else {
        s + m - 1 - p
    }
}

// The cells 1 to m of the rank go to the first m places. The direction is a value, since it turns round at each cell. The circle is read from the gap s on, down the places or up, and the other way
// round for the smaller cells.
fn fill(cells: &mut [u8; 20], down: bool, m: usize, s: usize, rank: u64)
    requires { (m ≤ 20) × (s ≤ m) }
    ensures { cells.new ≡ cells_by_spots down m s rank ++ drop m cells.old }
{
    if 0 < m {
        let size = m as u64;
        let p = passed_by_digit(m, (rank % size) as usize);
        let j = spot_after(down, m, s, p);
        fill(cells, !down, m - 1, j, rank / size);
        put_in(cells, m - 1, j, m as u8);
    }
}

// By value: a row goes in and comes back with the cells of the rank in its first n places.
fn filled_row(mut cells: [u8; 20], n: usize, rank: u64) -> [u8; 20]
    requires { n ≤ 20 }
    ensures { result ≡ cells_by_spots true n 0 rank ++ drop n cells }
{
    // by way of a byte, so that the compiler knows the size's range in each round
    fill(&mut cells, true, usize::from(n as u8), 0, rank);
    cells
}

pub fn unrank(n: usize, rank: u64) -> Result<Permutation, Refusal>
    ensures { as_permuted result ≡ unrank_answer n rank }
{
    let within = size_within(n)?;
    if small_factorial(within) <= rank {
        return Err(Refusal::Value);
    }
    let cells = filled_row([0; 20], within, rank);
    Ok(Permutation { n: within, cells })
}
