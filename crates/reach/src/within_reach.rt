// The permutations within reach of r pushes from the one that the levels have.
ghost use Rattle.std.specs.Prelude.{◌≡◌, length};
ghost use Rattle.reach.specs.Answers.{as_reached, reach_answer, reach_list, ReachOf};

use super::list::list_within;
use charge::judge::read_number;
use charge::sort::sort_cells;
use permutation::reasons::Refusal;
use ranking::factorials::falling_factorial;

// Gives how many there are. `reaching`: what the list then has is what the rows of at most r pushes lead to, each once and in sequence.
pub fn within_reach(levels: &[u16], r: usize, list: &mut [u8]) -> Result<usize, Refusal>
    ensures answer { as_reached result ≡ reach_answer levels.now r (length list.old) }
    ensures list_left { list.new ≡ reach_list levels.now r list.old }
    ensures reaching { ReachOf levels.now r (as_reached result) list.new }
{
    read_number(levels)?;
    let n = levels.len();
    if n <= r {
        return Err(Refusal::Value);
    }
    let permutations = falling_factorial(n, r) as usize;
    // divided, since 20 times 20! does not fit
    if 65536 / n < permutations {
        return Err(Refusal::Value);
    }
    if list.len() < permutations * n {
        return Err(Refusal::Fit);
    }
    // sorted past the last test, so that a refusal costs no sort
    let mut cells = [0; 20];
    sort_cells(levels, &mut cells);
    list_within(list, &cells, n, r);
    Ok(permutations)
}
