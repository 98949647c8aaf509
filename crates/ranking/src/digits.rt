// The digits, by spots. The circle of the cells 1 to m is read downward and upward by turns as m falls, and no remaining permutation is copied.
// The gap s is one of 0 to m, and both change at each cell: each function asks for `s ≤ m`, here and in `unrank`, since a type for a gap of m would be made anew, with its proof, at each.
ghost use Rattle.std.specs.Prelude.{◌≡◌, true, false, ◌+◌, ◌≤◌, ◌<◌};
ghost use Rattle.theory.specs.Rank as meaning;
ghost use Rattle.ranking.specs.Answers.{as_digits, digits_answer};
ghost use Rattle.ranking.specs.BySpots.{Low, passed, read_into};

use permutation::answers::Permutation;
use permutation::reasons::Refusal;
use permutation::validity::check_into;

// The digit of cell m, of m cells, that is met past `passed` others: its place less 2, modulo m. At every place but 1 the place less 2 is the digit itself, so that
// one comparison is enough, and no division, the controller's slowest instruction, is needed.
#[tactic(auto, using(crate::proofs::Passed::digit_none_passed, crate::proofs::Passed::digit_some_passed))]
fn digit_of(m: usize, passed: usize) -> u8
    requires { (passed < m) × (m ≤ 20) }
    ensures { result ≡ meaning.digit m (passed + 1) }
{
    if 0 < passed {
        (passed - 1) as u8
    } else {
        (m - 1) as u8
    }
}

// How many cells are passed from the gap s, which is before the cell at spot s, to the cell at spot j, of m on the circle: down the places, or up. The direction turns
// round from cell to cell.
#[tactic(auto, using(std::proofs::lemmas::Bool::Decides::nat_tests), unfolding(crate::specs::BySpots::passed))]
fn passed(down: bool, m: usize, s: usize, j: usize) -> usize
    requires { (s ≤ m) × (j < m) × (m ≤ 20) }
    ensures { result ≡ passed down m s j }
{
    if down {
        if s <= j { j - s } else { j + m - s }
    } else {
        if j < s { s - 1 - j } else { s + m - 1 - j }
    }
}

// The digits of the cells m, m-1, .., 1 go to the row's places up to n. The circle is read by turns, so that there are two readers: this one goes down the places,
// from the gap s on, and leaves the smaller cells to the other.
#[cycle(read_down_read_up)]
fn read_down(spots: &[u8; 21], n: usize, s: usize, m: usize, row: &mut [u8; 20])
    requires { (n ≤ 20) × (m ≤ n) × (s ≤ m) × Low spots.now m }
    ensures { row.new ≡ read_into true n m s spots.now row.old }
{
    if 0 < m {
        let j = usize::from(spots[m]);
        row[n - m] = digit_of(m, passed(true, m, s, j));
        read_up(spots, n, j, m - 1, row);
    }
}

// The same, up the places.
#[cycle(read_down_read_up)]
fn read_up(spots: &[u8; 21], n: usize, s: usize, m: usize, row: &mut [u8; 20])
    requires { (n ≤ 20) × (m ≤ n) × (s ≤ m) × Low spots.now m }
    ensures { row.new ≡ read_into false n m s spots.now row.old }
{
    if 0 < m {
        let j = usize::from(spots[m]);
        row[n - m] = digit_of(m, passed(false, m, s, j));
        read_down(spots, n, j, m - 1, row);
    }
}

pub fn digits(permutation: Permutation) -> Result<[u8; 20], Refusal>
    ensures { as_digits result ≡ digits_answer permutation }
{
    let mut spots = [0; 21];
    check_into(permutation, &mut spots)?;
    let mut row = [0; 20];
    read_down(&spots, permutation.n, 0, permutation.n, &mut row);
    Ok(row)
}
