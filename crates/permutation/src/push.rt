// Push: the cell at a place goes to place 1, and those above it move down one.
ghost use Rattle.std.specs.Prelude.{◌≡◌, ◌≤◌, length};
ghost use Rattle.theory.specs.Push as meaning;
ghost use Rattle.permutation.specs.Answers.{push_answer, as_permuted};

use super::answers::Permutation;
use super::insert::put_in;
use super::reasons::Refusal;
use super::validity::check;

// In place. For other crates too: it asks for a place of the row.
pub fn push_row(cells: &mut [u8; 20], place: usize)
    requires { (1 ≤ place) × (place ≤ 20) }
    ensures { cells.new ≡ meaning.push place cells.old }
{
    let c = cells[place - 1];
    put_in(cells, place - 1, 0, c);
}

// By value: a row goes in and comes back pushed.
fn pushed_row(mut cells: [u8; 20], place: usize) -> [u8; 20]
    requires { (1 ≤ place) × (place ≤ 20) }
    ensures { result ≡ meaning.push place cells }
{
    push_row(&mut cells, place);
    cells
}

pub fn push(permutation: Permutation, place: usize) -> Result<Permutation, Refusal>
    ensures { as_permuted result ≡ push_answer permutation place }
{
    check(permutation)?;
    if !(2..=permutation.n).contains(&place) {
        return Err(Refusal::Value);
    }
    let cells = pushed_row(permutation.cells, place);
    Ok(Permutation {
        cells,
        ..permutation
    })
}
