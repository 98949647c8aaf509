// Store a symbol: its prefix comes to the top by the fewest pushes.
ghost use Rattle.std.specs.Prelude.{◌≡◌, List, map, ℕ, ◌≤◌, ◌<◌, IfOk, length, take};
ghost use Rattle.theory.specs.Lists.{padded};
ghost use Rattle.theory.specs.Permutation.{IsPermutation};
ghost use Rattle.theory.specs.Levels as meaning;
ghost use Rattle.theory.specs.Spent.{Spends};
ghost use Rattle.permutation.specs.Refusals.{number_in};
ghost use Rattle.charge.specs.Answers.{as_pushes};
ghost use Rattle.symbols.specs.Answers.{lead_answer, lead_levels, store_answer, store_levels, LedBy, StoreOf};
ghost use Rattle.symbols.specs.AnyPrefix.{PrefixRow, FallsFrom, FoundAs};

use super::answers::Prefix;
use super::row::prefix_row;
use charge::answers::Spent;
use charge::judge::{highest, read_number, tied};
use permutation::reasons::Refusal;
use rewriting::raise::raise;

// The levels of a row's cells, in its sequence.
fn levels_along(levels: &[u16], cells: &[u8; 20]) -> [u16; 20]
    requires { (length levels.now ≤ 20) × IsPermutation (length levels.now) (take (length levels.now) cells.now) }
    ensures { result ≡ padded 20 0 (map (meaning.level levels.now) (take (length levels.now) cells.now)) }
{
    let mut along = [0; 20];
    for (i, cell) in cells[..levels.len()].iter().enumerate() {
        along[i] = levels[usize::from(*cell) - 1];
    }
    along
}

// How many of the first p cells of a row with these levels must be pushed. From the p-th up, a cell stands while it is above all behind it.
fn store_count(along: &[u16], p: usize) -> usize
    requires { p < length along.now }
    ensures { FallsFrom along.now p result }
{
    let mut bound = highest(&along[p..]);
    for (i, level) in along[..p].iter().enumerate().rev() {
        if *level <= bound {
            return i + 1;
        }
        bound = *level;
    }
    0
}

// Where all of the first p stand, only the others can be tied.
fn tied_along(along: &[u16], p: usize, r: usize) -> bool
    requires { FallsFrom along.now p r }
    ensures { result ≡ meaning.tied along.now }
{
    let all_stand = r == 0;
    tied(if all_stand { &along[p..] } else { along })
}

// Any prefix is stored, with the other cells behind it in its row, so that the levels need not be sorted. For other crates too: it asks for such a row.
pub fn store_prefix(levels: &mut [u16], prefix: &Prefix) -> Result<Spent, Refusal>
    requires { PrefixRow levels.old prefix.now.cells prefix.now.length }
    ensures answer { as_pushes result ≡ lead_answer 0 levels.old (take prefix.now.length prefix.now.cells) }
    ensures levels_left { levels.new ≡ lead_levels 0 levels.old (take prefix.now.length prefix.now.cells) }
    ensures led { IfOk result (λ done. LedBy (take prefix.now.length prefix.now.cells) levels.old levels.new done.pushes) }
{
    let row = levels_along(levels, &prefix.cells);
    let along = &row[..levels.len()];
    let r = store_count(along, prefix.length);
    if tied_along(along, prefix.length, r) {
        return Err(Refusal::Tie);
    }
    raise(levels, &prefix.cells, r)
}

// What was found is stored: its prefix, or none of a refusal, before which a tie of the levels goes, which has the lower number. For other crates too: it asks for a row
// of all cells. `answer`, `levels_left` and `led` speak of the prefix where one was found, and of a refusal whatever list is named.
pub fn store_found(levels: &mut [u16], found: Result<Prefix, Refusal>) -> Result<Spent, Refusal>
    requires { IfOk found (λ p. PrefixRow levels.old p.cells p.length) }
    ensures answer { (q : List ℕ) → FoundAs found q → as_pushes result ≡ lead_answer (number_in found) levels.old q }
    ensures levels_left { (q : List ℕ) → FoundAs found q → levels.new ≡ lead_levels (number_in found) levels.old q }
    ensures led { (q : List ℕ) → FoundAs found q → IfOk result (λ done. LedBy q levels.old levels.new done.pushes) }
{
    match found {
        Ok(prefix) => store_prefix(levels, &prefix),
        Err(refusal) => read_number(levels).and(Err(refusal)),
    }
}

// `stored`: what the levels then are read as, that no shorter row of pushes brings the prefix to the top, and that the symbol is read back.
pub fn store(levels: &mut [u16], m: u64, symbol: u64) -> Result<Spent, Refusal>
    ensures answer { as_pushes result ≡ store_answer levels.old m symbol }
    ensures levels_left { levels.new ≡ store_levels levels.old m symbol }
    ensures stored { IfOk result (λ done. StoreOf levels.old m symbol levels.new done.pushes) }
    ensures spent { Spends levels.old levels.new (as_pushes result).charge }
{
    store_found(levels, prefix_row(levels.len(), m, symbol))
}
