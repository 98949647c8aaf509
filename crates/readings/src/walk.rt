// A walk along the cycle, by successor and push. After each step the rank, and the permutation of the rank, are compared with the start's rank plus the
// steps, modulo n!.
use super::answers::Record;
use super::numbers::Given;
use super::text::Text;
use permutation::answers::Permutation;
use permutation::push::push;
use permutation::successor::successor;
use ranking::factorials::factorial;
use ranking::rank::rank;
use ranking::unrank::unrank;
use std::fmt::{Result, Write};

// Where a walk stands: the permutation, the rank that it must have, and after how many steps it had it.
#[derive(Drop)]
struct Stand {
    current: Permutation,
    expected: u64,
    agreed: u64,
}

// One more, modulo n!.
fn next_rank(n: usize, rank: u64) -> u64 {
    let next = rank.saturating_add(1);
    if next < factorial(n) { next } else { 0 }
}

// Zeros where it is refused, and so below.
fn rank_of(permutation: Permutation) -> u64 {
    rank(permutation).unwrap_or(0)
}

fn next_place(permutation: Permutation) -> usize {
    successor(permutation).map_or(0, |step| step.place)
}

impl Stand {
    fn at(start: Permutation) -> Self {
        Stand {
            current: start,
            expected: rank_of(start),
            agreed: 0,
        }
    }

    // Whether the permutation has the rank, and the rank the permutation.
    fn agrees(&self) -> bool {
        let ranked = unrank(self.current.n, self.expected).unwrap_or(Permutation::none());
        rank_of(self.current) == self.expected && ranked.cells == self.current.cells
    }

    fn advance(&mut self) {
        self.current = push(self.current, next_place(self.current)).unwrap_or(Permutation::none());
        self.expected = next_rank(self.current.n, self.expected);
        if self.agrees() {
            self.agreed = self.agreed.saturating_add(1);
        }
    }

    // A number, the permutation with its rank, and the place of its next step.
    fn show(&self, number: u64, text: &mut Text) -> Result {
        write!(text, " {number} : {}", Record(&self.current))?;
        let place = next_place(self.current);
        write!(text, " : {} {place}", rank_of(self.current))
    }
}

// How many steps, every how many of them a line is shown, and the start's record. A last line says after how many steps rank and unrank agreed.
pub fn on_walk(mut given: Given<'_>, text: &mut Text) -> Result {
    let steps = given.number();
    let every = given.number();
    let mut stand = Stand::at(given.permutation());
    for k in 0..steps {
        if k.checked_rem(every) == Some(0) {
            text.write_str("\nstep")?;
            stand.show(k, text)?;
        }
        stand.advance();
    }
    text.write_str("\nagreed")?;
    stand.show(stand.agreed, text)
}
