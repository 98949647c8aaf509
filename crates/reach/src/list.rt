// Permutations in a lent list of bytes, one after another.
ghost use Rattle.std.specs.Prelude.{◌≡◌, ◌≤◌, length, take};
ghost use mathlib.Core.List.{flatten};
ghost use Rattle.std.proofs.lemmas.List.Edits.{sets};
ghost use Rattle.reach.specs.Reach.{within_reach};
ghost use Rattle.reach.specs.Led.{LedRow, HasRoom, led, led_then};

use permutation::insert::put_in;

// A row, of fixed memory, that has a permutation of n cells, of which the first p lead. Listed are those that they begin, and whose other cells are d pushes away from the row's.
#[derive(Clone, Copy)]
struct Led {
    row: [u8; 20],
    n: usize,
    p: usize,
    d: usize,
    ghost leads: { LedRow row n p d },
}

impl Led {
    // Of what is listed, the permutations that have cell c behind the first p. Returns how many bytes they take.
    #[cycle(list_list_then)]
    fn list_then(&self, list: &mut [u8], c: u8) -> usize
        requires { (1 ≤ self.now.d) × (1 ≤ c) × (c ≤ self.now.n) × HasRoom list.old 0 (led_then self.now.n self.now.row self.now.p self.now.d c) }
        ensures bytes { result ≡ length (led_then self.now.n self.now.row self.now.p self.now.d c) }
        ensures listed { list.new ≡ sets list.old 0 (led_then self.now.n self.now.row self.now.p self.now.d c) }
    {
        let others = &self.row[self.p..self.n];
        let Some(further) = others.iter().position(|cell| *cell == c) else {
            return 0;
        };
        let i = self.p + further;
        // i is p and d is 1: that would be the row's own permutation, 0 pushes away
        if i + self.d == self.p + 1 {
            return 0;
        }
        let mut row = self.row;
        put_in(&mut row, i, self.p, c);
        let next = Led {
            row,
            n: self.n,
            p: self.p + 1,
            d: self.d - 1,
        };
        next.list(list)
    }

    // To the list's start, in lexicographic sequence: each name in turn is the next cell. Returns how many bytes it is.
    #[cycle(list_list_then)]
    fn list(&self, list: &mut [u8]) -> usize
        requires { HasRoom list.old 0 (led self.now.n self.now.row self.now.p self.now.d) }
        ensures bytes { result ≡ length (led self.now.n self.now.row self.now.p self.now.d) }
        ensures listed { list.new ≡ sets list.old 0 (led self.now.n self.now.row self.now.p self.now.d) }
    {
        if self.d == 0 {
            list[..self.n].copy_from_slice(&self.row[..self.n]);
            return self.n;
        }
        let mut at = 0;
        for c in 1..=self.n as u8 {
            at += self.list_then(&mut list[at..], c);
        }
        at
    }
}

// Those that are 0, 1, .., r pushes away, from the list's start.
pub fn list_within(list: &mut [u8], cells: &[u8; 20], n: usize, r: usize)
    requires { LedRow cells.now n 0 r × HasRoom list.old 0 (flatten (within_reach n (take n cells.now) r)) }
    ensures { list.new ≡ sets list.old 0 (flatten (within_reach n (take n cells.now) r)) }
{
    let mut at = 0;
    for d in 0..=r {
        let led = Led {
            row: *cells,
            n,
            p: 0,
            d,
        };
        at += led.list(&mut list[at..]);
    }
}
