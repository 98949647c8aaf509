// The number of the prefix that leads a permutation, by spots.
ghost use Rattle.std.specs.Prelude.{◌≡◌, take};
ghost use Rattle.theory.specs.Prefix as meaning;
ghost use Rattle.symbols.specs.PrefixDigits.{RowSpots};

// Of the names that are left when cell c is chosen, those before it are the smaller ones that do not stand above it. For other crates too: it asks for a
// permutation in a row of twenty, its spots, and p at most n.
pub fn prefix_number(cells: &[u8; 20], spots: &[u8; 21], n: usize, p: usize) -> u64
    requires { RowSpots n p cells.now spots.now }
    ensures { result ≡ meaning.prefix_number n p (take n cells.now) }
{
    let mut number: u64 = 0;
    for (i, cell) in cells[..p].iter().enumerate() {
        let c = usize::from(*cell);
        let before = c - 1 - usize::from(spots[c]);
        number = number * ((n - i) as u64) + (before as u64);
    }
    number
}
