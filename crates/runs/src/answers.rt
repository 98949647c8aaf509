// What runs of steps give.
use permutation::answers::Permutation;

#[derive(Clone, Copy, Debug, PartialEq, Eq)]
pub struct Ran {
    pub permutation: Permutation,
    // its rank
    pub rank: u64,
    // how often each cell came to place 1, by cell name
    pub counts: [u64; 20],
    // how many times "is the largest cell on top" was tested, modulo 2^64
    pub tests: u64,
}

// A run on levels.
#[derive(Clone, Copy, Debug, PartialEq, Eq)]
pub struct RanLevels {
    pub pushes: u32,
    // the jumps of these pushes, added up
    pub charge: u32,
    // how often each cell was pushed, by cell name
    pub counts: [u64; 20],
    // the most that the highest level was above the lowest after any step
    pub widest: u16,
    // the most that a push raised its cell
    pub largest: u16,
    // of the permutation read from the levels that were left
    pub rank: u64,
}
