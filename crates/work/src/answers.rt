// What the jobs on a sheet give.
use charge::answers::Pushes;
use ranking::zero::Zero;
use sheet::held::Groups;

// What the commands did, one answer each, and the groups that they left, with the zero and the value of each. Past the counts stand zeros, and the old zero.
// The rows are of fixed length, since no memory is allocated, and an answer is told as it is printed: its number first.
#[derive(Clone, Copy)]
pub struct Outcome {
    pub count: usize,
    pub answers: [Pushes; 1000],
    pub groups: Groups,
    pub zeros: [Zero; 64],
    pub values: [u64; 64],
}
