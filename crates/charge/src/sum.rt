// The sum of levels.
ghost use Rattle.std.specs.Prelude.{◌≡◌, ◌≤◌, length};
ghost use Rattle.theory.specs.Spent.{level_sum};

// It asks for at most twenty, so that the sum fits.
pub fn level_sum(levels: &[u16]) -> u32
    requires { length levels.now ≤ 20 }
    ensures { result ≡ level_sum levels.now }
{
    levels.iter().map(|level| u32::from(*level)).sum()
}
