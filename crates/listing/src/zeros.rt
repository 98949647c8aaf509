// The zeros of groups from a lent list of numbers.
ghost use Rattle.std.specs.Prelude.{◌≡◌, ◌≤◌, length};
ghost use Rattle.permutation.specs.Refusals.{number_in};
ghost use Rattle.ranking.specs.Zeros.{zero_number};
ghost use Rattle.ranking.specs.declared.zero.Zero.TheVariants.{Old};
ghost use Rattle.encoding.specs.Faults.{first};
ghost use Rattle.listing.specs.LentLists as meaning;

use super::lists::within;
use permutation::reasons::Refusal;
use ranking::zero::Zero;
use sheet::held::old_zeros;

// Is each of them the number of a zero?
pub fn judge_zeros(zeros: &[u8]) -> Result<(), Refusal>
    ensures { number_in result ≡ first zero_number zeros.now }
{
    for number in zeros {
        Zero::try_from(*number)?;
    }
    Ok(())
}

// The first `total` of them.
pub fn zeros_in(zeros: &[u8], total: usize) -> [Zero; 64]
    requires { total ≤ length zeros.now }
    ensures { result ≡ meaning.row_of 64 Old (meaning.zero_in zeros.now) total }
{
    let mut row = old_zeros();
    for i in 0..within(64, total) {
        row[i] = Zero::try_from(zeros[i]).unwrap_or(Zero::New);
    }
    row
}
