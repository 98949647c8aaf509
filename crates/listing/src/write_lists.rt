// A sheet that is held in lent lists, one for each field, written into a lent list of bytes.
ghost use Rattle.std.specs.Prelude.{◌≡◌, length};
ghost use Rattle.permutation.specs.Refusals.{number_in};
ghost use Rattle.listing.specs.LentLists as meaning;
ghost use Rattle.writer.specs.Answers.{as_written};
ghost use Rattle.writer.specs.RoundTrips.{RoundTrips};

use super::lists::{entries_in, groups_in};
use super::zeros::{judge_zeros, zeros_in};
use permutation::reasons::Refusal;
use sheet::held::{Groups, Sheet};
use writer::write_sheet::write_sheet;

// The lists, which C lends one by one.
#[derive(Drop)]
struct Lists<'a> {
    sizes: &'a [usize],
    levels: &'a [u16],
    zeros: &'a [u8],
    kinds: &'a [u8],
    groups: &'a [u8],
    numbers: &'a [u64],
    names: &'a [u8],
}

impl Lists<'_> {
    // By their lengths, without a product that could overflow.
    fn are_long_enough(&self) -> bool
        ensures { result ≡ meaning.long_enough (length self.now.sizes.now) (length self.now.levels.now) (length self.now.zeros.now) (length self.now.kinds.now) (length self.now.groups.now) (length self.now.numbers.now) (length self.now.names.now) }
    {
        let sizes = self.sizes.len();
        let kinds = self.kinds.len();
        sizes <= self.levels.len() / 20
            && sizes <= self.zeros.len()
            && kinds <= self.groups.len()
            && kinds <= self.numbers.len() / 2
            && kinds <= self.names.len() / 20
    }

    // Do they hold a sheet?
    fn judge(&self) -> Result<(), Refusal>
        ensures { number_in result ≡ meaning.lists_number (meaning.lists self.now.sizes.now self.now.levels.now self.now.zeros.now self.now.kinds.now self.now.groups.now self.now.numbers.now self.now.names.now) }
    {
        if !self.are_long_enough() {
            return Err(Refusal::Fit);
        }
        judge_zeros(&self.zeros[..self.sizes.len()])
    }
}

pub fn write_lists(
    sizes: &[usize],
    levels: &[u16],
    zeros: &[u8],
    kinds: &[u8],
    groups: &[u8],
    numbers: &[u64],
    names: &[u8],
    out: &mut [u8],
) -> Result<usize, Refusal>
    ensures answer { as_written result ≡ meaning.lists_answer (meaning.lists sizes.now levels.now zeros.now kinds.now groups.now numbers.now names.now) (length out.old) }
    ensures out_left { out.new ≡ meaning.lists_on (meaning.lists sizes.now levels.now zeros.now kinds.now groups.now numbers.now names.now) out.old }
    ensures round_trips { meaning.lists_number (meaning.lists sizes.now levels.now zeros.now kinds.now groups.now numbers.now names.now) ≡ 0 → RoundTrips (meaning.held_in (meaning.lists sizes.now levels.now zeros.now kinds.now groups.now numbers.now names.now)) out.old (as_written result) out.new }
{
    let lists = Lists {
        sizes,
        levels,
        zeros,
        kinds,
        groups,
        numbers,
        names,
    };
    lists.judge()?;
    // The sheet is made here and not in a method: what that gave back would be blanked and copied once more.
    let list = groups_in(sizes, levels);
    let row = zeros_in(zeros, sizes.len());
    let entries = entries_in(kinds, groups, numbers, names);
    let sheet = Sheet {
        groups: Groups {
            count: sizes.len(),
            list,
        },
        zeros: row,
        count: kinds.len(),
        entries,
    };
    write_sheet(sheet, out)
}
