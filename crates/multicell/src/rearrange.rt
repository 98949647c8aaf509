// One arrangement of q × z cells changed into another.
ghost use Rattle.std.specs.Prelude.{◌≡◌, length};
ghost use Rattle.permutation.specs.Refusals.{number_in};
ghost use Rattle.multicell.specs.Answers.{as_rearranged, rearrange_number, rearrange_answer, rearrange_list, RaiseOf};
ghost use Rattle.multicell.specs.Cost.{raised_levels};
ghost use Rattle.multicell.specs.Pricing.{RaisedBytes};

use super::arranged::Sizes;
use super::cost::cost_of;
use permutation::reasons::Refusal;

// Size, fit or muddle. `room` is the length of the list for the raised levels.
#[tactic(auto, unfolding(crate::specs::Answers::rearrange_number))]
fn judge(q: usize, z: usize, old: &[u8], new: &[u8], room: usize) -> Result<(), Refusal>
    ensures { number_in result ≡ rearrange_number q z old.now new.now room }
{
    let sizes = Sizes::new(q, z)?;
    let cells = sizes.cells();
    if old.len() != cells || new.len() != cells || room != cells {
        return Err(Refusal::Fit);
    }
    if !sizes.used_each(old) || !sizes.used_each(new) {
        return Err(Refusal::Muddle);
    }
    Ok(())
}

// Each cell's new level plus the cost goes to the list. By index: a proof knows nothing of what `iter_mut` under `zip` wrote.
fn raise_levels(new: &[u8], cost: u8, list: &mut [u8])
    requires { RaisedBytes new.now cost list.old }
    ensures { list.new ≡ raised_levels cost new.now }
{
    for (i, level) in new.iter().enumerate() {
        list[i] = *level + cost;
    }
}

// Gives the cost. `least`: what the list then has is a raise of that cost, and none costs less.
pub fn rearrange(q: usize, z: usize, old: &[u8], new: &[u8], list: &mut [u8]) -> Result<u8, Refusal>
    ensures answer { as_rearranged result ≡ rearrange_answer q z old.now new.now (length list.old) }
    ensures list_left { list.new ≡ rearrange_list q z old.now new.now list.old }
    ensures least { RaiseOf q old.now new.now (as_rearranged result) list.new }
{
    judge(q, z, old, new, list.len())?;
    let cost = cost_of(old, new);
    raise_levels(new, cost, list);
    Ok(cost)
}
