// What a job on bands is judged by: size, fit and value of two lists, and whether cells lead in every choice of levels.
ghost use Rattle.std.specs.Prelude.{◌≡◌, length, take, IfOk};
ghost use Rattle.permutation.specs.Refusals.{number_in};
ghost use Rattle.symbols.specs.AnyPrefix.{PrefixRow};
ghost use Rattle.bands.specs.LeadTest.{lead_test};
ghost use Rattle.bands.specs.Answers.{none_above, bands_number, Banded};

use permutation::reasons::{Refusal, size_within};

// Is no lowest level above its highest?
fn none_above(lowest: &[u16], highest: &[u16]) -> bool
    requires { length highest.now ≡ length lowest.now }
    ensures { result ≡ none_above lowest.now highest.now }
{
    lowest.iter().zip(highest).all(|(low, high)| low <= high)
}

// A lowest and a highest level for each cell, which are bands.
#[derive(Clone, Copy)]
pub struct LevelBands<'a> {
    lowest: &'a [u16],
    highest: &'a [u16],
    ghost taken: { Banded lowest.now highest.now },
}

impl<'a> LevelBands<'a> {
    // Size, fit or value, where they are none.
    pub fn new(lowest: &'a [u16], highest: &'a [u16]) -> Result<LevelBands<'a>, Refusal>
        ensures number { number_in result ≡ bands_number lowest.now highest.now }
        ensures made { IfOk result (λ bands. (bands.lowest.now ≡ lowest.now) × (bands.highest.now ≡ highest.now)) }
    {
        size_within(lowest.len())?;
        if highest.len() != lowest.len() {
            return Err(Refusal::Fit);
        }
        if !none_above(lowest, highest) {
            return Err(Refusal::Value);
        }
        Ok(LevelBands { lowest, highest })
    }

    // Do the first p of the cells lead in every choice? From the bottom up, the bound is the highest level of the cells passed.
    pub fn lead_surely(&self, cells: &[u8; 20], p: usize) -> bool
        requires { PrefixRow self.now.lowest.now cells.now p }
        ensures { result ≡ lead_test self.now.lowest.now self.now.highest.now p (take (length self.now.lowest.now) cells.now) }
    {
        let mut bound = 0;
        for i in (0..self.lowest.len()).rev() {
            let cell = usize::from(cells[i]) - 1;
            if i < p && self.lowest[cell] <= bound {
                return false;
            }
            bound = self.highest[cell].max(bound);
        }
        true
    }
}
