// The cost of a change: the largest of old level less new level. A difference can be negative, the largest can't.
ghost use Rattle.std.specs.Prelude.{◌≡◌, pos, ◌-ℤ◌};
ghost use Rattle.multicell.specs.Cost.{cost_of};
ghost use Rattle.multicell.specs.Pricing.{Priced};

fn difference(old: u8, new: u8) -> i32
    ensures { result ≡ pos old -ℤ pos new }
{
    i32::from(old) - i32::from(new)
}

pub fn cost_of(old: &[u8], new: &[u8]) -> u8
    requires { Priced old.now new.now }
    ensures { result ≡ cost_of old.now new.now }
{
    let cells = old.iter().zip(new);
    let largest = cells.map(|(old, new)| difference(*old, *new)).max();
    largest.unwrap() as u8
}
