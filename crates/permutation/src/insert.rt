// A cell put in among others, in place.
ghost use Rattle.std.specs.Prelude.{◌≡◌, ◌≤◌, ◌<◌};
ghost use Rattle.permutation.specs.Insert.{put_in};

// Cell c goes in at index `at` of the first m places, and those from there on move down one. For other crates too: it asks that there is room.
pub fn put_in(cells: &mut [u8; 20], m: usize, at: usize, c: u8)
    requires { (m < 20) × (at ≤ m) }
    ensures { cells.new ≡ put_in m at c cells.old }
{
    // not by `copy_within`, whose call costs more than the few cells that move
    for i in (at..m).rev() {
        cells[i + 1] = cells[i];
    }
    cells[at] = c;
}
