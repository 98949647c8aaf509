// Buffers for a whole sheet and a whole text, for the programs: zeros. Each length stands in one place, with what it is the bound of.
ghost use Rattle.std.specs.Prelude.{◌≡◌, ◌+◌, replicate};
ghost use Rattle.sheet.specs.Claims.{longest_sheet};
ghost use Rattle.text.specs.Claims.{text_bound};

// One byte more than the longest sheet has: a sheet that fills this is faulty, whatever follows.
pub fn sheet_buffer() -> [u8; 24693]
    ensures { result ≡ replicate (longest_sheet + 1) 0 }
{
    [0u8; 24693]
}

// No text is longer.
pub fn text_buffer() -> [u8; 31344]
    ensures { result ≡ replicate text_bound 0 }
{
    [0u8; 31344]
}
