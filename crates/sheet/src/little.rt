// Numbers in bytes, the low byte first.
ghost use Rattle.std.specs.Prelude.{◌≡◌, ◌+◌, ◌^◌, ◌<◌, ◌≤◌, length, take, drop};
ghost use Rattle.sheet.specs.Bytes as meaning;

// The number that k bytes from a place on spell. For other crates too: it asks that the bytes are there.
pub fn little(s: &[u8], at: usize, k: usize) -> u64
    requires { (k ≤ 8) × (at + k ≤ length s.now) }
    ensures spelled { result ≡ meaning.little (take k (drop at s.now)) }
    ensures range { result < 256 ^ k }
{
    let mut bytes = [0u8; 8];
    bytes[..k].copy_from_slice(&s[at..at + k]);
    u64::from_le_bytes(bytes)
}
