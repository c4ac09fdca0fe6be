// Numbers in a record as they are read.
ghost use Rattle.std.specs.Prelude.{◌≡◌, ◌+◌, ◌^◌, ◌≤◌, ◌<◌, length};
ghost use Rattle.format.specs.Number.{field as field_of};

// The number in the k bytes of s from i on.
pub fn field(s: &[u8], i: usize, k: usize) -> u64
    requires { (i + k ≤ length s.now) × (k ≤ 5) }
    ensures { (result ≡ field_of s.now i k) × (result < 256 ^ k) }
{
    let mut n = 0;
    for byte in &s[i..i + k] {
        n = n * 256 + u64::from(*byte);
    }
    n
}
