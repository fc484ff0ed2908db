// Where signs stand in a line of text.
ghost use Rattle.std.specs.Prelude.{◌≡◌, ◌≢◌, ℕ, ◌<◌, ◌≤◌, length, slice_index};

// The place of the first such sign that stands at `from` or behind it; the length of s where there is none.
pub fn find(s: &[u8], from: usize, sign: u8) -> usize
    requires { from ≤ length s.now }
    ensures behind { from ≤ result }
    ensures within { result ≤ length s.now }
    ensures before { (k : ℕ) → from ≤ k → k < result → slice_index s.now k ≢ sign }
    ensures found { result < length s.now → slice_index s.now result ≡ sign }
{
    (from..s.len()).find(|at| s[*at] == sign).unwrap_or(s.len())
}

// What stands before the first such sign, and what stands behind it.
pub fn before(s: &[u8], sign: u8) -> &[u8] {
    &s[..find(s, 0, sign)]
}

pub fn after(s: &[u8], sign: u8) -> &[u8] {
    s.get(find(s, 0, sign) + 1..).unwrap_or(b"")
}
