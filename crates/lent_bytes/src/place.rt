// What is left of lent bytes from a place on.
ghost use Rattle.std.specs.Prelude.{◌≡◌, ◌-◌, length, drop};

use lists::few;

// How many of n are left from a place on.
pub fn left(n: usize, at: usize) -> usize
    ensures { result ≡ n - at }
{
    n.saturating_sub(at)
}

// How many bytes stand from a place on.
pub fn room(s: &[u8], at: usize) -> usize
    ensures { result ≡ length s.now - at }
{
    left(s.len(), at)
}

// The part of the lent bytes from a place to their end, empty past the end.
pub fn rest(s: &[u8], at: usize) -> &[u8]
    ensures { result.now ≡ drop at s.now }
{
    &s[few(at, s.len())..]
}
