// What all crates share: laws on lists, in specs/ and proofs/, two small functions on counts, and tests asked of each number below a bound.
#![tactic(auto)]

ghost use Rattle.std.specs.Prelude.{◌≡◌, Bool, ℕ, ◌<◌, ◌≤◌, cond, min};
ghost use Rattle.lists.specs.Lists.{every, some, count};

// A count, no more than there is room for.
pub fn few(n: usize, room: usize) -> usize
    ensures { result ≡ min n room }
{
    if n < room { n } else { room }
}

// What a test adds to a count.
pub fn one_if(b: bool) -> usize
    ensures { result ≡ cond b 1 0 }
{
    if b { 1 } else { 0 }
}

// A test of numbers, which may be asked of any: so who asks it of many needs nothing of it, where it would have to ask a closure's condition.
pub trait Test {
    // of which numbers it holds
    ghost test: { Self → ℕ → Bool };

    fn holds(&self, k: usize) -> bool
        ensures { result ≡ test self.now k };
}

// Whether a test holds of each number below n. Each is asked, also behind one of which it does not hold, so that the compiler may ask several at
// once.
pub fn every<T: Test>(n: usize, test: &T) -> bool
    ensures { result ≡ every (T.test test.now) n }
{
    let mut ok = true;
    for k in 0..n {
        ok = test.holds(k) & ok;
    }
    ok
}

// Whether it holds of one of them. Each is asked, likewise.
pub fn some<T: Test>(n: usize, test: &T) -> bool
    ensures { result ≡ some (T.test test.now) n }
{
    let mut found = false;
    for k in 0..n {
        found = test.holds(k) | found;
    }
    found
}

// Of how many of them it holds.
pub fn count<T: Test>(n: usize, test: &T) -> usize
    ensures holding { result ≡ count (T.test test.now) n }
    ensures bound { result ≤ n }
{
    let mut c = 0;
    for k in 0..n {
        c += one_if(test.holds(k));
    }
    c
}
