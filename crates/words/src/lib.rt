// Runs of words in place. Places and lengths are in words, so one set serves rows of every length.
#![tactic(auto)]

ghost use Rattle.std.specs.Prelude.{◌≡◌, ◌++◌, ◌+◌, ◌≤◌, length};
ghost use Rattle.lists.specs.Lists.{put, span, zeros, all_zero};
ghost use Rattle.words.specs.Scan.{or_all};

// The words vs from the place at on: a `copy_from_slice` whose contract is the definitions' `put`, so that no caller shows it again.
pub fn store(s: &mut [u32], at: usize, vs: &[u32])
    requires { at + length vs.now ≤ length s.old }
    ensures { s.new ≡ put at vs.now s.old }
{
    s[at..at + vs.len()].copy_from_slice(vs);
}

// n zeros from the place at on: a `fill` whose contract is the definitions' `put` of `zeros`.
pub fn clear(s: &mut [u32], at: usize, n: usize)
    requires { at + n ≤ length s.old }
    ensures { s.new ≡ put at (zeros n) s.old }
{
    s[at..at + n].fill(0);
}

// The words vs put in at a place behind which n words are in use: those move up.
// By a place and counts, as in `remove`: the words move where they are lent, since there is no heap.
pub fn insert(s: &mut [u32], at: usize, n: usize, vs: &[u32])
    requires { at + length vs.now + n ≤ length s.old }
    ensures { s.new ≡ put at (vs.now ++ span at n s.old) s.old }
{
    s.copy_within(at..at + n, at + vs.len());
    store(s, at, vs);
}

// The k words at a place taken out, behind which n more are in use: those move down, and the freed words are zero.
pub fn remove(s: &mut [u32], at: usize, k: usize, n: usize)
    requires { at + k + n ≤ length s.old }
    ensures { s.new ≡ put at (span (at + k) n s.old ++ zeros k) s.old }
{
    s.copy_within(at + k..at + k + n, at);
    clear(s, at + n, k);
}

// The words' bits together: 0 where no word is other than 0. The scan leaves nowhere early, so that it is done by vectors.
fn or_of(s: &[u32]) -> u32
    ensures { result ≡ or_all s.now }
{
    s.iter().fold(0, |some, w| some | *w)
}

// No word is other than 0. In parts whose length is a constant, so that each is scanned without a loop; the first word is by
// itself, since behind it the words that a state leaves unused lie at multiples of four words.
pub fn all_zero(s: &[u32]) -> bool
    ensures { result ≡ all_zero s.now }
{
    let Some((first, rest)) = s.split_first() else {
        return true;
    };
    let (parts, end) = rest.as_chunks::<64>();
    parts
        .iter()
        .fold(*first | or_of(end), |some, part| some | or_of(part))
        == 0
}
