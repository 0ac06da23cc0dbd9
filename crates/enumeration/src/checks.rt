// What a few members leave of the checks: `once` has those that contain exactly one of them, and `some` those that contain one or more.
ghost use Rattle.std.specs.Prelude.{◌≡◌, true, ◌+◌, ◌*◌, ◌<◌, length, get_or};
ghost use Rattle.enumeration.specs.Search.{Sized, lone_word, decided, Among, completing, OnceWith, SomeWith};

// The checks of word `i` that contain exactly one of the members and bit `d`.
fn lone_at(cols: &[u64], once: &[u64], some: &[u64], d: usize, i: usize) -> u64
    requires { (length cols.now ≡ 1024) × (length once.now ≡ 8) × (length some.now ≡ 8) × (d < 128) × (i < 8) }
    ensures { result ≡ lone_word (get_or once.now i 0) (get_or some.now i 0) (get_or cols.now (d * 8 + i) 0) }
{
    let own = cols[d * 8 + i];
    (once[i] & !own) | (own & !some[i])
}

// The same as `completes`, where the first word has no such check.
fn completes_further(cols: &[u64], once: &[u64], some: &[u64], used: usize, d: usize) -> bool
    requires sized { Sized cols.now once.now some.now used × (d < 128) }
    requires d_value { completing cols.now once.now some.now 64 d ≡ true }
    ensures { result ≡ completing cols.now once.now some.now (used * 64) d }
{
    for i in 1..used {
        if lone_at(cols, once, some, d, i) != 0 {
            return false;
        }
    }
    true
}

// Whether no check of the first `used` words contains exactly one of the members and bit `d`. Most bits fail in the first word, of which `x` has the checks
// that contain one of the members and `w` those where one more bit decides; where all eight are in use, their number is known beforehand.
pub fn completes(
    cols: &[u64],
    once: &[u64],
    some: &[u64],
    x: u64,
    w: u64,
    used: usize,
    d: usize,
) -> bool
    requires { Sized cols.now once.now some.now used × (d < 128) × (x ≡ get_or once.now 0 0) × (w ≡ decided x (get_or some.now 0 0)) × Among x (get_or some.now 0 0) }
    ensures { result ≡ completing cols.now once.now some.now (used * 64) d }
{
    if (cols[d * 8] ^ x) & w != 0 {
        return false;
    }
    if used == 8 {
        return completes_further(cols, once, some, 8, d);
    }
    completes_further(cols, once, some, used, d)
}

// The checks that contain exactly one of the members and bit `d`.
pub fn once_with(cols: &[u64], once: &[u64], some: &[u64], d: usize) -> [u64; 8]
    requires { (length cols.now ≡ 1024) × (length once.now ≡ 8) × (length some.now ≡ 8) × (d < 128) }
    ensures { OnceWith cols.now once.now some.now d result }
{
    let mut all = [0u64; 8];
    for i in 0..8 {
        all[i] = lone_at(cols, once, some, d, i);
    }
    all
}

// The checks that contain one or more of the members and bit `d`.
pub fn some_with(cols: &[u64], some: &[u64], d: usize) -> [u64; 8]
    requires { (length cols.now ≡ 1024) × (length some.now ≡ 8) × (d < 128) }
    ensures { SomeWith cols.now some.now d result }
{
    let mut all = [0u64; 8];
    for i in 0..8 {
        all[i] = some[i] | cols[d * 8 + i];
    }
    all
}
