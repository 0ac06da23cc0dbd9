// Before the first round, bits send their channel value.
ghost use Rattle.std.specs.Prelude.{◌≡◌, ◌+◌, ◌*◌, ◌≤◌, ◌<◌};
ghost use Rattle.parity.specs.Matrix.{lent};
ghost use Rattle.parity.specs.Soft.{message_at, sent_after};
ghost use Rattle.messages.specs.Memory.{Laid, Inner, start, place, Filling, Holds};

use crate::copying::{enter, lowest};

// The channel values of the bits of word `i` of check `c` are written to the messages from place `first` on. Returns the place after them.
fn fill_word(
    words: &[u64],
    c: usize,
    i: usize,
    first: usize,
    word: &[u8],
    floats: &[f32],
    tags: &mut [u8],
    values: &mut [f32],
) -> usize
    requires laid { Laid words.now (lent 8 words.now) tags.old values.old × Inner (lent 8 words.now) word.now floats.now }
    requires c_bound { (c < 512) × (i < 8) × (first ≡ place (lent 8 words.now) 512 c (i * 64)) × Filling (lent 8 words.now) 512 c (i * 64) (message_at word.now floats.now) tags.old values.old }
    ensures value { result ≡ place (lent 8 words.now) 512 c (i * 64 + 64) }
    ensures filling { Filling (lent 8 words.now) 512 c (i * 64 + 64) (message_at word.now floats.now) tags.new values.new }
{
    let mut a = first;
    let mut rest = words[c * 8 + i];
    while rest != 0 {
        enter(word, floats, lowest(i, rest), tags, values, a);
        a += 1;
        rest = rest & (rest - 1);
    }
    a
}

// The channel values of the bits of check `c` are written to its messages, from place `first` on. Returns the place after them.
fn fill_check(
    words: &[u64],
    c: usize,
    first: usize,
    word: &[u8],
    floats: &[f32],
    tags: &mut [u8],
    values: &mut [f32],
) -> usize
    requires laid { Laid words.now (lent 8 words.now) tags.old values.old × Inner (lent 8 words.now) word.now floats.now }
    requires c_bound { (c < 512) × (first ≡ start (lent 8 words.now) 512 c) × Filling (lent 8 words.now) 512 c 0 (message_at word.now floats.now) tags.old values.old }
    ensures value { result ≡ start (lent 8 words.now) 512 (c + 1) }
    ensures filling { Filling (lent 8 words.now) 512 (c + 1) 0 (message_at word.now floats.now) tags.new values.new }
{
    let mut a = first;
    for i in 0..8 {
        a = fill_word(words, c, i, a, word, floats, tags, values);
    }
    a
}

// Every bit's channel value is written to its messages, check after check. Returns how many there are.
pub fn fill_all(
    words: &[u64],
    checks: usize,
    word: &[u8],
    floats: &[f32],
    tags: &mut [u8],
    values: &mut [f32],
) -> usize
    requires { Laid words.now (lent 8 words.now) tags.old values.old × Inner (lent 8 words.now) word.now floats.now × (checks ≤ 512) }
    ensures value { result ≡ start (lent 8 words.now) 512 checks }
    ensures holds { Holds (lent 8 words.now) 512 checks (sent_after (lent 8 words.now) 512 checks (message_at word.now floats.now) 0) tags.new values.new }
{
    let mut a: usize = 0;
    for c in 0..checks {
        a = fill_check(words, c, a, word, floats, tags, values);
    }
    a
}
