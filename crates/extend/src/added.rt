// The sent bits, and then each added bit as the sum modulo 2 of the two lower bits of its added check.
ghost use Rattle.std.specs.Prelude.{◌≡◌, ◌+◌, ◌++◌, ◌<◌, ◌≤◌, length, drop};
ghost use Rattle.parity.specs.Finite.{one};
ghost use Rattle.parity.specs.Matrix.{lent, cause};
ghost use Rattle.parity.specs.Words.{is_one, inside, odd};
ghost use Rattle.parity.specs.Calls.{byte_of};
ghost use Rattle.extend.specs.Added.{ExtendedTo, Bits, extended_bytes};

use parity::Check;
use rows::ones::next_one;

// The sum modulo 2 of the two lower bits of added check `m + j`.
fn added_bit(words: &[u64], n: usize, m: usize, k: usize, j: usize, word: &[u8]) -> u8
    requires { (cause words.now n m k ≡ 0) × (j < k) × (length word.now ≡ n + k) × Bits word.now (n + j) }
    ensures { result ≡ one (odd (inside (lent 8 words.now) (n + j) (m + j) (is_one (byte_of word.now)))) }
{
    let x = next_one(words, Check(m + j), 0);
    let y = next_one(words, Check(m + j), x + 1);
    word[x] ^ word[y]
}

// Each added bit in turn.
fn add_bits(words: &[u64], n: usize, m: usize, k: usize, word: &mut [u8])
    requires { (cause words.now n m k ≡ 0) × (length word.old ≡ n + k) × Bits word.old n }
    ensures { ExtendedTo (lent 8 words.now) n m k word.old word.new }
{
    for j in 0..k {
        let bit = added_bit(words, n, m, k, j, word);
        word[n + j] = bit;
    }
}

// The sent bits are put in front. They are put one by one, since a copy of a slice into another that C lends takes `memmove`, which the archive needs nowhere
// else.
fn put_sent(sent: &[u8], word: &mut [u8])
    requires { length sent.now ≤ length word.old }
    ensures { word.new ≡ sent.now ++ drop (length sent.now) word.old }
{
    for (b, bit) in sent.iter().enumerate() {
        word[b] = *bit;
    }
}

// The sent bits and the added bits.
pub fn write_word(words: &[u64], n: usize, m: usize, k: usize, sent: &[u8], word: &mut [u8])
    requires { (cause words.now n m k ≡ 0) × (length word.old ≡ n + k) × (length sent.now ≡ n) × Bits sent.now n }
    ensures { word.new ≡ extended_bytes (lent 8 words.now) n m k sent.now }
{
    put_sent(sent, word);
    add_bits(words, n, m, k, word);
}
