// The sets of a word's erased bits and of its ones, made in one pass, eight bytes at a time.
ghost use Rattle.std.specs.Prelude.{◌≡◌, false, ◌+◌, ◌*◌, ◌<◌, ◌≤◌, min, length};
ghost use Rattle.parity.specs.Calls.{byte_of, wrong_byte};
ghost use Rattle.sets.specs.Sets.{WordOf, SetOf, Upto, Eight, four_bytes};

// Bits of the set of the erased bits, and the same bits of the set of the ones.
#[derive(Clone, Copy)]
struct Pair {
    erased: u64,
    ones: u64,
}

// Byte `b` of a word of bytes up to 2.
fn byte(bytes: &[u8], b: usize) -> u64
    requires { (b < length bytes.now) × (wrong_byte 2 bytes.now ≡ false) }
    ensures { (result ≡ byte_of bytes.now b) × (result ≤ 2) }
{
    bytes[b] as u64
}

// Four bytes from `b` on, side by side.
fn four(bytes: &[u8], b: usize) -> u64
    requires { (b + 4 ≤ length bytes.now) × (wrong_byte 2 bytes.now ≡ false) }
    ensures { (result ≡ four_bytes bytes.now b) × (result ≤ 33686018) }
{
    let low = byte(bytes, b) + byte(bytes, b + 1) * 0x100;
    low + byte(bytes, b + 2) * 0x1_0000 + byte(bytes, b + 3) * 0x100_0000
}

// The bits of eight bytes from `b` on. Each byte takes four bits of `x`, and a product brings the bits of a set together.
fn eight(bytes: &[u8], b: usize) -> Pair
    requires { (b + 8 ≤ length bytes.now) × (wrong_byte 2 bytes.now ≡ false) }
    ensures { Eight bytes.now 2 b result.erased × Eight bytes.now 1 b result.ones }
{
    let x = four(bytes, b) + four(bytes, b + 4) * 16;
    let erased = (x & 0x2222_2222) * 0x102_0408;
    let ones = (x & 0x1111_1111) * 0x102_0408;
    Pair {
        erased: (erased >> 25) & 255,
        ones: (ones >> 24) & 255,
    }
}

// The bits of the first `full` times eight bytes of word `i`.
fn eights(bytes: &[u8], i: usize, full: usize) -> Pair
    requires { (i < 8) × (full ≤ 8) × (i * 64 + full * 8 ≤ length bytes.now) × (wrong_byte 2 bytes.now ≡ false) }
    ensures { Upto bytes.now 2 i result.erased (i * 64 + full * 8) × Upto bytes.now 1 i result.ones (i * 64 + full * 8) }
{
    let mut erased: u64 = 0;
    let mut ones: u64 = 0;
    for q in 0..full {
        let pair = eight(bytes, i * 64 + q * 8);
        erased |= pair.erased << (q * 8);
        ones |= pair.ones << (q * 8);
    }
    Pair { erased, ones }
}

// The bits of the bytes from `from` on are put to those of word `i` before, one by one.
fn rest(bytes: &[u8], i: usize, from: usize, before: Pair) -> Pair
    requires i_bound { (i < 8) × (i * 64 ≤ from) × (from ≤ min (length bytes.now) (i * 64 + 64)) × (wrong_byte 2 bytes.now ≡ false) }
    requires upto { Upto bytes.now 2 i before.erased from × Upto bytes.now 1 i before.ones from }
    ensures { WordOf bytes.now 2 i result.erased × WordOf bytes.now 1 i result.ones }
{
    let first = i * 64;
    let end = bytes.len().min(first + 64);
    let mut erased = before.erased;
    let mut ones = before.ones;
    for b in from..end {
        let x = byte(bytes, b);
        erased |= (x >> 1) << (b - first);
        ones |= (x & 1) << (b - first);
    }
    Pair { erased, ones }
}

// Words `i` of both sets.
fn pair_of(bytes: &[u8], i: usize) -> Pair
    requires { (i < 8) × (wrong_byte 2 bytes.now ≡ false) }
    ensures { WordOf bytes.now 2 i result.erased × WordOf bytes.now 1 i result.ones }
{
    let first = i * 64;
    if bytes.len() <= first {
        return Pair { erased: 0, ones: 0 };
    }
    let full = (bytes.len().min(first + 64) - first) / 8;
    let before = eights(bytes, i, full);
    rest(bytes, i, first + full * 8, before)
}

// The sets of the erased bits and of the ones of a word of bytes up to 2.
pub fn make_sets(bytes: &[u8], erased: &mut [u64], ones: &mut [u64])
    requires { (length bytes.now ≤ 512) × (length erased.old ≡ 8) × (length ones.old ≡ 8) × (wrong_byte 2 bytes.now ≡ false) }
    ensures { SetOf 8 bytes.now 2 erased.new × SetOf 8 bytes.now 1 ones.new }
{
    for i in 0..8 {
        let pair = pair_of(bytes, i);
        erased[i] = pair.erased;
        ones[i] = pair.ones;
    }
}
