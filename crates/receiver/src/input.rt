// The input: the number of record words, these words, and every byte left.
ghost use Rattle.std.specs.Prelude.{◌≡◌, false, ◌+◌, ◌*◌, ◌<◌, ◌≤◌, length, take};
ghost use Rattle.parity.specs.Mend.{word_at, wrong_input};
ghost use Rattle.receiver.specs.Stages.{words_in, Size};

const LONGEST: usize = 65536;

// The number in the four bytes from place p on, highest byte first.
pub fn number_at(input: &[u8], p: usize) -> u32
    requires { p + 4 ≤ length input.now }
    ensures { result ≡ word_at input.now p }
{
    u32::from_be_bytes([input[p], input[p + 1], input[p + 2], input[p + 3]])
}

// Whether the input is refused: fewer bytes than 4 or than the record words take, or too many.
pub fn is_wrong(input: &[u8]) -> bool
    ensures { result ≡ wrong_input input.now }
{
    if input.len() < 4 {
        return true;
    }
    if LONGEST < input.len() {
        return true;
    }
    let words = number_at(input, 0) as usize;
    input.len() < 4 + 4 * words
}

// How many record words an input that is not refused has.
pub fn size(input: &[u8]) -> usize
    requires { wrong_input input.now ≡ false }
    ensures { Size input.now result }
{
    number_at(input, 0) as usize
}

// Reads the first w record words.
pub fn read_words(input: &[u8], w: usize, out: &mut [u32])
    requires w_in_bounds { 4 + 4 * w ≤ length input.now }
    requires w_in_bounds_2 { w ≤ length out.old }
    ensures { take w out.new ≡ words_in input.now w }
{
    for i in 0..w {
        out[i] = number_at(input, 4 + 4 * i);
    }
}
