// A message is put at the bits that are no pivots.
ghost use Rattle.std.specs.Prelude.{◌≡◌, ◌&&◌, ◌+◌, ◌≤◌, eqb, ltb, length, get_or};
ghost use Rattle.parity.specs.Finite.{list_from};
ghost use Rattle.parity.specs.Calls.{byte_of};
ghost use Rattle.message_bits.specs.Placing.{Rising, placed};

// Whether bit `b` is the pivot that stands at `p`.
fn is_next(pivots: &[usize], p: usize, b: usize) -> bool
    ensures { result ≡ (ltb p (length pivots.now) && eqb (get_or pivots.now p 0) b) }
{
    pivots.get(p) == Some(&b)
}

// The message at the bits that are no pivots, rising, and 0 at the pivots.
pub fn place(pivots: &[usize], message: &[u8], word: &mut [u8])
    requires { (length message.now + length pivots.now ≡ length word.old) × Rising (length word.old) (length pivots.now) pivots.now }
    ensures { word.new ≡ list_from 0 (length word.old) (placed (length pivots.now) pivots.now (byte_of message.now)) }
{
    let mut p: usize = 0;
    let mut q: usize = 0;
    for b in 0..word.len() {
        if is_next(pivots, p, b) {
            word[b] = 0;
            p += 1;
        } else {
            word[b] = message[q];
            q += 1;
        }
    }
}
