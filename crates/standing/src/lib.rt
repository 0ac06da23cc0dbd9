// Whether a round leaves the messages as they were. The `w` messages of the round before are kept in the places after the messages, if there is room before the row.
#![tactic(auto)]

ghost use Rattle.std.specs.Prelude.{◌≡◌, ◌<◌, length};
ghost use Rattle.messages.specs.Memory.{Sized};
ghost use Rattle.standing.specs.Standing.{same_number, same_message, Kept, Standing};

use messages::copying::copy;

// Whether two floats are the same number with the same sign.
fn same_float(x: f32, y: f32) -> bool
    ensures { result ≡ same_number x y }
{
    x == y && x.to_bits() == y.to_bits()
}

// Whether messages `i` and `j` are the same, byte and float.
fn same_message(tags: &[u8], values: &[f32], i: usize, j: usize) -> bool
    requires i_in_bounds { (i < length tags.now) × (i < length values.now) }
    requires j_in_bounds { (j < length tags.now) × (j < length values.now) }
    ensures { result ≡ same_message tags.now values.now i j }
{
    tags[i] == tags[j] && same_float(values[i], values[j])
}

// Whether the messages are the kept ones: they are compared up to the first that differs.
fn same(tags: &[u8], values: &[f32], w: usize) -> bool
    requires { Sized tags.now values.now }
    ensures { Standing result w tags.now values.now }
{
    if 32512 < w {
        return false;
    }
    (0..w).all(|i| same_message(tags, values, i, w + i))
}

// The messages are kept.
pub fn keep(tags: &mut [u8], values: &mut [f32], w: usize)
    requires { Sized tags.old values.old }
    ensures { Kept w w tags.old values.old tags.new values.new }
{
    if 32512 < w {
        return;
    }
    for i in 0..w {
        copy(tags, values, i, w + i);
    }
}

// The messages are kept. Returns whether they are those that were kept before.
pub fn renew(tags: &mut [u8], values: &mut [f32], w: usize) -> bool
    requires { Sized tags.old values.old }
    ensures standing { Standing result w tags.old values.old }
    ensures kept { Kept w w tags.old values.old tags.new values.new }
{
    if same(tags, values, w) {
        return true;
    }
    keep(tags, values, w);
    false
}
