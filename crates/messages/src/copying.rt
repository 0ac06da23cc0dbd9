// Messages copied from place to place, and the ones of a word that name the places.
ghost use Rattle.std.specs.Prelude.{◌≡◌, ◌+◌, ◌*◌, ◌<◌, length};
ghost use Rattle.std.specs.Int.Count.{count_trailing_zeros};
ghost use Rattle.parity.specs.Soft.{message_at};
ghost use Rattle.messages.specs.Memory.{Written};

// The number of the lowest one of `rest`, which is what is left of word `i` of a row.
pub fn lowest(i: usize, rest: u64) -> usize
    requires { i < 8 }
    ensures { result ≡ i * 64 + count_trailing_zeros 64 rest }
{
    i * 64 + rest.trailing_zeros() as usize
}

// Message `i` is copied to place `j`.
pub fn copy(tags: &mut [u8], values: &mut [f32], i: usize, j: usize)
    requires i_in_bounds { (i < length tags.old) × (i < length values.old) }
    requires j_in_bounds { (j < length tags.old) × (j < length values.old) }
    ensures { Written j (message_at tags.old values.old i) tags.old values.old tags.new values.new }
{
    tags[j] = tags[i];
    values[j] = values[i];
}

// Value `b` of a word and its floats is copied to place `j`.
pub fn enter(word: &[u8], floats: &[f32], b: usize, tags: &mut [u8], values: &mut [f32], j: usize)
    requires b_in_bounds { (b < length word.now) × (b < length floats.now) }
    requires j_in_bounds { (j < length tags.old) × (j < length values.old) }
    ensures { Written j (message_at word.now floats.now b) tags.old values.old tags.new values.new }
{
    tags[j] = word[b];
    values[j] = floats[b];
}
