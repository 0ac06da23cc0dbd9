// Values in slices of bytes and floats.
ghost use Rattle.std.specs.Prelude.{◌≡◌, ◌<◌, length, set};
ghost use Rattle.parity.specs.Soft.{message_at, byte_for, float_for};

use parity::Channel;

// Value `i`.
pub fn message(tags: &[u8], values: &[f32], i: usize) -> Channel
    requires { (i < length tags.now) × (i < length values.now) }
    ensures { result ≡ message_at tags.now values.now i }
{
    let tag = tags[i];
    if tag == 3 {
        return Channel::Soft(values[i]);
    }
    if tag == 2 {
        return Channel::Erased;
    }
    Channel::Sure(tag == 1)
}

// The byte of a value.
pub fn tag(v: Channel) -> u8
    ensures { result ≡ byte_for v }
{
    match v {
        Channel::Sure(b) => b as u8,
        Channel::Soft(_) => 3,
        Channel::Erased => 2,
    }
}

// The float of a value: plus zero unless soft.
pub fn value(v: Channel) -> f32
    ensures { result ≡ float_for v }
{
    match v {
        Channel::Soft(x) => x,
        Channel::Sure(_) | Channel::Erased => 0.0,
    }
}

// Value `i` becomes `v`.
pub fn put(tags: &mut [u8], values: &mut [f32], i: usize, v: Channel)
    requires { (i < length tags.old) × (i < length values.old) }
    ensures tags_after { tags.new ≡ set tags.old i (byte_for v) }
    ensures values_after { values.new ≡ set values.old i (float_for v) }
{
    tags[i] = tag(v);
    values[i] = value(v);
}
