// All bits: what they send, and their results.
ghost use Rattle.std.specs.Prelude.{◌≡◌, ◌+◌, ◌≤◌, length};
ghost use Rattle.parity.specs.Matrix.{lent};
ghost use Rattle.parity.specs.Soft.{message_at, bit_sends};
ghost use Rattle.soft.specs.Store.{Holding};
ghost use Rattle.bit_node.specs.Sums.{every, bit_answer};
ghost use Rattle.phases.specs.Phases.{Part, from, BitSent, result_of};
ghost use Rattle.messages.specs.Memory.{AtBit, LaidAcross, Inner, across, column, Cursors, held, held_at, Above};
ghost use Rattle.bit_row.specs.Row.{Low};
ghost use Rattle.phases.specs.Loops.{SentAll};

use bit_node::bit_answers;
use bit_row::{gather, scatter};
use parity::Channel;
use soft::store::{message, put};

// The bit with `w` messages from place `a` on answers. Returns its result.
fn bit_at(tags: &mut [u8], values: &mut [f32], a: usize, w: usize, channel: Channel) -> Channel
    requires { (length tags.old ≡ length values.old) × (a + w ≤ length tags.old) }
    ensures value { result ≡ bit_sends channel w every (from a tags.old values.old) }
    ensures part { Part a w (bit_answer channel w (from a tags.old values.old)) tags.old values.old tags.new values.new }
{
    let e = a + w;
    bit_answers(&mut tags[a..e], &mut values[a..e], channel)
}

// Bit `b` sends to its checks.
fn bit_sends(
    cols: &[u64],
    checks: usize,
    b: usize,
    channel: Channel,
    at: &mut [usize],
    tags: &mut [u8],
    values: &mut [f32],
)
    requires laid_across { LaidAcross cols.now tags.old values.old checks }
    requires at_bit { AtBit cols.now b at.old }
    ensures cursors { Cursors (across (lent 8 cols.now)) 512 (b + 1) at.new }
    ensures bit_sent { BitSent (across (lent 8 cols.now)) 512 checks b channel tags.old values.old tags.new values.new }
{
    let d = gather(cols, checks, b, at, tags, values);
    bit_at(tags, values, 65024, d, channel);
    scatter(cols, checks, b, at, tags, values);
}

// The result of bit `b`.
fn bit_result(
    cols: &[u64],
    checks: usize,
    b: usize,
    channel: Channel,
    at: &mut [usize],
    tags: &mut [u8],
    values: &mut [f32],
) -> Channel
    requires laid_across { LaidAcross cols.now tags.old values.old checks }
    requires at_bit { AtBit cols.now b at.old }
    ensures value { result ≡ bit_sends channel checks (column (across (lent 8 cols.now)) b) (held_at (across (lent 8 cols.now)) 512 tags.old values.old b) }
    ensures cursors { Cursors (across (lent 8 cols.now)) 512 (b + 1) at.new }
    ensures low { Low tags.old values.old tags.new values.new }
{
    let d = gather(cols, checks, b, at, tags, values);
    bit_at(tags, values, 65024, d, channel)
}

// All bits send to their checks.
pub fn send_all(
    cols: &[u64],
    checks: usize,
    word: &[u8],
    floats: &[f32],
    at: &mut [usize],
    tags: &mut [u8],
    values: &mut [f32],
)
    requires laid_across { LaidAcross cols.now tags.old values.old checks }
    requires inner { Inner (across (lent 8 cols.now)) word.now floats.now × Cursors (across (lent 8 cols.now)) 512 0 at.old }
    ensures sent_all { SentAll (across (lent 8 cols.now)) checks (length word.now) (message_at word.now floats.now) (held (across (lent 8 cols.now)) 512 tags.old values.old) tags.new values.new }
    ensures above { Above (across (lent 8 cols.now)) 512 tags.old values.old tags.new values.new }
{
    let bits = word.len();
    for b in 0..bits {
        let v = message(word, floats, b);
        bit_sends(cols, checks, b, v, at, tags, values);
    }
}

// The results of all bits replace their channel values.
pub fn result_all(
    cols: &[u64],
    checks: usize,
    word: &mut [u8],
    floats: &mut [f32],
    at: &mut [usize],
    tags: &mut [u8],
    values: &mut [f32],
)
    requires laid_across { LaidAcross cols.now tags.old values.old checks }
    requires inner { Inner (across (lent 8 cols.now)) word.old floats.old × Cursors (across (lent 8 cols.now)) 512 0 at.old }
    ensures { Holding (length word.old) (result_of (across (lent 8 cols.now)) 512 checks (message_at word.old floats.old) tags.old values.old) word.new floats.new }
{
    let bits = word.len();
    for b in 0..bits {
        let v = message(word, floats, b);
        let r = bit_result(cols, checks, b, v, at, tags, values);
        put(word, floats, b, r);
    }
}
