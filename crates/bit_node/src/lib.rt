// The bit node of min-sum: what a bit sends to its checks.
#![tactic(auto)]

ghost use Rattle.std.specs.Prelude.{◌≡◌, ◌≤◌, eqb, length};
ghost use Rattle.std.specs.List.{list_all};
ghost use Rattle.parity.specs.Soft.{with_next, settled, bit_sends, message_at};
ghost use Rattle.soft.specs.Store.{Holding, Partly};
ghost use Rattle.bit_node.specs.Sums.{bit_answer, every, part_sum, joined_with, settled_of, AddedTo, SoftSums};

use parity::Channel;
use soft::floats::{cut_off, plus_zero};
use soft::store::{message, put};

// Two values in order: the first sure one, else the soft ones added, else erased.
fn join(v: Channel, w: Channel) -> Channel
    ensures { result ≡ with_next v w }
{
    match v {
        Channel::Sure(_) => v,
        Channel::Erased => w,
        Channel::Soft(s) => match w {
            Channel::Sure(_) => w,
            Channel::Erased => v,
            Channel::Soft(x) => Channel::Soft(s + x),
        },
    }
}

// The whole sum is cut, and zero leaves as plus zero.
fn settle(v: Channel) -> Channel
    ensures { result ≡ settled v }
{
    match v {
        Channel::Sure(_) => v,
        Channel::Erased => v,
        Channel::Soft(x) => Channel::Soft(plus_zero(cut_off(x))),
    }
}

// Each of the first `j` values is joined with `v`.
fn join_all(tags: &mut [u8], values: &mut [f32], j: usize, v: Channel)
    requires { (j ≤ length tags.old) × (length tags.old ≡ length values.old) }
    ensures { Partly (length tags.old) j (joined_with (message_at tags.old values.old) v) (message_at tags.old values.old) tags.new values.new }
{
    for t in 0..j {
        let w = join(message(tags, values, t), v);
        put(tags, values, t, w);
    }
}

// Each value is settled.
fn settle_all(tags: &mut [u8], values: &mut [f32])
    requires { length tags.old ≡ length values.old }
    ensures { Holding (length tags.old) (settled_of (message_at tags.old values.old)) tags.new values.new }
{
    let d = tags.len();
    for t in 0..d {
        let w = settle(message(tags, values, t));
        put(tags, values, t, w);
    }
}

// The bit's answers, not yet settled, replace what its checks sent. Returns what all of them come to. Any value may be sure, soft or erased.
fn mixed_sums(tags: &mut [u8], values: &mut [f32], channel: Channel) -> Channel
    requires { length tags.old ≡ length values.old }
    ensures value { result ≡ part_sum channel (message_at tags.old values.old) (length tags.old) (length tags.old) }
    ensures holding { Holding (length tags.old) (part_sum channel (message_at tags.old values.old) (length tags.old)) tags.new values.new }
{
    let d = tags.len();
    let mut all = channel;
    for j in 0..d {
        let v = message(tags, values, j);
        join_all(tags, values, j, v);
        put(tags, values, j, all);
        all = join(all, v);
    }
    all
}

// Whether every value is soft.
fn all_soft(tags: &[u8]) -> bool
    ensures { result ≡ list_all (λ t. eqb t 3) tags.now }
{
    tags.iter().all(|t| *t == 3)
}

// `x` is added to each of the first `j` floats.
fn add_to(floats: &mut [f32], j: usize, x: f32)
    requires { j ≤ length floats.old }
    ensures { AddedTo floats.old x j floats.new }
{
    for t in 0..j {
        floats[t] += x;
    }
}

// The sums where the channel value and all others are soft: floats alone.
fn soft_sums(floats: &mut [f32], channel: f32) -> f32
    ensures { SoftSums channel floats.old (length floats.old) floats.new result }
{
    let d = floats.len();
    let mut all = channel;
    for j in 0..d {
        let x = floats[j];
        add_to(floats, j, x);
        floats[j] = all;
        all = all + x;
    }
    all
}

// The bit's answers, not yet settled, replace what its checks sent. Returns what all of them come to.
fn sums(tags: &mut [u8], values: &mut [f32], channel: Channel) -> Channel
    requires { length tags.old ≡ length values.old }
    ensures value { result ≡ part_sum channel (message_at tags.old values.old) (length tags.old) (length tags.old) }
    ensures holding { Holding (length tags.old) (part_sum channel (message_at tags.old values.old) (length tags.old)) tags.new values.new }
{
    match channel {
        Channel::Soft(x) if all_soft(tags) => Channel::Soft(soft_sums(values, x)),
        _ => mixed_sums(tags, values, channel),
    }
}

// The bit's answers replace what its checks sent. Returns the bit's result.
pub fn bit_answers(tags: &mut [u8], values: &mut [f32], channel: Channel) -> Channel
    requires { length tags.old ≡ length values.old }
    ensures value { result ≡ bit_sends channel (length tags.old) every (message_at tags.old values.old) }
    ensures holding { Holding (length tags.old) (bit_answer channel (length tags.old) (message_at tags.old values.old)) tags.new values.new }
{
    let all = sums(tags, values, channel);
    settle_all(tags, values);
    settle(all)
}
