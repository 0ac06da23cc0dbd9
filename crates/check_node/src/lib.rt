// The check node of min-sum: what a check sends to its bits.
#![tactic(auto)]

ghost use Rattle.std.specs.Prelude.{◌≡◌, ◌<◌, length};
ghost use Rattle.parity.specs.Finite.{one};
ghost use Rattle.parity.specs.Soft.{is_erased, is_soft, turns_sign, message_at};
ghost use Rattle.soft.specs.Store.{Holding, Sounds};
ghost use Rattle.check_node.specs.Pass.{see_size, see_one, seen, seen_none, answer_to, check_answer};

use parity::Channel;
use soft::floats::{flipped, magnitude_of, turn};
use soft::store::{message, put};

// What one pass over a check's messages saw: how many are erased, how many soft, whether an odd number turns the sign, the least
// magnitude with its place, and the least magnitude at the other places.
#[derive(Clone, Copy)]
pub struct Seen {
    pub erased: usize,
    pub soft: usize,
    pub odd: bool,
    pub least: f32,
    pub next: f32,
    pub at: usize,
}

// 1 for an erased value.
fn erased_of(v: Channel) -> usize
    ensures { result ≡ one (is_erased v) }
{
    matches!(v, Channel::Erased) as usize
}

// 1 for a soft value.
fn soft_of(v: Channel) -> usize
    ensures { result ≡ one (is_soft v) }
{
    matches!(v, Channel::Soft(_)) as usize
}

// Whether a value turns the sign: a sure 1 and a negative value do.
fn does_turn(v: Channel) -> bool
    ensures { result ≡ turns_sign v }
{
    match v {
        Channel::Sure(b) => b,
        Channel::Soft(x) => x < 0.0,
        Channel::Erased => false,
    }
}

// A magnitude more, at place `i`.
fn see_size(s: Seen, i: usize, x: f32, odd: bool) -> Seen
    requires { s.soft < 65536 }
    ensures { result ≡ see_size s i x odd }
{
    let seen = Seen {
        soft: s.soft + 1,
        odd,
        ..s
    };
    if x < s.least {
        return Seen {
            least: x,
            next: s.least,
            at: i,
            ..seen
        };
    }
    if x < s.next {
        return Seen { next: x, ..seen };
    }
    seen
}

// A message more, at place `i`.
fn see_one(s: Seen, i: usize, v: Channel) -> Seen
    requires { (s.soft < 65536) × (s.erased < 65536) }
    ensures { result ≡ see_one s i v }
{
    let odd = flipped(does_turn(v), s.odd);
    match v {
        Channel::Sure(_) => Seen { odd, ..s },
        Channel::Soft(x) => see_size(s, i, magnitude_of(x), odd),
        Channel::Erased => Seen {
            erased: s.erased + 1,
            ..s
        },
    }
}

// Nothing seen yet, of `d` messages.
fn none_seen(d: usize) -> Seen
    ensures { result ≡ seen_none d }
{
    Seen {
        erased: 0,
        soft: 0,
        odd: false,
        least: f32::INFINITY,
        next: f32::INFINITY,
        at: d,
    }
}

// One pass over a check's messages.
fn look(tags: &[u8], values: &[f32]) -> Seen
    requires { (length tags.now ≡ length values.now) × (length tags.now < 65536) }
    ensures { result ≡ seen (length tags.now) (message_at tags.now values.now) (length tags.now) }
{
    let d = tags.len();
    let mut s = none_seen(d);
    for i in 0..d {
        s = see_one(s, i, message(tags, values, i));
    }
    s
}

// What the check sends to place `t`, which sent `v`.
fn answer(s: Seen, t: usize, v: Channel) -> Channel
    ensures { result ≡ answer_to s t v }
{
    let odd = flipped(does_turn(v), s.odd);
    if erased_of(v) < s.erased {
        return Channel::Erased;
    }
    if s.soft == soft_of(v) {
        return Channel::Sure(odd);
    }
    if s.at == t {
        return Channel::Soft(turn(odd, s.next));
    }
    Channel::Soft(turn(odd, s.least))
}

// The check's answers replace what its bits sent.
pub fn check_answers(tags: &mut [u8], values: &mut [f32])
    requires tags_len { (length tags.old ≡ length values.old) × (length tags.old < 65536) }
    requires sounds { Sounds (length tags.old) (message_at tags.old values.old) }
    ensures { Holding (length tags.old) (check_answer (length tags.old) (message_at tags.old values.old)) tags.new values.new }
{
    let d = tags.len();
    let s = look(tags, values);
    for t in 0..d {
        let a = answer(s, t, message(tags, values, t));
        put(tags, values, t, a);
    }
}
