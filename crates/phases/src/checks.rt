// All checks: what they send, on the messages in lent memory.
ghost use Rattle.std.specs.Prelude.{◌≡◌, ◌+◌, ◌≤◌, ◌<◌, length};
ghost use Rattle.parity.specs.Matrix.{lent};
ghost use Rattle.soft.specs.Store.{Sounds};
ghost use Rattle.check_node.specs.Pass.{check_answer};
ghost use Rattle.messages.specs.Memory.{Laid, Within, held, Cursors, Above};
ghost use Rattle.phases.specs.Phases.{Part, from, SoundAll, Answering};

use check_node::check_answers;
use parity::Check;
use rows::ones::weight;

// The check with `w` messages from place `a` on answers.
fn check_at(tags: &mut [u8], values: &mut [f32], a: usize, w: usize)
    requires tags_len { (length tags.old ≡ length values.old) × (a + w ≤ length tags.old) × (w < 65536) }
    requires sounds { Sounds w (from a tags.old values.old) }
    ensures { Part a w (check_answer w (from a tags.old values.old)) tags.old values.old tags.new values.new }
{
    let e = a + w;
    check_answers(&mut tags[a..e], &mut values[a..e]);
}

// All checks answer, and the cursors stand at each check's first message.
pub fn checks_send(
    words: &[u64],
    checks: usize,
    at: &mut [usize],
    tags: &mut [u8],
    values: &mut [f32],
)
    requires laid { Laid words.now (lent 8 words.now) tags.old values.old × Within (lent 8 words.now) checks }
    requires at_len { (length at.old ≡ 512) × SoundAll (lent 8 words.now) 512 checks (held (lent 8 words.now) 512 tags.old values.old) }
    ensures cursors { Cursors (lent 8 words.now) 512 0 at.new }
    ensures answering { Answering (lent 8 words.now) 512 checks checks (held (lent 8 words.now) 512 tags.old values.old) tags.new values.new }
    ensures above { Above (lent 8 words.now) 512 tags.old values.old tags.new values.new }
{
    let mut a: usize = 0;
    for c in 0..checks {
        at[c] = a;
        let w = weight(words, Check(c));
        check_at(tags, values, a, w);
        a += w;
    }
}
