// The rounds.
ghost use Rattle.std.specs.Prelude.{◌≡◌, ◌≤◌, length};
ghost use Rattle.parity.specs.Matrix.{lent};
ghost use Rattle.parity.specs.Soft.{message_at, sent_after, result_after};
ghost use Rattle.soft.specs.Store.{Holding};
ghost use Rattle.messages.specs.Memory.{held, Holds};
ghost use Rattle.phases.specs.Phases.{SoundAll};
ghost use Rattle.phases.specs.Loops.{Round, Last};
ghost use Rattle.min_sum.specs.Rounds.{Ready, Turned};

use messages::filling::fill_all;
use phases::bits::{result_all, send_all};
use phases::checks::checks_send;
use standing::{keep, renew};

// One round: all checks, then all bits.
fn one_round(
    words: &[u64],
    cols: &[u64],
    checks: usize,
    word: &[u8],
    floats: &[f32],
    at: &mut [usize],
    tags: &mut [u8],
    values: &mut [f32],
)
    requires ready { Ready words.now checks word.now floats.now tags.old values.old × Turned words.now cols.now }
    requires at_len { (length at.old ≡ 512) × SoundAll (lent 8 words.now) 512 checks (held (lent 8 words.now) 512 tags.old values.old) }
    ensures { Round (lent 8 words.now) (length word.now) checks (message_at word.now floats.now) tags.old values.old tags.new values.new }
{
    checks_send(words, checks, at, tags, values);
    send_all(cols, checks, word, floats, at, tags, values);
}

// The last round: all checks, then the results.
fn last_round(
    words: &[u64],
    cols: &[u64],
    checks: usize,
    word: &mut [u8],
    floats: &mut [f32],
    at: &mut [usize],
    tags: &mut [u8],
    values: &mut [f32],
)
    requires ready { Ready words.now checks word.old floats.old tags.old values.old × Turned words.now cols.now }
    requires at_len { (length at.old ≡ 512) × SoundAll (lent 8 words.now) 512 checks (held (lent 8 words.now) 512 tags.old values.old) }
    ensures { Last (lent 8 words.now) (length word.old) checks (message_at word.old floats.old) tags.old values.old word.new floats.new }
{
    checks_send(words, checks, at, tags, values);
    result_all(cols, checks, word, floats, at, tags, values);
}

// The messages after `last` rounds. Rounds after one that changes no message would change none either, and are left out.
fn course(
    words: &[u64],
    cols: &[u64],
    checks: usize,
    last: usize,
    word: &[u8],
    floats: &[f32],
    at: &mut [usize],
    tags: &mut [u8],
    values: &mut [f32],
)
    requires { Ready words.now checks word.now floats.now tags.old values.old × Turned words.now cols.now × (length at.old ≡ 512) }
    ensures { Holds (lent 8 words.now) 512 checks (sent_after (lent 8 words.now) 512 checks (message_at word.now floats.now) last) tags.new values.new }
{
    let w = fill_all(words, checks, word, floats, tags, values);
    keep(tags, values, w);
    for r in 0..last {
        one_round(words, cols, checks, word, floats, at, tags, values);
        if renew(tags, values, w) {
            return;
        }
    }
}

// All rounds: the results replace the channel values.
pub fn run(
    words: &[u64],
    cols: &[u64],
    checks: usize,
    rounds: usize,
    word: &mut [u8],
    floats: &mut [f32],
    at: &mut [usize],
    tags: &mut [u8],
    values: &mut [f32],
)
    requires { Ready words.now checks word.old floats.old tags.old values.old × Turned words.now cols.now × (length at.old ≡ 512) × (1 ≤ rounds) }
    ensures { Holding (length word.old) (result_after (lent 8 words.now) 512 checks (message_at word.old floats.old) rounds) word.new floats.new }
{
    let last = rounds - 1;
    course(words, cols, checks, last, word, floats, at, tags, values);
    last_round(words, cols, checks, word, floats, at, tags, values);
}
