// The members of a set: one more behind them, and all of them written to the list.
ghost use Rattle.std.specs.Prelude.{◌≡◌, true, cond, [], ◌∷◌, ◌++◌, ◌+◌, ◌^◌, ◌≤◌, ◌<◌, ltb, length, get_or, set};
ghost use Rattle.enumeration.specs.Search.{Longer, Put, room_for};

// A bit's number, as a member.
pub fn member(d: usize) -> u16
    requires { d < 128 }
    ensures { result ≡ d }
{
    d as u16
}

// Place `i` of the members and `d` behind them.
fn member_at(first: &[u16], d: usize, i: usize) -> u16
    requires { d < 128 }
    ensures { result ≡ get_or (first.now ++ (d ∷ [])) i 0 }
{
    if i < first.len() {
        return first[i];
    }
    if i == first.len() {
        return member(d);
    }
    0
}

// The members and `d` behind them. All four places are filled, so that no part of them is copied through memory.
pub fn longer(first: &[u16], d: usize) -> [u16; 4]
    requires { (length first.now < 4) × (d < 128) }
    ensures { Longer first.now d result }
{
    let mut all = [0u16; 4];
    for i in 0..4 {
        all[i] = member_at(first, d, i);
    }
    all
}

// Writes member `i` to place `at + i`, if there is one.
fn put_member(first: &[u16], i: usize, sets: &mut [u16], at: usize)
    requires { (at + length first.now < length sets.old) × (i < 3) }
    ensures { sets.new ≡ cond (ltb i (length first.now)) (set sets.old (at + i) (get_or first.now i 0)) sets.old }
{
    if i < first.len() {
        sets[at + i] = first[i];
    }
}

// Writes the members and `d` from place `at` on, and answers the place behind them.
fn put_set(first: &[u16], d: usize, sets: &mut [u16], at: usize) -> usize
    requires { (at + length first.now < length sets.old) × (length first.now < 4) × (d < 128) }
    ensures { Put true sets.old sets.new at (first.now ++ (d ∷ [])) result }
{
    for i in 0..3 {
        put_member(first, i, sets, at);
    }
    let len = first.len();
    sets[at + len] = member(d);
    at + len + 1
}

// Lists the members and `d`: writes them from place `at` on if `write`, and answers the place behind them.
pub fn take_in(first: &[u16], d: usize, sets: &mut [u16], at: usize, write: bool) -> usize
    requires { (at + length first.now < 2 ^ 40) × (room_for write (at + length first.now + 1) ≤ length sets.old) × (length first.now < 4) × (d < 128) }
    ensures { Put write sets.old sets.new at (first.now ++ (d ∷ [])) result }
{
    if write {
        return put_set(first, d, sets, at);
    }
    at + first.len() + 1
}
