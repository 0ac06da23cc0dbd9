// The sets that begin with a few members, listed by rising next member.
ghost use Rattle.std.specs.Prelude.{◌≡◌, ◌+◌, ◌*◌, ◌^◌, ◌≤◌, ◌<◌, length, get_or};
ghost use Rattle.parity.specs.StoppingSets.{stopping_sets, flat};
ghost use Rattle.enumeration.specs.Search.{Begun, Sized, across, decided, Seen, Under, last_of, listed, Put, room_for};

use crate::Search;
use crate::checks::{completes, once_with, some_with};
use crate::members::{longer, member, take_in};

// Lists the members and `d` if they are a stopping set, and answers the place behind.
fn list_with(
    cols: &[u64],
    search: Search,
    once: &[u64],
    some: &[u64],
    x: u64,
    w: u64,
    first: &[u16],
    d: usize,
    sets: &mut [u16],
    at: usize,
) -> usize
    requires sized { Sized cols.now once.now some.now search.used × (d < 128) × (length first.now < 4) × (x ≡ get_or once.now 0 0) × (w ≡ decided x (get_or some.now 0 0)) }
    requires seen { Seen (across cols.now) first.now once.now some.now × Under first.now d }
    requires d_bound { at + length (last_of (across cols.now) (search.used * 64) first.now d) < 2 ^ 40 }
    requires d_in_bounds { room_for search.write (at + length (last_of (across cols.now) (search.used * 64) first.now d)) ≤ length sets.old }
    ensures { Put search.write sets.old sets.new at (last_of (across cols.now) (search.used * 64) first.now d) result }
{
    if completes(cols, once, some, x, w, search.used, d) {
        return take_in(first, d, sets, at, search.write);
    }
    at
}

// Lists the stopping sets of the members and one more bit, from `from` on, and answers the place behind them. What the first words say is made once, so that
// it stays in registers while sets are written.
fn list_last(
    cols: &[u64],
    search: Search,
    once: &[u64],
    some: &[u64],
    first: &[u16],
    from: usize,
    sets: &mut [u16],
    at: usize,
) -> usize
    requires sized { Sized cols.now once.now some.now search.used × (search.bits ≤ 128) × (length first.now < 4) }
    requires begun { Begun cols.now first.now once.now some.now from }
    requires from_bound { at + length (listed (across cols.now) (search.used * 64) search.bits 1 first.now from) < 2 ^ 40 }
    requires from_in_bounds { room_for search.write (at + length (listed (across cols.now) (search.used * 64) search.bits 1 first.now from)) ≤ length sets.old }
    ensures { Put search.write sets.old sets.new at (listed (across cols.now) (search.used * 64) search.bits 1 first.now from) result }
{
    let x = once[0];
    let w = x | !some[0];
    let n = search.bits;
    let mut place = at;
    for d in from..n {
        place = list_with(cols, search, once, some, x, w, first, d, sets, place);
    }
    place
}

// Lists the stopping sets of the members and two more bits, from `from` on, and answers the place behind them. The members are copied once, and the first of
// the two bits is put behind them.
fn list_pairs(
    cols: &[u64],
    search: Search,
    once: &[u64],
    some: &[u64],
    first: &[u16],
    from: usize,
    sets: &mut [u16],
    at: usize,
) -> usize
    requires sized { Sized cols.now once.now some.now search.used × (search.bits ≤ 128) × (length first.now < 3) }
    requires begun { Begun cols.now first.now once.now some.now from }
    requires from_bound { at + length (listed (across cols.now) (search.used * 64) search.bits 2 first.now from) < 2 ^ 40 }
    requires from_in_bounds { room_for search.write (at + length (listed (across cols.now) (search.used * 64) search.bits 2 first.now from)) ≤ length sets.old }
    ensures { Put search.write sets.old sets.new at (listed (across cols.now) (search.used * 64) search.bits 2 first.now from) result }
{
    let len = first.len();
    let mut more = longer(first, 0);
    let n = search.bits;
    let mut place = at;
    for d in from..n {
        let x = once_with(cols, once, some, d);
        let u = some_with(cols, some, d);
        more[len] = member(d);
        let next = d + 1;
        place = list_last(cols, search, &x, &u, &more[..len + 1], next, sets, place);
    }
    place
}

// Lists the stopping sets of the members and `left` + 2 more bits, from `from` on, and answers the place behind them.
fn list_from(
    cols: &[u64],
    search: Search,
    left: usize,
    once: &[u64],
    some: &[u64],
    first: &[u16],
    from: usize,
    sets: &mut [u16],
    at: usize,
) -> usize
    requires sized { Sized cols.now once.now some.now search.used × (search.bits ≤ 128) × (length first.now + left < 3) }
    requires begun { Begun cols.now first.now once.now some.now from }
    requires from_bound { at + length (listed (across cols.now) (search.used * 64) search.bits (left + 2) first.now from) < 2 ^ 40 }
    requires from_in_bounds { room_for search.write (at + length (listed (across cols.now) (search.used * 64) search.bits (left + 2) first.now from)) ≤ length sets.old }
    ensures { Put search.write sets.old sets.new at (listed (across cols.now) (search.used * 64) search.bits (left + 2) first.now from) result }
{
    if left == 0 {
        return list_pairs(cols, search, once, some, first, from, sets, at);
    }
    let len = first.len() + 1;
    let n = search.bits;
    let mut place = at;
    for d in from..n {
        let x = once_with(cols, once, some, d);
        let u = some_with(cols, some, d);
        let more = longer(first, d);
        place = list_from(
            cols,
            search,
            left - 1,
            &x,
            &u,
            &more[..len],
            d + 1,
            sets,
            place,
        );
    }
    place
}

// Lists all stopping sets of `t` of the first `n` bits, and answers how many places they take. They are written only if `write`.
pub fn list_all(
    cols: &[u64],
    n: usize,
    used: usize,
    t: usize,
    sets: &mut [u16],
    write: bool,
) -> usize
    requires cols_len { (length cols.now ≡ 1024) × (1 ≤ used) × (used ≤ 8) × (n ≤ 120) × (1 ≤ t) × (t ≤ 4) }
    requires t_in_bounds { room_for write (length (flat (stopping_sets (across cols.now) n 128 (used * 64) t))) ≤ length sets.old }
    ensures { Put write sets.old sets.new 0 (flat (stopping_sets (across cols.now) n 128 (used * 64) t)) result }
{
    let none = [0u64; 8];
    let members = [0u16; 4];
    let len: usize = 0;
    let search = Search {
        bits: n,
        used: used,
        write: write,
    };
    if t == 1 {
        return list_last(cols, search, &none, &none, &members[..len], 0, sets, 0);
    }
    list_from(
        cols,
        search,
        t - 2,
        &none,
        &none,
        &members[..len],
        0,
        sets,
        0,
    )
}
