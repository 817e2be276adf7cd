// The new number of each place of a machine, and the rows with the new numbers.
ghost use Rattle.std.specs.Prelude.{◌≡◌, ℕ, suc, ◌+◌, ◌*◌, ◌<◌, ◌≤◌, ltb, length};
ghost use Rattle.rows.specs.Told.{entry};
ghost use Rattle.state_set.specs.Member.{member};
ghost use Rattle.merging.specs.Bars.{Ends};
ghost use Rattle.merging.specs.Numbers.{Filled, SmallRow, SmallSet, Gathered, Numbered, United, Renumbered, Narrowed, new_pre};

use crate::bar_rows::WORDS;
use model::{MAX_MACHINES, MAX_PLACES};
use rows::{MOVES, Moves, NOT_ON};
use state_set::{
    StateSet, join, join_at, load, lowest, meet, single, store, without, without_lowest,
};

// The numbers below n.
fn first_numbers(n: usize) -> StateSet
    requires { n ≤ 256 }
    ensures { (i : ℕ) → member result i ≡ ltb i n }
{
    let mut set = StateSet::EMPTY;
    for x in 0..n {
        set = join(set, single(x as u8));
    }
    set
}

// All of n states, for each event.
pub fn fill(n: usize, events: usize, row: &mut [u64; WORDS])
    requires { (n ≤ 256) × (events ≤ 64) }
    ensures { Filled n events row.new }
{
    let all = first_numbers(n);
    for e in 0..events {
        store(row, e, all);
    }
}

// The group of a place: it takes, lowest first, each place left that nothing in it bars. They get the group's number, and the answer is what is left then.
fn gather(
    bars: &[u64; WORDS],
    left: StateSet,
    first: u8,
    group: u8,
    number: &mut [u8; MAX_PLACES],
) -> StateSet
    requires { (first < 64) × SmallSet (member left) }
    ensures { Gathered bars.now (member left) first group number.old (member result) number.new }
{
    number[usize::from(first)] = group;
    let mut rest = left;
    let mut free = without(left, load(bars, usize::from(first)));
    while let Some(q) = lowest(free) {
        number[usize::from(q)] = group;
        rest = without(rest, single(q));
        free = without(without_lowest(free), load(bars, usize::from(q)));
    }
    rest
}

// The number of each place's group, and how many groups there are.
pub fn number_places(bars: &[u64; WORDS], size: usize, number: &mut [u8; MAX_PLACES]) -> usize
    requires { (size ≤ 64) × SmallRow number.old }
    ensures { Numbered bars.now size result number.new }
{
    let mut left = first_numbers(size);
    let mut groups = 0;
    while let Some(first) = lowest(left) {
        left = gather(bars, without_lowest(left), first, groups as u8, number);
        groups += 1;
    }
    groups
}

// The pre-place by the new numbers; where both ends are one place, the event is not on the machine.
fn new_pre(p: u8, q: u8) -> u8
    ensures { result ≡ new_pre p q }
{
    if p == q { NOT_ON } else { p }
}

// The moves of machine m by the new numbers.
pub fn renumber_moves(number: &[u8; MAX_PLACES], m: usize, events: usize, moves: &mut Moves)
    requires m_bound { (m < 16) × (events ≤ 64) × SmallRow number.now }
    requires ends { Ends (suc m) events moves.old.pre moves.old.post }
    ensures { Renumbered number.now m events moves.old.pre moves.old.post moves.new.pre moves.new.post }
{
    for e in 0..events {
        let at = e * MAX_MACHINES + m;
        let old = usize::from(moves.pre[at]);
        if old < MAX_PLACES {
            let p = number[old];
            let q = number[usize::from(moves.post[at])];
            moves.pre[at] = new_pre(p, q);
            moves.post[at] = q;
        }
    }
}

// The merged places of machine m as sets, in a row of empty sets.
pub fn unite(
    sets: &[u64],
    m: usize,
    size: usize,
    number: &[u8; MAX_PLACES],
    unions: &mut [u64; WORDS],
)
    requires { (m < 16) × (size ≤ 64) × (m * 256 + 256 ≤ length sets.now) × SmallRow number.now × United sets.now m 0 number.now unions.old }
    ensures { United sets.now m size number.now unions.new }
{
    for q in 0..size {
        join_at(
            unions,
            usize::from(number[q]),
            load(sets, m * MAX_PLACES + q),
        );
    }
}

// The states common to the pre-places of each event, now on machine m too.
pub fn narrow_common(
    unions: &[u64; WORDS],
    pre: &[u8; MOVES],
    m: usize,
    events: usize,
    earlier: &mut [u64; WORDS],
)
    requires { (m < 16) × (events ≤ 64) }
    ensures { Narrowed unions.now pre.now m events earlier.old earlier.new }
{
    for e in 0..events {
        let q = usize::from(pre[e * MAX_MACHINES + m]);
        if q < MAX_PLACES {
            let common = load(earlier, e);
            store(earlier, e, meet(common, load(unions, q)));
        }
    }
}
