// 9 and 10 of all machines at once, and their moves. The columns have at x * 16 + m the place of state x in machine m, so that one comparison goes over all machines, a lane for
// each.
ghost use Rattle.std.specs.Prelude.{◌≡◌, true, ℕ, ◌+◌, ◌*◌, ◌<◌, ◌≤◌, length};
ghost use Rattle.rows.specs.Told.{entry};
ghost use Rattle.regions.specs.Moves.{MoveRows};
ghost use Rattle.regions.specs.Columns.{lanes_agree, Lane, PutLane, Comparable, UnevenAt, EventPut, EventsPut, AgreesAtOnce};

use super::chains::Chains;
use super::crossings::{Crossing, pre_of};
use model::{MAX_MACHINES, MAX_STATES};
use rows::{Moves, Tables, UNPLACED};

// At most so many states have columns of 256 entries.
const FEW_COLUMNS: usize = 16;

// 9: the lane of machine m; the answer says whether each state has a place.
fn put_lane(plan: &Tables, m: usize, columns: &mut [u8]) -> bool
    requires { (m < 16) × (plan.now.counts.states ≤ 256) × (plan.now.counts.states * 16 ≤ length columns.old) }
    ensures put_lane { PutLane plan.now.place plan.now.counts.states m columns.old columns.new }
    ensures not_entry { result ≡ true → (x : ℕ) → x < plan.now.counts.states → ¬ (entry plan.now.place (m * 256 + x) ≡ 255) }
{
    let from = m * MAX_STATES;
    let mut all = true;
    for x in 0..plan.counts.states {
        let q = plan.place[from + x];
        columns[x * MAX_MACHINES + m] = q;
        all &= q != UNPLACED;
    }
    all
}

// The lanes of all machines; the answer says whether each places every state. After no they are not whole.
fn transpose(plan: &Tables, columns: &mut [u8]) -> bool
    requires { let p = plan.now in (p.counts.machines ≤ 16) × (p.counts.states ≤ 256) × (p.counts.states * 16 ≤ length columns.old) }
    ensures columns_len_unchanged { length columns.new ≡ length columns.old }
    ensures lane { let p = plan.now in result ≡ true → (m : ℕ) → m < p.counts.machines → Lane p.place p.counts.states columns.new m }
{
    for m in 0..plan.counts.machines {
        if !put_lane(plan, m, columns) {
            return false;
        }
    }
    true
}

// Two transitions lead alike through all machines. From and to are where the columns of the one's source and target begin, from2 and to2 those of the other's.
// No lane is left out after one that differs, so that the sixteen are one vector.
fn lanes_agree(columns: &[u8], from: usize, to: usize, from2: usize, to2: usize) -> bool
    requires from_in_bounds { (from + 16 ≤ length columns.now) × (to + 16 ≤ length columns.now) }
    requires from2_in_bounds { (from2 + 16 ≤ length columns.now) × (to2 + 16 ≤ length columns.now) }
    ensures { result ≡ lanes_agree columns.now from to from2 to2 16 }
{
    let mut all = true;
    for m in 0..MAX_MACHINES {
        let a = columns[from + m];
        let b = columns[to + m];
        let p = columns[from2 + m];
        let q = columns[to2 + m];
        all &= ((a == p) & (b == q)) | ((a == b) & (p == q));
    }
    all
}

// 10: the first event of which not all transitions lead alike through all machines.
fn first_uneven(plan: &Tables, chains: Chains, columns: &[u8]) -> Option<usize>
    requires comparable { let p = plan.now in Comparable p.source p.target chains.first.now chains.next.now p.counts.states p.counts.events p.counts.transitions }
    requires columns_size { plan.now.counts.states * 16 ≤ length columns.now }
    ensures { let p = plan.now in UnevenAt p.source p.target chains.entry.first.now chains.entry.next.now columns.now p.counts.events p.counts.transitions result }
{
    let mut uneven = None;
    'events: for e in 0..plan.counts.events {
        let f = chains.begin(e);
        let from = usize::from(plan.source[f]) * MAX_MACHINES;
        let to = usize::from(plan.target[f]) * MAX_MACHINES;
        let mut k = chains.after(f);
        while k < plan.counts.transitions {
            let from2 = usize::from(plan.source[k]) * MAX_MACHINES;
            let to2 = usize::from(plan.target[k]) * MAX_MACHINES;
            if !lanes_agree(columns, from, to, from2, to2) {
                uneven = Some(e);
                break 'events;
            }
            k = chains.after(k);
        }
    }
    uneven
}

// The moves of event e on all machines, from one column to another. The lanes are one vector here too.
fn put_event(columns: &[u8], from: usize, to: usize, e: usize, moves: &mut Moves)
    requires in_bounds { (from + 16 ≤ length columns.now) × (to + 16 ≤ length columns.now) × (e < 64) }
    requires rows { MoveRows moves.old.pre moves.old.post }
    ensures { EventPut columns.now from to e moves.old.pre moves.old.post moves.new.pre moves.new.post 16 }
{
    let at = e * MAX_MACHINES;
    for m in 0..MAX_MACHINES {
        let one = Crossing {
            pre: columns[from + m],
            post: columns[to + m],
        };
        moves.pre[at + m] = pre_of(one);
        moves.post[at + m] = one.post;
    }
}

// The moves on all machines: each event leads like its first transition.
fn put_moves(plan: &Tables, chains: Chains, columns: &[u8], moves: &mut Moves)
    requires comparable { let p = plan.now in Comparable p.source p.target chains.first.now chains.next.now p.counts.states p.counts.events p.counts.transitions }
    requires rows { MoveRows moves.old.pre moves.old.post × (plan.now.counts.states * 16 ≤ length columns.now) }
    ensures { let p = plan.now in EventsPut p.source p.target chains.entry.first.now columns.now p.counts.events moves.new.pre moves.new.post }
{
    for e in 0..plan.counts.events {
        let f = chains.begin(e);
        let from = usize::from(plan.source[f]) * MAX_MACHINES;
        let to = usize::from(plan.target[f]) * MAX_MACHINES;
        put_event(columns, from, to, e, moves);
    }
}

// 9, 10 of all machines, and then the moves, in columns with room for every state. The answer no tells nothing.
fn agree_in(plan: &Tables, chains: Chains, columns: &mut [u8], moves: &mut Moves) -> bool
    requires comparable { let p = plan.now in Comparable p.source p.target chains.first.now chains.next.now p.counts.states p.counts.events p.counts.transitions }
    requires machines_bound { (plan.now.counts.machines ≤ 16) × (plan.now.counts.states ≤ 256) × (plan.now.counts.states * 16 ≤ length columns.old) }
    requires rows { MoveRows moves.old.pre moves.old.post }
    ensures { let p = plan.now in AgreesAtOnce p.counts p.source p.target p.place chains.entry.first.now chains.entry.next.now result moves.new.pre moves.new.post }
{
    if !transpose(plan, columns) || first_uneven(plan, chains, columns).is_some() {
        return false;
    }
    put_moves(plan, chains, columns, moves);
    true
}

// The same, in columns of one of two sizes, so that few states have little to clear.
pub fn agree_at_once(plan: &Tables, chains: Chains, moves: &mut Moves) -> bool
    requires comparable { let p = plan.now in Comparable p.source p.target chains.first.now chains.next.now p.counts.states p.counts.events p.counts.transitions }
    requires machines_bound { (plan.now.counts.machines ≤ 16) × (plan.now.counts.states ≤ 256) }
    requires rows { MoveRows moves.old.pre moves.old.post }
    ensures { let p = plan.now in AgreesAtOnce p.counts p.source p.target p.place chains.entry.first.now chains.entry.next.now result moves.new.pre moves.new.post }
{
    if plan.counts.states <= FEW_COLUMNS {
        let mut columns = [0u8; 256];
        return agree_in(plan, chains, &mut columns, moves);
    }
    let mut columns = [0u8; 4096];
    agree_in(plan, chains, &mut columns, moves)
}
