// Names in rows of their lengths and numbers: one is looked up in turn, or by a table of hints that are tested before they are used.
#![tactic(auto)]

ghost use Rattle.std.specs.Prelude.{◌≡◌, ◌≤◌, ◌<◌, true, List};
ghost use Rattle.model.specs.Bytes.{Name};
ghost use Rattle.model.specs.Text as Text;
ghost use Rattle.names.specs.Held.{PackedNames, Same, Finds, no_names, with_hints, entry};

use lexer::PackedName;
use model::MAX_EVENTS;

// How many places a table of hints has: for a name's numbers an entry of the rows to try. A fresh one has 0 in each.
pub const HINTS: usize = 1024;

// The first `count` entries are names, each with its length and its numbers; the others are 0 in a fresh table. Three rows, since a look-up goes over one of them. That names are at
// most 64 is a clause and no ghost field: quick_step_line and quick_move promise the same for any count.
#[derive(Drop)]
pub struct Names {
    pub count: usize,
    pub len: [usize; MAX_EVENTS],
    pub high: [u64; MAX_EVENTS],
    pub low: [u64; MAX_EVENTS],
    pub hints: [u8; HINTS],
}

impl Names {
    // No names.
    pub fn none() -> Names
        ensures { result ≡ no_names }
    {
        Names {
            count: 0,
            len: [0; MAX_EVENTS],
            high: [0; MAX_EVENTS],
            low: [0; MAX_EVENTS],
            hints: [0; HINTS],
        }
    }

    // Entry k is a name of this event. Each number is compared without a branch.
    pub fn is_at(&self, k: usize, name: PackedName) -> bool
        requires { k < 64 }
        ensures { result ≡ true → Same self.now.«len» self.now.«high» self.now.«low» name.«len» name.«high» name.«low» k }
    {
        (self.high[k] == name.high) & (self.low[k] == name.low) & (self.len[k] == name.len)
    }

    // The first of the names that is this event. Names share beginnings, so the bytes after the eighth are compared first.
    pub fn find(&self, name: PackedName) -> Option<usize>
        requires { self.now.count ≤ 64 }
        ensures { Finds self.now.count self.now.«len» self.now.«high» self.now.«low» name.«len» name.«high» name.«low» result }
    {
        for k in 0..self.count {
            if self.low[k] == name.low && self.high[k] == name.high && self.len[k] == name.len {
                return Some(k);
            }
        }
        None
    }

    // No name is one event with an earlier one.
    pub fn distinct(&self) -> bool
        requires { self.now.count ≤ 64 }
        ensures { (es : List Name) → PackedNames es self.now.count self.now.«len» self.now.«high» self.now.«low» → result ≡ Text.distinct es }
    {
        for k in 0..self.count {
            if self.find(self.name(k)) != Some(k) {
                return false;
            }
        }
        true
    }

    // The entry to try for a name.
    pub fn hint(&self, name: PackedName) -> usize
        ensures { result < 64 }
    {
        usize::from(self.hints[hint_slot(name)] % 64)
    }

    // The entry to try if that is another name.
    pub fn second_hint(&self, name: PackedName) -> usize
        ensures { result < 64 }
    {
        usize::from(self.hints[slot_after(hint_slot(name))] % 64)
    }

    // A hint that leads from a name's numbers to entry k: in their first place while its hint is 0, as in a fresh table; otherwise in the second.
    pub fn add_hint(&mut self, name: PackedName, k: usize)
        requires { k < 64 }
        ensures { self.new ≡ with_hints self.old self.new.hints }
    {
        let slot = hint_slot(name);
        let free = if self.hints[slot] == 0 {
            slot
        } else {
            slot_after(slot)
        };
        // not 0, so that the place is held
        self.hints[free] = (64 + k) as u8;
    }

    // A hint for each name.
    pub fn fill_hints(&mut self)
        requires { self.old.count ≤ 64 }
        ensures { self.new ≡ with_hints self.old self.new.hints }
    {
        for k in 0..self.count {
            self.add_hint(self.name(k), k);
        }
    }

    // Entry k.
    fn name(&self, k: usize) -> PackedName
        requires { k < 64 }
        ensures { result ≡ entry self.now k }
    {
        PackedName {
            len: self.len[k],
            high: self.high[k],
            low: self.low[k],
        }
    }
}

// The first place of a name's numbers in a table of hints, by a multiplicative hash.
fn hint_slot(name: PackedName) -> usize
    ensures { result < 1024 }
{
    let mixed = name.high.wrapping_add(name.low) % 4294967296;
    (mixed * 2654435761 / 4194304 % 1024) as usize
}

// The second place of numbers whose first is this.
fn slot_after(slot: usize) -> usize
    requires { slot < 1024 }
    ensures { result < 1024 }
{
    (slot + 1) % HINTS
}
