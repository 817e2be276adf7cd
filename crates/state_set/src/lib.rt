// Sets of states, one bit for each of 256, and rows of such sets.
#![tactic(auto)]

ghost use Rattle.std.specs.Prelude.{◌≡◌, not, ◌&&◌, ◌||◌, ℕ, ◌+◌, ◌*◌, ◌<◌, eqb, length};
ghost use Rattle.std.proofs.Math.Option.{some};
ghost use Rattle.std.specs.Int.Count.{count_trailing_zeros};
ghost use Rattle.model.specs.Lists.{lowest};
ghost use Rattle.state_set.specs.Member.{member, state_found};
ghost use Rattle.state_set.specs.Rows.{set_at, member_at, Stored, Inserted, WordJoined, Joined};

// A word of the set of all states.
pub const FULL_WORD: u64 = u64::MAX;

// Four words, and no array of them: a set is passed by value, and its words are tested one by one.
#[derive(Clone, Copy)]
pub struct StateSet {
    pub w0: u64,
    pub w1: u64,
    pub w2: u64,
    pub w3: u64,
}

impl StateSet {
    pub const EMPTY: StateSet = StateSet {
        w0: 0,
        w1: 0,
        w2: 0,
        w3: 0,
    };

    pub const FULL: StateSet = StateSet {
        w0: FULL_WORD,
        w1: FULL_WORD,
        w2: FULL_WORD,
        w3: FULL_WORD,
    };
}

// The set of one state.
pub fn single(state: u8) -> StateSet
    ensures { (i : ℕ) → member result i ≡ eqb i state }
{
    let bit = 1u64 << (state % 64);
    let word = state / 64;
    let mut set = StateSet::EMPTY;
    if word == 0 {
        set.w0 = bit;
    } else if word == 1 {
        set.w1 = bit;
    } else if word == 2 {
        set.w2 = bit;
    } else {
        set.w3 = bit;
    }
    set
}

// The states in both sets. `meet`, `join` and `without` are each one operator; one function that takes the operator is no plainer.
pub fn meet(a: StateSet, b: StateSet) -> StateSet
    ensures { (i : ℕ) → member result i ≡ (member a i && member b i) }
{
    StateSet {
        w0: a.w0 & b.w0,
        w1: a.w1 & b.w1,
        w2: a.w2 & b.w2,
        w3: a.w3 & b.w3,
    }
}

// The states in either set.
pub fn join(a: StateSet, b: StateSet) -> StateSet
    ensures { (i : ℕ) → member result i ≡ (member a i || member b i) }
{
    StateSet {
        w0: a.w0 | b.w0,
        w1: a.w1 | b.w1,
        w2: a.w2 | b.w2,
        w3: a.w3 | b.w3,
    }
}

// The states of `a` that are not in `b`.
pub fn without(a: StateSet, b: StateSet) -> StateSet
    ensures { (i : ℕ) → member result i ≡ (member a i && not (member b i)) }
{
    StateSet {
        w0: a.w0 & !b.w0,
        w1: a.w1 & !b.w1,
        w2: a.w2 & !b.w2,
        w3: a.w3 & !b.w3,
    }
}

// The lowest state of a word that is not 0; `first` is the state of its first bit.
fn lowest_in(word: u64, first: u8) -> u8
    requires { (0 < word) × (first < 193) }
    ensures { result ≡ first + count_trailing_zeros 64 word }
{
    first + word.trailing_zeros() as u8
}

// The lowest state of a set, if it has one.
pub fn lowest(a: StateSet) -> Option<u8>
    ensures { state_found result ≡ lowest (member a) 256 }
{
    if a.w0 != 0 {
        return Some(lowest_in(a.w0, 0));
    }
    if a.w1 != 0 {
        return Some(lowest_in(a.w1, 64));
    }
    if a.w2 != 0 {
        return Some(lowest_in(a.w2, 128));
    }
    if a.w3 != 0 {
        return Some(lowest_in(a.w3, 192));
    }
    None
}

// The set without its lowest state.
pub fn without_lowest(a: StateSet) -> StateSet
    ensures { (s : ℕ) → some s ≡ lowest (member a) 256 → (i : ℕ) → member result i ≡ (member a i && not (eqb i s)) }
{
    let mut rest = a;
    if rest.w0 != 0 {
        rest.w0 &= rest.w0 - 1;
    } else if rest.w1 != 0 {
        rest.w1 &= rest.w1 - 1;
    } else if rest.w2 != 0 {
        rest.w2 &= rest.w2 - 1;
    } else if rest.w3 != 0 {
        rest.w3 &= rest.w3 - 1;
    }
    rest
}

// Set k of a row.
pub fn load(row: &[u64], k: usize) -> StateSet
    requires { k * 4 + 3 < length row.now }
    ensures { result ≡ set_at row.now k }
{
    let at = k * 4;
    StateSet {
        w0: row[at],
        w1: row[at + 1],
        w2: row[at + 2],
        w3: row[at + 3],
    }
}

pub fn store(row: &mut [u64], k: usize, a: StateSet)
    requires { k * 4 + 3 < length row.old }
    ensures { Stored k a row.old row.new }
{
    let at = k * 4;
    row[at] = a.w0;
    row[at + 1] = a.w1;
    row[at + 2] = a.w2;
    row[at + 3] = a.w3;
}

// The state is in set k of a row.
pub fn contains_at(row: &[u64], k: usize, state: u8) -> bool
    requires { k * 4 + 3 < length row.now }
    ensures { result ≡ member_at row.now k state }
{
    let at = k * 4 + usize::from(state / 64);
    (row[at] >> (state % 64)) % 2 == 1
}

// Adds a state to set k of a row, which changes one word.
pub fn insert(row: &mut [u64], k: usize, state: u8)
    requires { k * 4 + 3 < length row.old }
    ensures { Inserted k state row.old row.new }
{
    let at = k * 4 + usize::from(state / 64);
    row[at] |= 1u64 << (state % 64);
}

// Adds the states of a word to a word of a row, if it has any.
fn join_word(row: &mut [u64], at: usize, word: u64)
    requires { at < length row.old }
    ensures { WordJoined at word row.old row.new }
{
    if word != 0 {
        row[at] |= word;
    }
}

// Adds the states of a set to set k of a row. A set of one state changes one word.
pub fn join_at(row: &mut [u64], k: usize, a: StateSet)
    requires { k * 4 + 3 < length row.old }
    ensures { Joined k a row.old row.new }
{
    let at = k * 4;
    join_word(row, at, a.w0);
    join_word(row, at + 1, a.w1);
    join_word(row, at + 2, a.w2);
    join_word(row, at + 3, a.w3);
}
