// The numbers of a refusal, as document 01's table has it. A call that lends a list answers how many of its entries are written, or a refusal.
#![tactic(auto)]

ghost use Rattle.std.specs.Prelude.{◌≡◌};
ghost use Rattle.model.specs.Cases.{tabled};
ghost use Rattle.answers.specs.Answers.{numbered};

use model::Refusal;

// A refusal as document 01's table has it.
#[derive(Clone, Copy)]
pub struct RefusalNumbers {
    pub number: usize,
    pub detail: usize,
    pub second: usize,
}

impl From<Refusal> for RefusalNumbers {
    ghost from_gives = { λ why r. numbered r ≡ tabled why };

    #[tactic(auto, unfolding(crate::specs::Answers::numbered, model::specs::Cases::tabled))]
    fn from(why: Refusal) -> RefusalNumbers {
        let (number, detail, second) = match why {
            Refusal::Malformed { line } => (1, line, 0), // 1 misformed
            Refusal::LimitExceeded { line } => (2, line, 0), // 2 oversize
            Refusal::Undeclared { line } => (3, line, 0), // 3 stranger
            Refusal::SelfLoop { line } => (4, line, 0), // 4 standstill
            Refusal::Nondeterministic { line, earlier } => (5, line, earlier), // 5 fork
            Refusal::UnusedEvent { event } => (6, event, 0), // 6 idle event
            Refusal::Unreachable { state } => (7, state, 0), // 7 unreached
            Refusal::DuplicateState { machine, state } => (8, machine, state), // 8 doubled
            Refusal::UncoveredState { machine, state } => (9, machine, state), // 9 missing
            Refusal::NotARegion { machine, event } => (10, machine, event), // 10 uneven
            Refusal::IneffectiveEvent { event } => (11, event, 0), // 11 unheld
            Refusal::NotExcitationClosed { event, state } => (12, event, state), // 12 open
            Refusal::BufferTooShort { needed } => (13, needed, 0), // 13 short sheet
            Refusal::UnknownEvent { position } => (14, position, 0), // 14 odd call
            Refusal::BadSheet { line } => (15, line, 0), // 15 bad sheet
        };
        RefusalNumbers {
            number,
            detail,
            second,
        }
    }
}
