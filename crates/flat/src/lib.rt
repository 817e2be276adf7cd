// Answers made flat for callers in C and Rust: structs of numbers whose unused fields are 0.
#![tactic(auto)]

ghost use Rattle.std.specs.Prelude.{◌≡◌};
ghost use Rattle.answers.specs.Answers.{answered};
ghost use Rattle.product.specs.Answers.{outcome_is, run_answer};
ghost use Rattle.flat.specs.Flat.{flat_answer, flat_outcome, flat_run};

use answers::RefusalNumbers;
use model::Refusal;
use product::{Outcome, RunAnswer};

// What a call on a lent list answers: a refusal's number and details, or how many entries are written.
#[repr(C)]
#[derive(Drop)]
pub struct FlatAnswer {
    pub number: usize,
    pub detail: usize,
    pub second: usize,
    pub size: usize,
}

impl From<Result<usize, Refusal>> for FlatAnswer {
    ghost from_gives = { λ answer r. r ≡ flat_answer (answered answer) };

    #[tactic(auto, unfolding(crate::specs::Flat::flat_answer, answers::specs::Answers::answered, answers::specs::Answers::numbered))]
    fn from(answer: Result<usize, Refusal>) -> FlatAnswer {
        match answer {
            Ok(size) => FlatAnswer {
                number: 0,
                detail: 0,
                second: 0,
                size,
            },
            Err(why) => {
                let n = RefusalNumbers::from(why);
                FlatAnswer {
                    number: n.number,
                    detail: n.detail,
                    second: n.second,
                    size: 0,
                }
            }
        }
    }
}

// What a run answers: a refusal; or whether a machine blocked, and then how many events ran and which machine it was; and the place of each machine number. Sixteen fields and no row: the C interface.
#[repr(C)]
#[derive(Drop)]
pub struct FlatRun {
    pub number: usize,
    pub detail: usize,
    pub second: usize,
    pub blocked: usize,
    pub ran: usize,
    pub machine: usize,
    pub place_0: u8,
    pub place_1: u8,
    pub place_2: u8,
    pub place_3: u8,
    pub place_4: u8,
    pub place_5: u8,
    pub place_6: u8,
    pub place_7: u8,
    pub place_8: u8,
    pub place_9: u8,
    pub place_10: u8,
    pub place_11: u8,
    pub place_12: u8,
    pub place_13: u8,
    pub place_14: u8,
    pub place_15: u8,
}

// The outcome as six numbers.
#[derive(Drop)]
struct FlatOutcome {
    number: usize,
    detail: usize,
    second: usize,
    blocked: usize,
    ran: usize,
    machine: usize,
}

impl From<Outcome> for FlatOutcome {
    ghost from_gives = { λ outcome r. r ≡ flat_outcome (outcome_is outcome) };

    #[tactic(auto, unfolding(crate::specs::Flat::flat_outcome, answers::specs::Answers::numbered, product::specs::Answers::outcome_is))]
    fn from(outcome: Outcome) -> FlatOutcome {
        match outcome {
            Outcome::Whole => FlatOutcome {
                number: 0,
                detail: 0,
                second: 0,
                blocked: 0,
                ran: 0,
                machine: 0,
            },
            Outcome::Blocked { ran, machine } => FlatOutcome {
                number: 0,
                detail: 0,
                second: 0,
                blocked: 1,
                ran,
                machine,
            },
            Outcome::Refused(why) => {
                let n = RefusalNumbers::from(why);
                FlatOutcome {
                    number: n.number,
                    detail: n.detail,
                    second: n.second,
                    blocked: 0,
                    ran: 0,
                    machine: 0,
                }
            }
        }
    }
}

impl From<RunAnswer> for FlatRun {
    ghost from_gives = { λ answer r. r ≡ flat_run (run_answer answer) };

    #[tactic(auto, unfolding(crate::specs::Flat::flat_run, crate::specs::Flat::with_places, product::specs::Answers::run_answer))]
    fn from(answer: RunAnswer) -> FlatRun {
        let t = FlatOutcome::from(answer.outcome);
        let p = answer.places;
        FlatRun {
            number: t.number,
            detail: t.detail,
            second: t.second,
            blocked: t.blocked,
            ran: t.ran,
            machine: t.machine,
            place_0: p[0],
            place_1: p[1],
            place_2: p[2],
            place_3: p[3],
            place_4: p[4],
            place_5: p[5],
            place_6: p[6],
            place_7: p[7],
            place_8: p[8],
            place_9: p[9],
            place_10: p[10],
            place_11: p[11],
            place_12: p[12],
            place_13: p[13],
            place_14: p[14],
            place_15: p[15],
        }
    }
}
