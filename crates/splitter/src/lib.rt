// The services under one name; each stands in the crate that it is taken from.
#![tactic(auto)]

pub use answers::RefusalNumbers;
pub use board_service::{board, sheet};
pub use check_service::check;
pub use merge_service::merge;
pub use model::{Refusal, Transition};
pub use name_service::{name, name_refusal};
pub use product::{Outcome, RunAnswer};
pub use quote_service::quote;
pub use run_service::run;
pub use steps_service::steps;
pub use thin_service::{Kept, thin};
