// Reads a text into rows of numbers, or refuses it by 1, 2 or 3.
#![tactic(auto)]

ghost use Rattle.std.specs.Prelude.{◌≡◌};
ghost use Rattle.model.specs.Refusal.{refusal_of};
ghost use Rattle.model.specs.Text as Text;
ghost use Rattle.rows.specs.Tables.{verdict_refusal, FreshTables};
ghost use Rattle.reader.specs.Lent.{ReadsRows};

use first_lines::read_first_lines;
use machine_lines::read_machines;
use model::Refusal;
use names::Names;
use rows::{Counts, Tables};
use step_lines::read_transitions;

mod first_lines; // the states line and the events line
mod machine_lines; // the machine lines
mod step_lines; // the step lines

// The text's counts and its rows, into fresh tables, or its refusal by 1, 2 or 3. Refused, the counts stay 0, and what the rows hold is left open.
pub fn read_rows(text: &[u8], plan: &mut Tables) -> Result<(), Refusal>
    requires { FreshTables plan.old }
    ensures verdict_value { verdict_refusal result ≡ refusal_of (Text.read text.now) }
    ensures reads_rows { ReadsRows text.now plan.new.counts plan.new.name_at plan.new.name_len plan.new.source plan.new.event plan.new.target plan.new.sizes plan.new.duplicate plan.new.place }
{
    let mut names = Names::none();
    let d = read_first_lines(text, plan, &mut names)?;
    let steps = read_transitions(text, d.next, d.states, &names, plan)?;
    let machines = read_machines(text, steps.next, d.states, 3 + steps.count, plan)?;
    plan.counts = Counts {
        states: d.states,
        initial: d.initial,
        events: names.count,
        transitions: steps.count,
        machines,
    };
    Ok(())
}
