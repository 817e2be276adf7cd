// The service Name: where an event's name stands in the text, and the name as the caller's own bytes.
#![tactic(auto)]

ghost use Rattle.std.specs.Prelude.{◌≡◌};
ghost use Rattle.model.specs.Services as Services;
ghost use Rattle.rows.specs.Tables.{verdict_refusal};
ghost use Rattle.stages.specs.Stages.{ReadAsFarAs7};
ghost use Rattle.name_service.specs.Parts.{Named, PartOf};

use model::Refusal;
use rows::Tables;
use stages::read_as_far_as_7;

// Where a name stands in the text.
#[derive(Clone, Copy)]
pub struct NamePart {
    pub from: usize,
    pub end: usize,
}

// The name of an event of a text that is read as far as 7 into the tables. The text itself is for the contract to name.
pub fn name_in_plan(
    read: Result<(), Refusal>,
    plan: &Tables,
    text: &[u8],
    event: usize,
) -> Result<NamePart, Refusal>
    requires { ReadAsFarAs7 text.now read plan.now }
    ensures { Named text.now event result }
{
    read?;
    if plan.counts.events <= event {
        return Err(Refusal::UnknownEvent { position: 0 }); // 14 odd call
    }
    let from = plan.name_at[event];
    let end = from + plan.name_len[event];
    Ok(NamePart { from, end })
}

// The name of an event, after the checks as far as 7.
pub fn name_part(text: &[u8], event: usize) -> Result<NamePart, Refusal>
    ensures { Named text.now event result }
{
    let mut plan = Tables::fresh();
    let read = read_as_far_as_7(text, &mut plan);
    name_in_plan(read, &plan, text, event)
}

// Name: the event's name as the caller's own bytes, or the empty part at the text's beginning; `name_refusal` then says why.
#[tactic(auto, unfolding(crate::specs::Parts::part_in))]
pub fn name(text: &[u8], event: usize) -> &[u8]
    ensures { PartOf text.entry (Services.handed_back (Services.name text.now event)) result }
{
    match name_part(text, event) {
        Ok(NamePart { from, end }) => &text[from..end],
        Err(_) => &text[..0],
    }
}

// The refusal of Name, if it is refused.
#[tactic(auto, unfolding(crate::specs::Parts::part_refusal, rows::specs::Tables::verdict_refusal))]
pub fn name_refusal(text: &[u8], event: usize) -> Result<(), Refusal>
    ensures { verdict_refusal result ≡ Services.name_refusal text.now event }
{
    name_part(text, event)?;
    Ok(())
}
