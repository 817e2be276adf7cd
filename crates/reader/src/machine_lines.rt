// The machine lines, to the end of the text.
ghost use Rattle.std.specs.Prelude.{◌≡◌, ◌&&◌, ◌≤◌, leb, ltb};
ghost use Rattle.reader.specs.Sections.{ReadsMachines, rows_of_machines, with_machine_rows};

use lines::read_machine;
use model::{MAX_MACHINES, MAX_PLACES, Refusal};
use rows::Tables;

// Machine k, with so many places, is within the limits.
fn within_limits(k: usize, places: usize) -> bool
    ensures { result ≡ (ltb k 16 && leb places 64) }
{
    k < MAX_MACHINES && places <= MAX_PLACES
}

// The machine lines at a position, which is on the given line, to the end of the text: how many, their rows into the tables.
pub fn read_machines(
    s: &[u8],
    at: usize,
    n: usize,
    line: usize,
    plan: &mut Tables,
) -> Result<usize, Refusal>
    requires { (n ≤ 256) × (line ≤ 1027) }
    ensures reads_machines { ReadsMachines s.now at n line result (rows_of_machines plan.old) (rows_of_machines plan.new) }
    ensures others { plan.new ≡ with_machine_rows plan.old (rows_of_machines plan.new) }
{
    let mut k = 0;
    let mut i = at;
    // how many lines there are is known at the end alone, so this is no for
    while i < s.len() {
        let here = line + k;
        let Some(m) = read_machine(s, i, n) else {
            return Err(Refusal::Malformed { line: here }); // 1 misformed
        };
        let within = within_limits(k, m.places);
        let declared = m.declared;
        if !within {
            return Err(Refusal::LimitExceeded { line: here }); // 2 oversize
        }
        if !declared {
            return Err(Refusal::Undeclared { line: here }); // 3 stranger
        }
        plan.sizes[k] = m.places;
        plan.duplicate[k] = m.duplicate;
        plan.place[k * 256..k * 256 + 256].copy_from_slice(&m.row);
        k += 1;
        i = m.next;
    }
    if k == 0 {
        return Err(Refusal::LimitExceeded { line }); // 2 oversize
    }
    Ok(k)
}
