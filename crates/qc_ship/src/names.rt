//! The planner's own order: pairs of tasks by their names, of which the first ends before the second
//! starts.

ghost use Rattle.std.specs.Prelude.{◌≡◌, ◌<◌, ◌≤◌, [], length, map, bytes_eq, find, option_map};
ghost use Rattle.toml.specs.View.{view};
ghost use Rattle.qc_num.specs.Reading.{IsReading, each};
ghost use Rattle.qc_ship.specs.ShipFile.{name_in_phase, name_in, name_text, names_in, same_name, two_texts};

use crate::values::{fault, items_of};
use crate::{Key, MOST_NAME_PAIRS, NamePair, ShipError, ShipFault, ShipKind, TaskName};
use qc_model::{Phase, Task};
use std::alloc::Global;
use toml::Value;

/// The two texts of an array of two, if the value is one.
fn two_texts(value: &Value) -> Option<(&str, &str)>
    ensures { option_map (λ texts. (texts.0.now, texts.1.now)) result ≡ two_texts (view value.now) }
{
    let [a, b] = items_of(value)? else {
        return None;
    };
    Some((a.as_str()?, b.as_str()?))
}

/// Whether a text is the name of the task of a hatch in a phase.
fn is_named(hatch: u16, phase: Phase, text: &str) -> bool
    ensures { result ≡ bytes_eq (name_text hatch phase) text.now }
{
    let task = Task {
        hatch,
        phase,
        bay: 0,
        ticks: 0,
        release: 0,
    };
    task.text().as_bytes() == text.as_bytes()
}

/// The hatch of the ship whose task in a phase a text names.
fn hatch_named(hatches: &[u16], text: &str, phase: Phase) -> Option<u16>
    ensures { result ≡ find (λ hatch. bytes_eq (name_text hatch phase) text.now) hatches.now }
{
    hatches
        .iter()
        .copied()
        .find(|hatch| is_named(*hatch, phase, text))
}

/// The task of this phase that a text names, of a hatch of the ship.
fn name_in_phase(hatches: &[u16], text: &str, phase: Phase) -> Option<TaskName>
    ensures { result ≡ name_in_phase hatches.now text.now phase }
{
    match hatch_named(hatches, text, phase) {
        Some(hatch) => Some(TaskName { hatch, phase }),
        None => None,
    }
}

/// The task that a text names, of a hatch of the ship.
pub(crate) fn name_in(hatches: &[u16], text: &str) -> Option<TaskName>
    ensures { result ≡ name_in hatches.now text.now }
{
    let off_deck = name_in_phase(hatches, text, Phase::DeckOut);
    let off_hold = name_in_phase(hatches, text, Phase::HoldOut);
    let into_hold = name_in_phase(hatches, text, Phase::HoldIn);
    let on_deck = name_in_phase(hatches, text, Phase::DeckIn);
    off_deck.or(off_hold).or(into_hold).or(on_deck)
}

/// Whether two names are of one task.
pub(crate) fn same_name(a: TaskName, b: TaskName) -> bool
    ensures { result ≡ same_name a b }
{
    a.hatch == b.hatch && a.phase.rank() == b.phase.rank()
}

/// The names of two different tasks of the ship.
fn names_in(hatches: &[u16], before: &[NamePair], value: &Value) -> Result<NamePair, ShipFault>
    requires { length before.now < 1000 }
    ensures { result ≡ names_in hatches.now before.now (view value.now) }
{
    let number = before.len() as u32 + 1;
    let Some((first, second)) = two_texts(value) else {
        return Err(fault(ShipKind::WrongKind, Key::Before, number));
    };
    match (name_in(hatches, first), name_in(hatches, second)) {
        (Some(first), Some(second)) => {
            if same_name(first, second) {
                Err(fault(ShipKind::Same, Key::Before, number))
            } else {
                Ok(NamePair { first, second })
            }
        }
        _ => Err(fault(ShipKind::Task, Key::Before, number)),
    }
}

/// The pairs of an array's values.
pub(crate) fn read_order(
    alloc: Global,
    hatches: &[u16],
    values: &[Value],
) -> Result<Vec<NamePair>, ShipError>
    requires { length values.now ≤ MOST_NAME_PAIRS }
    ensures { IsReading (λ v. v.items) (each (names_in hatches.now) [] (map view values.now)) result }
{
    let mut pairs = Vec::new(alloc);
    for value in values {
        let pair = names_in(hatches, pairs.as_slice(), value)?;
        pairs.push(pair)?;
    }
    Ok(pairs)
}
