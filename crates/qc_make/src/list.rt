//! The stowage list that is made from a number.
ghost use Rattle.std.specs.Prelude.{◌≡◌, ◌<◌, ◌≤◌, ◌++◌, map, IfOk, OnOk};
ghost use Rattle.std.specs.List.{range_with_len};
ghost use Rattle.qc_make.specs.Draws.{state_after};
ghost use Rattle.qc_make.specs.MadeList.{hatch_rows, list_text, lowest_tier, made_row, move_of, move_text, row_line, row_lines};

use crate::draws::{drawn, next_state};
use qc_model::{MOST_HATCHES, Phase};
use qc_num::{Bytes, OutOfMemory, Text};
use qc_ship::Cell;
use std::alloc::Global;

const PHASES: [Phase; 4] = [Phase::DeckOut, Phase::HoldOut, Phase::HoldIn, Phase::DeckIn];

/// How the way of the moves of a phase is written.
fn move_text(phase: Phase) -> &'static [u8; 1]
    ensures { result.now ≡ move_text (move_of phase) }
{
    match phase {
        Phase::DeckOut | Phase::HoldOut => b"D",
        Phase::HoldIn | Phase::DeckIn => b"L",
    }
}

/// The tier of the lowest container of a phase.
fn lowest_tier(phase: Phase) -> u8
    ensures tier { result ≡ lowest_tier phase }
    ensures most { result ≤ 82 }
{
    match phase {
        Phase::DeckOut | Phase::DeckIn => 82,
        Phase::HoldOut | Phase::HoldIn => 2,
    }
}

/// The line of row i of a hatch in a phase.
fn row_line(hatch: u16, phase: Phase, i: u8) -> Text<64>
    requires hatch { (2 ≤ hatch) × (hatch < 1000) }
    requires i { i < 30 }
    ensures { result ≡ row_line (made_row hatch phase i) }
{
    let cell = Cell {
        bay: hatch,
        row: i % 10,
        tier: lowest_tier(phase) + 2 * (i / 10),
    };
    let mut line = Text::new();
    line.push_number(u64::from(hatch));
    line.push(b"-");
    line.push(phase.text());
    line.push(b"-");
    line.push_number(u64::from(i));
    line.push(b",");
    line.push(move_text(phase));
    line.push(b",");
    line.push(cell.write().as_bytes());
    line.push(b",40\n");
    line
}

/// Puts the lines of a hatch's rows in a phase behind a text.
fn push_phase(text: &mut Vec<u8>, hatch: u16, phase: Phase, count: u8) -> Result<(), OutOfMemory>
    requires hatch { (2 ≤ hatch) × (hatch < 1000) }
    requires count { count ≤ 30 }
    ensures { OnOk result (text.new.items
        ≡ text.old.items ++ row_lines (map (made_row hatch phase) (range_with_len 0 count))) }
{
    for i in 0..count {
        text.extend_from_slice(row_line(hatch, phase, i).as_bytes())?;
    }
    Ok(())
}

/// Puts the lines of a hatch's rows behind a text, and answers the state after its draws.
fn push_hatch(text: &mut Vec<u8>, hatch: u16, state: u32) -> Result<u32, OutOfMemory>
    requires { (2 ≤ hatch) × (hatch < 1000) }
    ensures text { OnOk result (text.new.items ≡ text.old.items ++ row_lines (hatch_rows state hatch)) }
    ensures state { IfOk result (λ after. after ≡ state_after state 4) }
{
    let mut after = state;
    for phase in PHASES {
        after = next_state(after);
        push_phase(text, hatch, phase, drawn(after))?;
    }
    Ok(after)
}

/// The stowage list of a number for a ship of so many hatches. For each hatch and phase the number
/// draws 0 to 30 moves, ten side by side, and those behind on top. That the list has no fault on a made ship of so
/// many hatches isn't promised here: whoever reads it finds that out.
pub fn list_text(alloc: Global, number: u32, hatches: u16) -> Result<Bytes, OutOfMemory>
    requires { hatches ≤ MOST_HATCHES }
    ensures { IfOk result (λ bytes. bytes ≡ list_text number hatches) }
{
    let mut text = Vec::from_slice(alloc, b"id,move,cell,length\n")?;
    let mut state = number;
    for k in 0..hatches {
        state = push_hatch(&mut text, 4 * k + 2, state)?;
    }
    Ok(Bytes::of(text))
}
