//! Writing the moves that are left.

ghost use Rattle.std.specs.Prelude.{◌≡◌, All, IsSome, Ok, OnOk};
ghost use Rattle.std.specs.List.{flat_map};
ghost use Rattle.qc_changes.specs.ListText.{list_text};
ghost use Rattle.qc_io.specs.Writes.{Writes};
ghost use Rattle.qc_rest_files.specs.LeftLines.{IsPlainIfLeft, left_line};
ghost use Rattle.qc_rest_files.specs.LeftRows.{is_move_of_any, left_rows};
ghost use Rattle.qc_ship.specs.Ship.{ShipView, place_of_bay};
ghost use Rattle.qc_stow.specs.Stow.{moves_in};

use qc_changes::{put_header, row_line};
use qc_io::{Sink, WriteFault, put_all};
use qc_model::{Instance, Task};
use qc_num::Text;
use qc_stow::{Moves, Row};
use qc_tasks::is_move_of;

/// Whether a move is one of the moves of these tasks.
fn is_move_of_any(tasks: &[Task], row: &Row) -> bool
    ensures { result ≡ is_move_of_any tasks.now row.now }
{
    tasks.iter().any(|task| is_move_of(task, row))
}

/// The line of a move of these tasks; empty for another.
fn left_line(tasks: &[Task], row: &Row) -> Text<64>
    ensures line { result ≡ left_line tasks.now row.now }
    ensures plain { IsPlainIfLeft tasks.now row.now }
{
    if is_move_of_any(tasks, row) {
        row_line(row)
    } else {
        Text::new()
    }
}

/// Writes the lines of the moves of these tasks.
fn put_left<K: Sink>(tasks: &[Task], rows: &[Row], sink: &mut K) -> Result<(), WriteFault>
    ensures writes { Writes (K.view sink.old) (K.view sink.new)
        (flat_map (left_line tasks.now) rows.now) result }
    ensures plain { OnOk result (All (IsPlainIfLeft tasks.now) rows.now) }
{
    for row in rows {
        put_all(sink, left_line(tasks, row).as_bytes())?;
    }
    Ok(())
}

/// Writes the stowage list of what is left: the line `id,move,cell,length`, and one for each move of a task of the
/// instance, in the order of the list. It takes no memory. After `WriteFault` a part of the text was written, from its
/// front. For a ship that has a hatch for each move, the text reads as these moves.
pub fn write_stow<K: Sink>(moves: &Moves, rest: &Instance, sink: &mut K) -> Result<(), WriteFault>
    ensures writes { Writes (K.view sink.old) (K.view sink.new)
        (list_text (left_rows rest.now.tasks moves.now)) result }
    ensures reads { OnOk result ((ship : ShipView)
        → All (λ row. IsSome (place_of_bay ship row.cell.bay)) moves.now
        → moves_in ship (list_text (left_rows rest.now.tasks moves.now))
        ≡ Ok (left_rows rest.now.tasks moves.now)) }
{
    put_header(sink)?;
    put_left(rest.tasks(), moves.rows(), sink)
}
