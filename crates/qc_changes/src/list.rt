//! Writing a list of moves.

ghost use Rattle.std.specs.Prelude.{◌≡◌};
ghost use Rattle.qc_io.specs.Writes.{Writes};
ghost use Rattle.qc_changes.specs.ListText.{IsPlain, header, length_text, list_text, move_text, row_line};
ghost use Rattle.std.specs.List.{flat_map};

use qc_io::{Sink, WriteFault, put_all};
use qc_num::Text;
use qc_stow::{Move, Row};

const HEADER: &[u8] = b"id,move,cell,length\n";

/// The way of a move between the container and the cell.
fn move_text(kind: Move) -> &'static [u8; 3]
    ensures { result.now ≡ move_text kind }
{
    match kind {
        Move::Discharge => b",D,",
        Move::Load => b",L,",
    }
}

/// The length behind the cell, and the end of the line.
fn length_text(forty: bool) -> &'static [u8; 4]
    ensures { result.now ≡ length_text forty }
{
    if forty { b",40\n" } else { b",20\n" }
}

/// The line of a move.
pub fn row_line(row: &Row) -> Text<64>
    ensures line { result ≡ row_line row.now }
    ensures plain { IsPlain row.now }
{
    let mut line = Text::of(row.id.as_bytes());
    line.push(move_text(row.kind));
    line.push(row.cell.write().as_bytes());
    line.push(length_text(row.cell.is_forty()));
    line
}

/// Writes the lines of moves.
fn put_rows<K: Sink>(rows: &[Row], sink: &mut K) -> Result<(), WriteFault>
    ensures { Writes (K.view sink.old) (K.view sink.new) (flat_map row_line rows.now) result }
{
    for row in rows {
        put_all(sink, row_line(row).as_bytes())?;
    }
    Ok(())
}

/// Writes the line ahead of all moves.
pub fn put_header<K: Sink>(sink: &mut K) -> Result<(), WriteFault>
    ensures { Writes (K.view sink.old) (K.view sink.new) header result }
{
    put_all(sink, HEADER)
}

/// Writes moves as a stowage list: the line `id,move,cell,length`, and one for each move. It takes no
/// memory. After `WriteFault` a part of the text was written, from its front.
pub fn write_list<K: Sink>(rows: &[Row], sink: &mut K) -> Result<(), WriteFault>
    ensures { Writes (K.view sink.old) (K.view sink.new) (list_text rows.now) result }
{
    put_header(sink)?;
    put_rows(rows, sink)
}
