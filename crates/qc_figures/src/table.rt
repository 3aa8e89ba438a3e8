//! The figures of all cranes as a comma-separated table.

ghost use Rattle.std.specs.Prelude.{◌≡◌, ◌+◌, ◌≤◌, ◌++◌, codes, decimal, length, OnOk, IfOk};
ghost use Rattle.std.specs.List.{flat_map, range_with_len};
ghost use Rattle.qc_figures.specs.FiguresText.{row_text, row_of, figures_text};
ghost use Rattle.qc_figures.specs.Views.{IsReady, view_of};
ghost use Rattle.qc_model.specs.Instance.{Valid};

use crate::crane::Figures;
use crate::figured::{Figured, figures_of};
use crate::page::Page;
use qc_model::Name;
use qc_num::{Bytes, OutOfMemory, Text, Tick};
use std::alloc::Global;

/// Puts a comma and a figure behind a row.
fn push_figure(row: &mut Text<256>, figure: Tick)
    requires { length row.old ≤ 234 }
    ensures text { row.new ≡ row.old ++ codes "," ++ decimal figure }
    ensures length { length row.new ≤ length row.old + 21 }
{
    row.push(b",");
    row.push_number(figure);
}

/// The row of a crane with these figures.
fn row_text(name: &Name, figures: &Figures) -> Text<256>
    ensures { result ≡ row_text name.now figures.now }
{
    let mut row: Text<256> = Text::of(name.as_bytes());
    push_figure(&mut row, Tick::from(figures.tasks));
    push_figure(&mut row, Tick::from(figures.moves));
    push_figure(&mut row, figures.not_ready);
    push_figure(&mut row, figures.work);
    push_figure(&mut row, figures.moving);
    push_figure(&mut row, figures.waiting);
    push_figure(&mut row, figures.idle);
    push_figure(&mut row, figures.end);
    push_figure(&mut row, figures.share);
    row.push(b"\n");
    row
}

/// Puts the row of each crane behind the text.
fn put_rows(of: &Figured<'_>, page: &mut Page) -> Result<(), OutOfMemory>
    requires { IsReady (view_of of.now) }
    ensures page { OnOk result (page.new ≡ page.old
        ++ flat_map (row_of (view_of of.now)) (range_with_len 0 (length (view_of of.now).inst.cranes))) }
    ensures valid { Valid (view_of of.now).inst }
{
    for crane in 0..of.inst.crane_count() {
        let figures = figures_of(of, crane);
        page.put(row_text(&of.inst.crane(crane).name, &figures).as_bytes())?;
    }
    Ok(())
}

/// The figures of all cranes: a header, and a row for each crane in order along the rail, with its name and
/// its figures between commas.
pub fn write_figures(alloc: Global, of: &Figured<'_>) -> Result<Bytes, OutOfMemory>
    requires { IsReady (view_of of.now) }
    ensures text { IfOk result (λ text. text ≡ figures_text (view_of of.now)) }
    ensures valid { IfOk result (λ text. Valid (view_of of.now).inst) }
{
    let mut page = Page::new(alloc);
    page.put(b"crane,tasks,moves,not_ready,work,moving,waiting,idle,end,share\n")?;
    put_rows(of, &mut page)?;
    Ok(page.bytes())
}
