//! How a line of a tree is written.
ghost use Rattle.std.specs.Prelude.{◌≡◌, ◌≤◌, ◌+◌, ◌++◌, ◌∷◌, [], length};
ghost use Rattle.qc_io.specs.Writes.{Writes};
ghost use Rattle.qc_tree.specs.Lines.{AreTasks, IsLine, IsTask, bound_field, fields, line_text};

use crate::line::Line;
use qc_io::{Sink, WriteFault, put_all};
use qc_num::{Bound, Path, Text};

/// How many bytes a line has room for: 240 tasks of four digits, and one number of any size behind.
const ROOM: usize = 1240;

/// Writes the line and its line feed, by one call of `put_all`. After `WriteFault` a part of it was
/// written, from its front, that isn't the whole.
pub fn write_line<K: Sink>(line: &Line, path: &Path, sink: &mut K) -> Result<(), WriteFault>
    requires in_range { IsLine line.now path.now.items }
    ensures writes { Writes (K.view sink.old) (K.view sink.new)
        (line_text line.now path.now.items ++ 10 ∷ []) result }
{
    let mut text = Text::new();
    push_line(&mut text, line, path.as_slice());
    put_all(sink, text.as_bytes())
}

/// Puts the line's text and its line feed into the empty text.
fn push_line(text: &mut Text<ROOM>, line: &Line, path: &[u16])
    requires empty { text.old ≡ [] }
    requires in_range { IsLine line.now path.now }
    ensures { text.new ≡ line_text line.now path.now ++ 10 ∷ [] }
{
    match *line {
        Line::Title => text.push(b"QCTREE 3"),
        Line::FreeTitle => text.push(b"QCFREE 1"),
        Line::Up => text.push(b"up"),
        Line::Down => text.push(b"down"),
        Line::Assign(task) => push_listed(text, b"A", &[task]),
        Line::Order(first, second) => push_listed(text, b"O", &[first, second]),
        Line::Chain => push_listed(text, b"P", path),
        Line::Ring => push_listed(text, b"C", path),
        Line::Clash => push_listed(text, b"Q", path),
        Line::Reach => text.push(b"X"),
        Line::Work(value) => {
            text.push(b"W ");
            text.push_number(value);
        }
        Line::End(branched, bound) => {
            text.push(b"end ");
            text.push_number(u64::from(branched));
            push_bound(text, bound);
        }
    }
    text.push(b"\n");
}

/// Puts a tree's value behind the text, after one space.
fn push_bound(text: &mut Text<ROOM>, bound: Bound)
    requires { length text.old ≤ 24 }
    ensures text { text.new ≡ text.old ++ bound_field bound }
    ensures length { length text.new ≤ 45 }
{
    match bound {
        Bound::Least(value) => {
            text.push(b" ");
            text.push_number(value);
        }
        Bound::Never => text.push(b" never"),
    }
}

/// Puts a word of one letter and the tasks behind the empty text.
fn push_listed(text: &mut Text<ROOM>, word: &[u8], tasks: &[u16])
    requires word { length word.now ≡ 1 }
    requires empty { text.old ≡ [] }
    requires in_range { AreTasks tasks.now }
    ensures text { text.new ≡ word.now ++ fields tasks.now }
    ensures length { length text.new ≤ 1201 }
{
    text.push(word);
    for &task in tasks {
        push_task(text, task);
    }
}

/// Puts a task's number behind the text, after one space.
fn push_task(text: &mut Text<ROOM>, task: u16)
    requires in_range { IsTask task }
    requires room { length text.old ≤ 1200 }
    ensures text { text.new ≡ text.old ++ fields (task ∷ []) }
    ensures length { length text.new ≤ length text.old + 5 }
{
    text.push(b" ");
    text.push_number(u64::from(task));
}
