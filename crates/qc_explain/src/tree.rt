//! Faults of a bound tree's file.

use qc_model::Turn;
use qc_page::{Page, Place, Sort, line_of, raw_line, say_form};
use qc_tree::{TreeFault, TreeKind};

/// What is wrong with a line of a tree, and what to do.
fn why(kind: TreeKind) -> &'static str {
    match kind {
        TreeKind::LineTooLong => "the line has more than 1200 bytes, so it is none of a tree",
        TreeKind::Cut =>
            "the file ends here, and a tree goes on: it was cut off; copy it again, or plan again",
        TreeKind::Spelling =>
            "no line of a tree looks like this: the file was changed, or is no tree",
        TreeKind::Place =>
            "another line is due here: the file was changed, or is no tree of this ship and list",
        TreeKind::UnknownTask => "it names a task that the ship file and the list haven't",
        TreeKind::NotApart => "it branches on two tasks that no pair of apart keeps apart",
        TreeKind::NotConflict => {
            "it branches on the order of two tasks that can run together by their cranes so far, or names the higher one first"
        }
        TreeKind::Decided => "it branches on what is decided above it",
        TreeKind::Branchings => "this is a branching behind the 1000000th, and a tree has no more",
        TreeKind::NotForced => "its tasks don't wait for each other as it says",
        TreeKind::NotCycle => "its tasks are no ring, as it says",
        TreeKind::NotClash =>
            "two of its tasks can run together, or one of them is listed twice or for no crane",
        TreeKind::InReach => "the crane reaches the task, and it says otherwise",
        TreeKind::WorkShort =>
            "the work isn't shown to be too much before that tick, and it says so",
        TreeKind::Counts => "the tree has another number of branchings or another value",
        TreeKind::After =>
            "the file goes on behind its last line: delete what stands there, or plan again",
    }
}

/// Whether a fault is likely one of a tree for another ship file or list.
fn is_of_others(kind: TreeKind) -> bool {
    !matches!(
        kind,
        TreeKind::LineTooLong
            | TreeKind::Cut
            | TreeKind::Spelling
            | TreeKind::Branchings
            | TreeKind::After
    )
}

/// What a tree of the other kind is, and which command checks it.
fn other_kind(title: &[u8], turn: Turn) -> Option<&'static str> {
    if turn == Turn::OneWay && title.starts_with(b"QCFREE ") {
        Some(
            "this is a tree of all feasible plans, whichever way their cranes go: check it with qc freecheck",
        )
    } else if turn == Turn::Free && title.starts_with(b"QCTREE ") {
        Some("this is a tree of plans that go one way: check it with qc check")
    } else {
        None
    }
}

/// Says what is wrong with a tree for schedules of this turn, whose first fault is this one.
pub fn say_tree(page: &mut Page, file: &str, bytes: &[u8], turn: Turn, fault: TreeFault) {
    if say_form(page, file, bytes, Sort::Tree) {
        return;
    }
    let number = fault.line as usize;
    let (place, line) = (Place::at_line(file, number), line_of(bytes, number));
    if raw_line(bytes, number).ends_with(b"\r") {
        return page
            .on(place)
            .text(
                "the lines end with a carriage return, as on Windows: a tree's end with a line feed alone; plan again",
            )
            .end();
    }
    if let Some(what) = other_kind(line_of(bytes, 1), turn) {
        return page.on(place).text(what).end();
    }
    page.on(place)
        .shown(line)
        .text(": ")
        .text(why(fault.kind))
        .end();
    if is_of_others(fault.kind) {
        page.line()
            .text(
                "a tree belongs to its ship file and its list: where one of them changed, plan again",
            )
            .end();
    }
}
