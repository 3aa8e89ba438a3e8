//! What is said after a run on standard error.
ghost use Rattle.std.specs.Prelude.{None};
ghost use Rattle.qc_io.specs.Outside.{sink_view};
ghost use Rattle.qc_voice.specs.Frame.{LeavesFiles};

use crate::voice::explain;
use qc_io::{Failed, Shelf, Sink, fault, put_all};
use qc_page::Page;
use qc_run::{Ended, Status};
use std::io::{self, ErrorKind};

/// Standard error as a sink. It tells no bytes.
#[derive(Drop)]
struct Voice<'a, R> {
    rt: &'a R,
    faults: u64,
}

impl<R: Eprint> Sink for Voice<'_, R> {
    ghost view = { λ sink. sink_view None sink.faults };

    fn write(&mut self, piece: &[u8]) -> Result<usize, Failed> {
        let text = std::str::from_utf8(piece).unwrap_or("");
        match self.rt.eprint(text) {
            Ok(()) => Ok(piece.len()),
            Err(_) => Err(fault(&mut self.faults)),
        }
    }
}

/// Says what the system said, where there is memory for it.
fn say_why(page: &mut Page, why: io::Error) {
    if why.kind() == ErrorKind::ResourceBusy {
        page.line()
            .text("it is a file that this call has read or made, and no such file is written over")
            .end()
    } else if let Ok(said) = format!(in page.alloc(); "{why}") {
        page.line()
            .text("the system said: ")
            .text(said.as_str())
            .end()
    }
}

/// Says what couldn't be written, and what the system said.
fn say_unwritten(
    page: &mut Page,
    trouble: Option<(String, io::Error)>,
    printing: Option<io::Error>,
) {
    if let Some(why) = printing {
        page.line()
            .text("the report couldn't be written whole")
            .end();
        return say_why(page, why);
    }
    let Some((name, why)) = trouble else {
        return page
            .line()
            .text("a file or the report couldn't be written")
            .end();
    };
    page.line()
        .word(name.as_str())
        .text(": this file couldn't be made or written")
        .end();
    say_why(page, why)
}

/// Says what is to be mended after a run with these words that came to this, and what is worth a note. It reads files
/// again for what they hold, and changes none. `trouble` is the file whose call failed last with what the system said,
/// `printing` what it said of standard output.
pub fn say_after<R: Eprint + AllocGlobal, S: Shelf>(
    rt: &R,
    words: &[String],
    ended: &Ended,
    shelf: &mut S,
    trouble: Option<(String, io::Error)>,
    printing: Option<io::Error>,
)
    ensures { LeavesFiles (S.Sink.view shelf.old) (S.Sink.view shelf.new) }
{
    let mut voice = Voice { rt, faults: 0 };
    let mut page = Page::new(rt.alloc());
    if ended.status == Status::WriteFault {
        say_unwritten(&mut page, trouble, printing);
    } else {
        explain(rt.alloc(), words, ended, shelf, &mut voice);
        if ended.status == Status::ReadFault
            && let Some((_, why)) = trouble
        {
            say_why(&mut page, why);
        }
    }
    if let Some(lines) = page.lines() {
        let _ = put_all(&mut voice, lines);
    }
}
