//! The program: a run over the files of the system and standard output.
#![tactic(auto)]

ghost use Rattle.std.specs.Prelude.{◌≡◌, ◌⊎◌, IfOk};
ghost use Rattle.qc_run.specs.declared.status.Status.TheVariants as status;
ghost use Rattle.qc_words.specs.Words.{texts};
ghost use Rattle.qc_top.specs.Account.{IsRun};
ghost use Rattle.qc_cli.specs.Edge.{IsEndOf, behind_quiet};

use qc_io::{Shelf, Sink, WriteFault};
use qc_num::OutOfMemory;
use qc_progress::Progress;
use qc_system::{FileShelf, Lines, Output, words_of};
use qc_top::{Ended, Status, run};
use qc_voice::say_after;
use std::io::IsTerminal;
use std::os::fd::AsFd;
use std::process::ExitCode;
use std::rt::{Env, Files};
use std::{fs, io};

/// The exit status where who reads standard output has closed it: as a shell tells of a tool that ends by the signal, of
/// number 13, which the system raises then. The runtime holds that back, and raises none itself.
const CLOSED_PIPE: u8 = 128 + 13;

/// The root folder, opened for reading as often as there are standard descriptors. Those that are
/// closed are taken by it, so that no file that is opened later is standard output.
fn standard_descriptors_held<R: Files>(rt: &R) -> io::Result<[R::File; 3]> {
    Ok([fs::open(rt, "/")?, fs::open(rt, "/")?, fs::open(rt, "/")?])
}

/// The words of the command line. Words that aren't text are no command.
fn words_or_none<R: Env + AllocGlobal>(rt: &R) -> Result<Vec<String>, OutOfMemory> {
    match words_of(rt) {
        Ok(words) => Ok(words),
        Err(error) if error.kind() == io::ErrorKind::OutOfMemory => Err(OutOfMemory),
        Err(_) => Ok(Vec::new(rt.alloc())),
    }
}

/// The words behind `-q`, and whether it stands first.
fn behind_quiet(words: &[String]) -> (bool, &[String])
    ensures { texts result.1.now ≡ behind_quiet (texts words.now) }
{
    let Some((first, rest)) = words.split_first() else {
        return (false, words);
    };
    if first.as_str() == "-q" {
        (true, rest)
    } else {
        (false, words)
    }
}

/// What a run over a shelf came to, and the shelf. Where it is to be shown, it is said how far the search has come.
fn run_over<S: Shelf, K: Sink, R: Eprint + AllocGlobal>(
    rt: &R,
    words: &[String],
    shelf: S,
    is_shown: bool,
    out: &mut K,
) -> (Ended, S)
    ensures { IsRun (texts words.now) (S.Sink.view shelf) (S.Sink.view result.1)
        (K.Sink.view out.old) (K.Sink.view out.new) result.0.status }
{
    let mut told = Progress::new(shelf, rt, is_shown);
    let ended = run(rt.alloc(), words, &mut told, out);
    (ended, told.into_shelf())
}

/// Whether who reads standard output has closed it, by what the system said of it.
fn is_closed(printing: Option<io::Error>) -> bool {
    match printing {
        Some(why) => why.kind() == io::ErrorKind::BrokenPipe,
        None => false,
    }
}

/// The status of a run once what is held of its report is written out: that of a failed write where it can't be.
fn once_written<K: Sink + Drop>(out: &mut Lines<K>, ended: Status) -> Status
    ensures { (result ≡ ended) ⊎ (result ≡ status.WriteFault) }
{
    match out.flush() {
        Ok(()) => ended,
        Err(WriteFault) => Status::WriteFault,
    }
}

/// The status of a run with these words over the files of the system and standard output, and whether who reads that has
/// closed it. What is to be mended is said on standard error, unless `-q` stands first or nobody reads the report to its
/// end, and where that is a terminal, how far the search has come.
fn status_of<R: Files + Print + Eprint + AllocGlobal>(
    rt: &R,
    words: &[String],
    is_terminal: bool,
) -> Result<(Status, bool), OutOfMemory>
where
    R::File: AsFd,
    ensures { IfOk result (λ ended. IsEndOf (behind_quiet (texts words.now)) ended.0) }
{
    let (is_quiet, words) = behind_quiet(words);
    let mut out = Lines::new(rt.alloc(), Output::new(io::writer(rt)))?;
    let is_shown = is_terminal && !is_quiet;
    let (mut ended, mut shelf) = run_over(rt, words, FileShelf::new(rt), is_shown, &mut out);
    ended.status = once_written(&mut out, ended.status);
    let status = ended.status;
    let printing = out.to().why();
    let is_closed = is_closed(printing);
    if !is_quiet && !is_closed {
        let trouble = shelf.trouble();
        shelf.read_again();
        say_after(rt, words, &ended, &mut shelf, trouble, printing);
    }
    drop(shelf);
    drop(out);
    Ok((status, is_closed))
}

/// Runs the program. The status of the run is the program's own, but where who reads standard output has closed it.
fn main(rt: HostRuntime) -> ExitCode {
    let Ok(_held) = standard_descriptors_held(&rt) else {
        return ExitCode::from(Status::WriteFault.code());
    };
    let is_terminal = rt.stderr().is_terminal();
    let ended = words_or_none(&rt).and_then(|words| status_of(&rt, words.as_slice(), is_terminal));
    let (status, is_closed) = ended.unwrap_or((Status::OutOfMemory, false));
    ExitCode::from(if is_closed {
        CLOSED_PIPE
    } else {
        status.code()
    })
}
