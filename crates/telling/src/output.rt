// Writing a text, and what became of it.
ghost use Rattle.std.specs.Prelude.{◌≡◌, ◌↔◌, IsTrue, OnOk, IsErr, IsOk};
ghost use Rattle.std.specs.Io.KnownBytes.{Appends};
ghost use Rattle.std.specs.Process.{exit_status};

use std::io::{ErrorKind, Write};
use std::process::ExitCode;

// Why not all of a text was written.
#[derive(Clone, Copy, PartialEq, Eq)]
pub enum Unsent {
    // A write failed, so that some of it may be missing.
    Failed,
    // Nobody reads the pipe any more.
    Unheard,
}

// Nobody reads the program any more: there is nobody left to write to, and it ends at once, without a word (`status_of`).
#[derive(Clone, Copy, PartialEq, Eq)]
pub struct Unheard;

impl From<Unheard> for Unsent {
    ghost use Rattle.telling.specs.declared.output.Unsent.{Unsent};

    ghost from_gives = { λ _ unsent. unsent ≡ Unsent.Unheard };

    fn from(_: Unheard) -> Unsent {
        Unsent::Unheard
    }
}

// Writes all of a text.
pub fn send<W: Write>(to: &mut W, text: &[u8]) -> Result<(), Unsent>
    ensures { OnOk result (Appends (W.contents to.old) (W.contents to.new) text.now) }
{
    to.write_all(text).map_err(|error| match error.kind() {
        ErrorKind::BrokenPipe => Unsent::Unheard,
        _ => Unsent::Failed,
    })
}

// Whether all of it was written.
pub fn is_whole(sent: Result<(), Unsent>) -> bool
    ensures { IsTrue result ↔ IsOk sent }
{
    sent.is_ok()
}

// Whether this is to be told.
pub fn is_failed(sent: Result<(), Unsent>) -> bool
    ensures { IsTrue result ↔ (sent ≡ Err Unsent.Failed) }
{
    matches!(sent, Err(Unsent::Failed))
}

// Whether a program goes on after this.
pub fn is_heard(sent: Result<(), Unsent>) -> bool
    ensures { IsTrue result ↔ (sent ≡ Err Unsent.Unheard → ⊥) }
{
    !matches!(sent, Err(Unsent::Unheard))
}

// A program goes on after a write that failed, and ends where nobody reads it.
pub fn heard(sent: Result<(), Unsent>) -> Result<(), Unheard>
    ensures { IsErr result ↔ (sent ≡ Err Unsent.Unheard) }
{
    match sent {
        Err(Unsent::Unheard) => Err(Unheard),
        _ => Ok(()),
    }
}

// What a program ends with: 0, or 141 where nobody reads it any more, which is what a shell tells of a program that the system's
// signal PIPE ended. std has that signal ignored, so that a write fails in its place.
pub fn status_of(sent: Result<(), Unsent>) -> ExitCode
    ensures unheard { sent ≡ Err Unsent.Unheard → exit_status result ≡ 141 }
    ensures heard { (sent ≡ Err Unsent.Unheard → ⊥) → exit_status result ≡ 0 }
{
    match sent {
        Ok(()) | Err(Unsent::Failed) => ExitCode::from(0),
        Err(Unsent::Unheard) => ExitCode::from(141),
    }
}
