// The status of a run that did not read all its texts or did not write its whole text, and the line that says why.
ghost use Rattle.std.specs.Prelude.{◌≡◌};
ghost use Rattle.bt_base.specs.Puts.{Puts};
ghost use Rattle.btest_cli.specs.inner.Failures.{unread_status, unread_line, unput_status, unput_line};
ghost use Rattle.refusal_lines.specs.NamesView.{names_view};

use crate::status::Status;
use crate::texts::Wanted;
use bt_base::{PutFault, Sink};
use commands::Unput;
use refusal_lines::{
    Names, put_batch_fault, put_input_fault, put_log_fault, put_memory, put_not_read,
    put_not_written, put_too_long,
};

/// The reason why the texts of a command were not all read.
#[derive(Drop)]
pub enum Unread<'a> {
    /// This text is longer than its limit.
    TooLong(Wanted<'a>),
    /// Reading this text failed.
    Failed(Wanted<'a>),
    /// There was not enough memory.
    Memory,
}

/// Returns the status of a run that did not read all its texts.
pub fn unread_status(failure: &Unread) -> Status
    ensures { result ≡ unread_status failure.now }
{
    match failure {
        Unread::TooLong(_) => Status::Refused,
        Unread::Failed(_) => Status::ReadFault,
        Unread::Memory => Status::NoMemory,
    }
}

/// Returns the status of a run that did not write its whole text.
pub fn unput_status(failure: &Unput) -> Status
    ensures { result ≡ unput_status failure.now }
{
    match failure {
        Unput::Input(_) | Unput::Log { .. } | Unput::Batch { .. } => Status::Refused,
        Unput::Write => Status::WriteFault,
        Unput::Memory => Status::NoMemory,
    }
}

/// Writes the line that says why the texts were not all read.
pub fn put_unread<N: Sink>(failure: &Unread, notes: &mut N) -> Result<(), PutFault>
    ensures { Puts (N.shown notes.old) (N.shown notes.new) (unread_line failure.now) result }
{
    match failure {
        Unread::TooLong(wanted) => put_too_long(wanted.name, wanted.limit, notes),
        Unread::Failed(wanted) => put_not_read(wanted.name, notes),
        Unread::Memory => put_memory(notes),
    }
}

/// Writes the line that says why a text was not written whole. `names` has the names of the texts that the command read.
pub fn put_unput<N: Sink>(names: Names, failure: &Unput, notes: &mut N) -> Result<(), PutFault>
    ensures { Puts (N.shown notes.old) (N.shown notes.new)
        (unput_line (names_view names.entry) failure.now) result }
{
    match failure {
        Unput::Input(fault) => put_input_fault(names, fault, notes),
        Unput::Log { rows, fault } => put_log_fault(names.log, *rows, fault, notes),
        Unput::Batch { rows, fault } => put_batch_fault(names.log, *rows, fault, notes),
        Unput::Write => put_not_written(notes),
        Unput::Memory => put_memory(notes),
    }
}
