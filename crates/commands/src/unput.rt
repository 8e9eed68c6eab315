// The reasons why a command did not write its whole output.
ghost use Rattle.std.specs.Prelude.{◌≡◌};
ghost use Rattle.bt_base.specs.Puts.{Puts, Shown};
ghost use Rattle.command_line.specs.Words.{Text};
ghost use Rattle.commands.specs.declared.unput.Unput.TheVariants.{Memory};
ghost use Rattle.commands.specs.inner.Unput.{PutsText, unput_batch, unput_log, unput_of};

use batch_diag::BatchFault;
use bt_base::PutFault;
use btest_core::InputFault;
use response_log::LogFault;
use std::alloc::AllocError;

/// The reason why a command did not write its whole output.
#[derive(Drop)]
pub enum Unput {
    /// The first fault of the texts.
    Input(InputFault),
    /// The first fault of a response log. `rows` is the number of rows that the log should have.
    Log { rows: u64, fault: LogFault },
    /// The first fault of a batch of response logs. `rows` is the number of rows that each log should
    /// have.
    Batch { rows: u64, fault: BatchFault },
    /// The sink failed before it took the whole output.
    Write,
    /// There was not enough memory. Nothing was written.
    Memory,
}

impl From<AllocError> for Unput {
    ghost from_gives = { λ _ unput. unput ≡ Memory };

    fn from(_e: AllocError) -> Unput {
        Unput::Memory
    }
}

/// Returns the reason why a command writes nothing if its texts have this fault.
pub fn unput_by(fault: InputFault) -> Unput
    ensures { result ≡ unput_of fault }
{
    match fault {
        InputFault::Memory(_) => Unput::Memory,
        fault => Unput::Input(fault),
    }
}

/// Returns the reason why a command writes nothing if its log has this fault. `rows` is the number of
/// rows that the log should have.
pub fn unput_by_log(rows: u64, fault: LogFault) -> Unput
    ensures { result ≡ unput_log rows fault }
{
    match fault {
        LogFault::Memory(_) => Unput::Memory,
        fault => Unput::Log { rows, fault },
    }
}

/// Returns the reason why a command writes nothing if its batch of logs has this fault. `rows` is the
/// number of rows that each log should have.
pub fn unput_by_batch(rows: u64, fault: BatchFault) -> Unput
    ensures { result ≡ unput_batch rows fault }
{
    match fault {
        BatchFault::Memory(_) => Unput::Memory,
        fault => Unput::Batch { rows, fault },
    }
}

/// Returns the result of a command, given the result of writing its output. If the sink failed, the result is `Unput::Write`.
pub fn answer_by(put: Result<(), PutFault>) -> Result<(), Unput>
    ensures { (text : Text) (old new : Shown) → Puts old new text put
        → PutsText text old new result }
{
    match put {
        Ok(()) => Ok(()),
        Err(_) => Err(Unput::Write),
    }
}
