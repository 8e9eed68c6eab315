// Reads the texts that a command names.
ghost use Rattle.std.specs.Prelude.{map};
ghost use Rattle.command_line.specs.Words.{board_names, chain_names};
ghost use Rattle.btest_cli.specs.Texts.{logs_wanted, text_called, wanted_of};
ghost use Rattle.btest_cli.specs.inner.Reads.{OfBoard, OfChain, OfLog, OfRequest, Reads};

use crate::failure::Unread;
use crate::texts::{read_file, read_log, read_texts};
use bt_base::Store;
use command_line::{
    BoardFiles, BoardNames, ChainFiles, ChainNames, Command, LogFiles, LogNames, NamedCommand,
};
use commands::{BoardTexts, ChainTexts, LogTexts, Request};
use std::alloc::Global;

/// Reads the texts of a command, in the order in which the command names them. Stops at the first text that is not read or is too long.
pub fn read_request<'a, S: Store>(
    alloc: Global,
    command: &NamedCommand<'a>,
    store: &mut S,
) -> Result<Request, Unread<'a>>
    ensures { Reads (OfRequest command.now) (wanted_of command.now) (S.held store.old)
        (S.held store.new) (S.faults store.old) (S.faults store.new) (S.asked store.old)
        (S.asked store.new) result }
{
    match command {
        Command::Chain(names) => read_chain(alloc, names, store).map(Command::Chain),
        Command::Ident(names) => read_chain(alloc, names, store).map(Command::Ident),
        Command::Device(name) => read_file(alloc, name, store).map(Command::Device),
        Command::Cover(names) => read_board(alloc, names, store).map(Command::Cover),
        Command::Svf(names) => read_board(alloc, names, store).map(Command::Svf),
        Command::Walk(names) => read_board(alloc, names, store).map(Command::Walk),
        Command::Make(parts) => Ok(Command::Make(*parts)),
        Command::Diagnose { workers, files } => {
            let workers = *workers;
            read_logs(alloc, files, store).map(|files| Command::Diagnose { workers, files })
        }
        Command::Groups(names) => read_logs(alloc, names, store).map(Command::Groups),
        Command::Batch { workers, files } => {
            let workers = *workers;
            read_logs(alloc, files, store).map(|files| Command::Batch { workers, files })
        }
    }
}

// Reads the texts of a chain.
fn read_chain<'a, S: Store>(
    alloc: Global,
    names: &ChainNames<'a>,
    store: &mut S,
) -> Result<ChainTexts, Unread<'a>>
    ensures { Reads OfChain (map text_called (chain_names names.now)) (S.held store.old)
        (S.held store.new) (S.faults store.old) (S.faults store.new) (S.asked store.old)
        (S.asked store.new) result }
{
    let chain = match read_file(alloc, &names.chain, store) {
        Ok(chain) => chain,
        Err(failure) => return Err(failure),
    };
    match read_texts(alloc, &names.bsdl, store) {
        Ok(bsdl) => Ok(ChainFiles { chain, bsdl }),
        Err(failure) => Err(failure),
    }
}

// Reads the texts of a board.
fn read_board<'a, S: Store>(
    alloc: Global,
    names: &BoardNames<'a>,
    store: &mut S,
) -> Result<BoardTexts, Unread<'a>>
    ensures { Reads OfBoard (map text_called (board_names names.now)) (S.held store.old)
        (S.held store.new) (S.faults store.old) (S.faults store.new) (S.asked store.old)
        (S.asked store.new) result }
{
    let chain = match read_file(alloc, &names.chain, store) {
        Ok(chain) => chain,
        Err(failure) => return Err(failure),
    };
    let nets = match read_file(alloc, &names.nets, store) {
        Ok(nets) => nets,
        Err(failure) => return Err(failure),
    };
    match read_texts(alloc, &names.bsdl, store) {
        Ok(bsdl) => Ok(BoardFiles { chain, nets, bsdl }),
        Err(failure) => Err(failure),
    }
}

// Reads a log or a batch of logs, and then the texts of its board.
fn read_logs<'a, S: Store>(
    alloc: Global,
    names: &LogNames<'a>,
    store: &mut S,
) -> Result<LogTexts, Unread<'a>>
    ensures { Reads OfLog (logs_wanted names.now) (S.held store.old) (S.held store.new)
        (S.faults store.old) (S.faults store.new) (S.asked store.old) (S.asked store.new) result }
{
    let log = match read_log(alloc, &names.log, store) {
        Ok(log) => log,
        Err(failure) => return Err(failure),
    };
    match read_board(alloc, &names.board, store) {
        Ok(board) => Ok(LogFiles { log, board }),
        Err(failure) => Err(failure),
    }
}
