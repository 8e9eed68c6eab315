// The function that runs a command line.
ghost use Rattle.std.specs.Prelude.{◌≡◌, ◌≢◌, ◌⊎◌, map, None, string_bytes};
ghost use Rattle.bt_base.specs.Counts.{Rose};
ghost use Rattle.command_line.specs.Words.{command_of, names_in_command};
ghost use Rattle.btest_cli.specs.inner.RunOf.{IsRunOf};
ghost use Rattle.refusal_lines.specs.NamesView.{names_view};
ghost use Rattle.refusal_lines.specs.Refusals.{Names as Roles, usage_line, write_line, memory_line};
ghost use Rattle.btest_cli.specs.Refusals.{board_roles, roles_of};
ghost use Rattle.btest_cli.specs.Outcome.{AsksSome, ForCommand, IsComplete, IsCutShort, IsDone, IsNotRead, IsRefused, SomeRose, TookOrCut};
ghost use Rattle.btest_cli.specs.inner.Failures.{IsAnswered};

use crate::failure::{put_unput, put_unread, unput_status, unread_status};
use crate::requests::read_request;
use crate::status::Status;
use bt_base::{Gate, Sink, Store};
use btest_core::law::{inputs_have_one_answer, inputs_keep_rules};
use command_line::{BoardNames, Command, NamedCommand, command_of};
use commands::{
    Request, Unput, batch, chain, cover, device, diagnosis, groups, ident, summary, svf, walk,
};
use fault_sim::law::logs_have_one_diagnosis;
use refusal_lines::{Names, TextNames, put_memory, put_usage};
use std::alloc::Global;
use std::thread::Threads;
use walk_test::law::logs_have_one_set;

/// Runs a command line: reads its words, fetches the texts that they name from `store`, checks these texts, and writes the text that they
/// give to `out`. At every status but `Done`, writes one line to `notes`. If `notes` fails, it takes only a prefix of this line.
pub fn run<R: Threads + Sync, S: Store, K: Sink, N: Sink, G: Gate>(
    rt: &R,
    alloc: Global,
    words: &[String],
    store: &mut S,
    out: &mut K,
    notes: &mut N,
    gate: &G,
) -> Status
    // Usage: the words are not in the grammar. Such words always give Usage unless memory runs out, and `run` fetches no text for them.
    ensures usage { result ≡ Status.Usage → command_of (map string_bytes words.now) ≡ None }
    ensures words { command_of (map string_bytes words.now) ≡ None
        → (result ≡ Status.Usage) ⊎ (result ≡ Status.NoMemory) }
    ensures not_fetched { command_of (map string_bytes words.now) ≡ None → store.new ≡ store.old }
    ensures usage_noted { result ≡ Status.Usage
        → TookOrCut (N.shown notes.old) (N.shown notes.new) usage_line }

    // Done: `run` asked for each text once and read it. `out` took exactly the text that these
    // texts give. This text has the property that the command promises (`IsWorthFor`): the text of
    // `svf`, for example, is a test of the board. `notes` took nothing.
    ensures done { result ≡ Status.Done
        → ForCommand words.now
        (λ c. IsDone (S.held store.old) c (S.asked store.old) (S.asked store.new)
        (K.shown out.old) (K.shown out.new)) }
    ensures silent { result ≡ Status.Done → N.shown notes.new ≡ N.shown notes.old }

    // Refused: the texts that `run` read have a first fault, or one of them is too long. `notes` took the
    // line for this. `run` asked for no text after a text that is too long.
    ensures refused { result ≡ Status.Refused
        → ForCommand words.now
        (λ c. IsRefused (S.held store.old) c (S.asked store.old) (S.asked store.new)
        (N.shown notes.old) (N.shown notes.new)) }

    // ReadFault: a text could not be read, and the fault count of its name rose. `run` read all texts before this text, and asked for no
    // later text. `notes` took the line for this text.
    ensures read { result ≡ Status.ReadFault
        → ForCommand words.now
        (λ c. IsNotRead (S.held store.old) c (S.faults store.old) (S.faults store.new)
        (S.asked store.old) (S.asked store.new) (N.shown notes.old) (N.shown notes.new)) }

    // WriteFault: the fault count of `out` rose, and `out` took a prefix of the text.
    // `notes` took the line for a failed write.
    ensures write { result ≡ Status.WriteFault
        → Rose (K.shown out.old).faults (K.shown out.new).faults }
    ensures cut { result ≡ Status.WriteFault
        → ForCommand words.now
        (λ c. IsCutShort (S.held store.old) c (S.asked store.old) (S.asked store.new)
        (K.shown out.old) (K.shown out.new)) }
    ensures write_noted { result ≡ Status.WriteFault
        → TookOrCut (N.shown notes.old) (N.shown notes.new) write_line }

    // At every status but Done and WriteFault, `run` wrote nothing to `out`.
    ensures untouched { result ≢ Status.Done → result ≢ Status.WriteFault
        → K.shown out.new ≡ K.shown out.old }

    // NoMemory: memory ran out, and `notes` took the line for this. If the words form a command,
    // `run` asked for the first `count` texts of the command, for some `count`, each once and in
    // order, and for no others.
    ensures memory_noted { result ≡ Status.NoMemory
        → TookOrCut (N.shown notes.old) (N.shown notes.new) memory_line }
    ensures memory_asks { result ≡ Status.NoMemory
        → ForCommand words.now (λ c. AsksSome c (S.asked store.old) (S.asked store.new)) }

    // If the texts that the store holds are known and no fault count rose, these texts determine the status, unless memory ran out. For a
    // command that reads no text, this is true of every store.
    ensures complete { ForCommand words.now (λ c. IsComplete (S.held store.old) c
        (SomeRose (S.faults store.old) (S.faults store.new) (names_in_command c)) (Rose (K.shown out.old).faults (K.shown out.new).faults) result) }
{
    inputs_have_one_answer();
    inputs_keep_rules();
    logs_have_one_diagnosis();
    logs_have_one_set();
    match command_of(alloc, words) {
        Err(_) => {
            let _ = put_memory(notes);
            Status::NoMemory
        }
        Ok(None) => {
            let _ = put_usage(notes);
            Status::Usage
        }
        Ok(Some(command)) => run_command(rt, alloc, &command, store, out, notes, gate),
    }
}

// Reads the texts of a command and writes the command's text to `out`. If this fails, writes the line that says why to `notes`.
fn run_command<R: Threads + Sync, S: Store, K: Sink, N: Sink, G: Gate>(
    rt: &R,
    alloc: Global,
    command: &NamedCommand,
    store: &mut S,
    out: &mut K,
    notes: &mut N,
    gate: &G,
) -> Status
    ensures { IsRunOf command.now (S.held store.old) (S.faults store.old) (S.faults store.new) (S.asked store.old) (S.asked store.new)
        (K.shown out.old) (K.shown out.new) (N.shown notes.old) (N.shown notes.new) result }
{
    let request = match read_request(alloc, command, store) {
        Ok(request) => request,
        Err(failure) => {
            let _ = put_unread(&failure, notes);
            return unread_status(&failure);
        }
    };
    match answer(rt, alloc, request, gate, out) {
        Ok(()) => Status::Done,
        Err(failure) => {
            let _ = put_unput(roles_of(command), &failure, notes);
            unput_status(&failure)
        }
    }
}

// Returns the names of the texts of a command, each name in the field for its kind of text. `make` reads no texts, so the texts that it
// generates get fixed names.
fn roles_of<'n, 'a>(command: &'n NamedCommand<'a>) -> Names<'n, 'a>
    ensures { names_view result ≡ roles_of command.now }
{
    match command {
        Command::Chain(names) | Command::Ident(names) => Names {
            log: "",
            chain: names.chain.as_str(),
            nets: "",
            bsdl: TextNames::Several(names.bsdl.as_slice()),
        },
        Command::Device(name) => Names {
            log: "",
            chain: "",
            nets: "",
            bsdl: TextNames::One(name.as_str()),
        },
        Command::Cover(names) | Command::Svf(names) | Command::Walk(names) => {
            board_roles("", names)
        }
        Command::Make(_) => Names {
            log: "",
            chain: "chain",
            nets: "nets",
            bsdl: TextNames::One("bsdl"),
        },
        Command::Diagnose { files, .. } | Command::Groups(files) | Command::Batch { files, .. } => {
            board_roles(files.log.as_str(), &files.board)
        }
    }
}

// Returns the names of the texts of a command that works on a board. `log` is empty if the command reads no log.
fn board_roles<'n, 'a>(log: &'a str, names: &'n BoardNames<'a>) -> Names<'n, 'a>
    ensures { names_view result ≡ board_roles log.entry.now names.now }
{
    Names {
        log,
        chain: names.chain.as_str(),
        nets: names.nets.as_str(),
        bsdl: TextNames::Several(names.bsdl.as_slice()),
    }
}

// Writes the text that a request gives, or returns the reason why it was not written whole. The contract holds whatever names the texts
// have.
fn answer<R: Threads + Sync, K: Sink, G: Gate>(
    rt: &R,
    alloc: Global,
    request: Request,
    gate: &G,
    out: &mut K,
) -> Result<(), Unput>
    ensures { (names : Roles)
        → IsAnswered names request (K.shown out.old) (K.shown out.new) result }
{
    match request {
        Command::Chain(texts) => chain(alloc, &texts, out),
        Command::Ident(texts) => ident(alloc, &texts, out),
        Command::Device(bsdl) => device(alloc, &bsdl, out),
        Command::Cover(texts) => cover(alloc, &texts, out),
        Command::Svf(texts) => svf(alloc, &texts, out),
        Command::Walk(texts) => walk(alloc, &texts, out),
        Command::Make(parts) => summary(alloc, parts, out),
        Command::Diagnose { workers, files } => diagnosis(rt, alloc, files, workers, gate, out),
        Command::Groups(texts) => groups(alloc, texts, out),
        Command::Batch { workers, files } => batch(rt, alloc, files, workers, gate, out),
    }
}
