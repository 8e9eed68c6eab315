// The pieces of a list of items, and the joining of their answers. The answer for a piece is the list or the
// fault that the work on the piece returns.
ghost use Rattle.std.specs.Prelude.{◌≡◌, ◌⊎◌, ◌<◌, ◌≤◌, Ok, Err, MatchResult, alloc_error};
ghost use Rattle.side_by_side.specs.Pieces.{GivesTogether, piece_of, piece_start, together};

use std::alloc::{AllocError, Global};
use std::thread::{Threads, map_indices};

/// A piece of a list of items: the number of the piece, and its items `first..end`. The pieces and the items are numbered from 0.
#[derive(Clone, Copy)]
pub struct Piece {
    pub number: u32,
    pub first: u64,
    pub end: u64,
}

// Returns the number of the first item of piece `number`, which must be at most `pieces`. If it is
// equal to `pieces`, returns the number of items. `pieces` must not be 0.
fn piece_start(items: u64, pieces: u32, number: u32) -> u64
    requires some { 0 < pieces }
    requires number { number ≤ pieces }
    ensures value { result ≡ piece_start items pieces number }
    ensures within { result ≤ items }
{
    let sum = u128::from(number) * u128::from(items);
    (sum / u128::from(pieces)) as u64
}

// Returns the piece with this number, which must be less than `pieces`.
fn piece_of(items: u64, pieces: u32, number: u32) -> Piece
    requires { number < pieces }
    ensures piece { result ≡ piece_of items pieces number }
    ensures order { result.first ≤ result.end }
    ensures within { result.end ≤ items }
{
    Piece {
        number,
        first: piece_start(items, pieces, number),
        end: piece_start(items, pieces, number + 1),
    }
}

// Joins the lists of the answers in order. Returns the first fault if some answer is a fault, or
// the fault for a lack of memory if memory runs out.
fn together<T: Drop, E: From<AllocError> + Drop>(
    alloc: Global,
    answers: Vec<Result<Vec<T>, E>>,
) -> Result<Vec<T>, E>
    ensures { MatchResult result (λ all. together (λ v. v.items) answers.items ≡ Ok all.items)
        (λ fault. E.from_gives alloc_error fault
        ⊎ (together (λ v. v.items) answers.items ≡ Err fault)) }
{
    let mut all = Vec::new(alloc);
    for answer in answers {
        match answer {
            Ok(mut items) => all.append(&mut items)?,
            Err(fault) => return Err(fault),
        }
    }
    Ok(all)
}

/// Cuts the items into `pieces` pieces, does the work on each piece, and joins the resulting lists
/// in order. Returns the fault of the first piece that has a fault. If memory for running
/// the pieces or for joining their lists runs out, the call may return the fault for a lack of memory
/// instead. `pieces` must not be 0, and the precondition of `work` must hold for each piece.
///
/// The numbers of items in any two pieces differ by at most one. The pieces run side by side. If
/// there is only one piece, its list is returned unchanged and needs no more memory.
pub fn in_pieces<
    R: Threads + Sync,
    T: Send + Drop,
    E: From<AllocError> + Send + Drop,
    F: Fn(Piece) -> Result<Vec<T>, E> + Sync,
>(rt: &R, alloc: Global, items: u64, pieces: u32, work: &F) -> Result<Vec<T>, E>
    requires some { 0 < pieces }
    requires work { (piece : Piece) → piece.number < pieces → piece.first ≤ piece.end
        → piece.end ≤ items → F.pre work.now piece }
    ensures { GivesTogether (λ v. v.items) (F.post work.now) (E.from_gives alloc_error) items pieces
        result }
{
    if pieces == 1 {
        return work(piece_of(items, 1, 0));
    }
    let answer_of = move |number: usize| -> Result<Vec<T>, E>
        requires { (number < pieces)
            × ((piece : Piece) → piece.number < pieces → piece.first ≤ piece.end
            → piece.end ≤ items → F.pre work.now piece) }
        ensures { F.post work.entry.now (piece_of items pieces number) result }
    { work(piece_of(items, pieces, number as u32)) };
    let answers = map_indices(rt, alloc, pieces as usize, &answer_of)?;
    together(alloc, answers)
}
