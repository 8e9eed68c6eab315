//! A law about how pieces share items. The law is the contract of a function that does nothing. A
//! caller knows the law after calling the function.
ghost use Rattle.std.specs.Prelude.{◌≡◌, ℕ, ◌+◌, ◌-◌, ◌*◌, ◌<◌, ◌≤◌};
ghost use Rattle.side_by_side.specs.Pieces.{piece_of};

/// Each piece begins where the piece before it ends. The first piece begins with the first item,
/// and the last piece ends with the last item. The numbers of items in any two pieces differ by at
/// most one. Piece `number` begins at item `number * items / pieces`, rounded down. There must be at
/// least one piece.
pub fn pieces_share()
    ensures number { (items pieces number : ℕ) → (piece_of items pieces number).number ≡ number }
    ensures first { (items pieces : ℕ) → (piece_of items pieces 0).first ≡ 0 }
    ensures next { (items pieces number : ℕ)
        → (piece_of items pieces (number + 1)).first ≡ (piece_of items pieces number).end }
    ensures last { (items before : ℕ) → (piece_of items (before + 1) before).end ≡ items }
    ensures least { (items pieces number : ℕ)
        → (piece_of items pieces number).first * pieces ≤ number * items }
    ensures most { (items pieces number : ℕ) → 0 < pieces
        → number * items < ((piece_of items pieces number).first + 1) * pieces }
    ensures even { (items pieces one other : ℕ) → 0 < pieces
        → (piece_of items pieces one).end - (piece_of items pieces one).first
        ≤ (piece_of items pieces other).end - (piece_of items pieces other).first + 1 }
{}
