//! Calls of laws of `counting_codes` and `side_by_side`, about the codes of nets and the pieces into which work is cut.
ghost use Rattle.std.specs.Prelude.{◌≡◌, ◌≢◌, ◌+◌, ◌^◌, ◌<◌, ◌≤◌, ◌-◌, ◌*◌, ℕ};
ghost use Rattle.std.specs.Int.{bit_at};
ghost use Rattle.side_by_side.specs.Pieces.{piece_of};

/// States that each code from 1 to `n` has a 0 bit and a 1 bit below bit `width`, and that any two of these codes differ in such a bit.
/// `2 ^ width` must be at least `n + 2`.
pub fn codes_tell()
    ensures zero { (n width : ℕ) → n + 2 ≤ 2 ^ width → (c : ℕ) → 1 ≤ c → c ≤ n
        → (j : ℕ) × (j < width) × (bit_at c j ≡ 0) }
    ensures one { (n width : ℕ) → n + 2 ≤ 2 ^ width → (c : ℕ) → 1 ≤ c → c ≤ n
        → (j : ℕ) × (j < width) × (bit_at c j ≡ 1) }
    ensures differ { (n width : ℕ) → n + 2 ≤ 2 ^ width → (c d : ℕ) → 1 ≤ c → c ≤ n → 1 ≤ d → d ≤ n
        → c ≢ d → (j : ℕ) × (j < width) × (bit_at c j ≢ bit_at d j) }
{
    counting_codes::law::codes_tell();
}

/// States that the pieces cover the items in order, and that the numbers of items in any two pieces differ by at most one. Piece `number`
/// begins at item `number * items / pieces`, rounded down.
pub fn pieces_share()
    ensures number { (items pieces number : ℕ) → (piece_of items pieces number).number ≡ number }
    ensures first { (items pieces : ℕ) → (piece_of items pieces 0).first ≡ 0 }
    ensures next { (items pieces number : ℕ)
        → (piece_of items pieces (number + 1)).first ≡ (piece_of items pieces number).end }
    ensures last { (items before : ℕ) → (piece_of items (before + 1) before).end ≡ items }
    ensures least { (items pieces number : ℕ)
        → (piece_of items pieces number).first * pieces ≤ number * items }
    ensures most { (items pieces number : ℕ) → 0 < pieces
        → number * items < ((piece_of items pieces number).first + 1) * pieces }
    ensures even { (items pieces one other : ℕ) → 0 < pieces
        → (piece_of items pieces one).end - (piece_of items pieces one).first
        ≤ (piece_of items pieces other).end - (piece_of items pieces other).first + 1 }
{
    side_by_side::law::pieces_share();
}
