//! Laws of the definition of a log. Each law is the contract of a function that does nothing.
ghost use Rattle.std.specs.Prelude.{◌≡◌, ◌↔◌, ℕ, Bool, List};
ghost use Rattle.response_log.specs.FirstOffense.{FirstOffenseIsTold, OneOffenseOrLog};
ghost use Rattle.response_log.specs.LogRows.{log_rows, IsLogOf};

/// A text gives a log if and only if each line with words is a row and there are as many rows as expected. The log has the bits of
/// these rows. Any other text gives a fault.
pub fn rows_are_the_lines()
    ensures { (text : List ℕ) (rows len : ℕ) (log : List (List Bool))
        → (log_rows text rows len ≡ Ok log) ↔ IsLogOf text rows len log }
{}

/// The fault that is reported for a text is the text's first offense: the fault of the first wrong line, or of missing
/// rows if no line is wrong. A text has exactly one first offense if and only if it is not a log.
pub fn fault_is_the_first_offense()
    ensures told { FirstOffenseIsTold }
    ensures one { OneOffenseOrLog }
{}
