// The text before the scans, and the text after them.
ghost use Rattle.bt_base.specs.Puts.{Puts};
ghost use Rattle.tap_defs.specs.chain.Text.{head_text, tail_text};

use bt_base::{PutFault, Sink};

/// Writes the statements before the scans. They make TRST* inactive, let each scan end in
/// Run-Test/Idle, reset the chain and go to Run-Test/Idle. The call fails only if the sink fails.
/// The sink has then taken a prefix of the text.
pub fn write_head<K: Sink>(out: &mut K) -> Result<(), PutFault>
    ensures { Puts (K.shown out.old) (K.shown out.new) head_text result }
{
    out.put(b"TRST OFF;\n")?;
    out.put(b"ENDIR IDLE;\n")?;
    out.put(b"ENDDR IDLE;\n")?;
    out.put(b"STATE RESET;\n")?;
    out.put(b"STATE IDLE;\n")
}

/// Writes the statement after the scans, which is a reset. The call fails only if the sink fails.
/// The sink has then taken a prefix of the text.
pub fn write_tail<K: Sink>(out: &mut K) -> Result<(), PutFault>
    ensures { Puts (K.shown out.old) (K.shown out.new) tail_text result }
{
    out.put(b"STATE RESET;\n")
}
