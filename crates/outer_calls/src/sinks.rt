//! Calls of `bt_base` that make a sink over a writer, make a sink in memory, read the bytes that a sink in memory took, and make its puts
//! fail.
ghost use Rattle.std.specs.Prelude.{◌≡◌, [], ◌∷◌, ◌++◌, IfOk, OnOk, OnErr};
ghost use Rattle.bt_base.specs.MemSink.{taken_of, room_of, puts_of, faults_of, failing_of};

use bt_base::{HostSink, MemSink};
use std::alloc::{AllocError, Global};
use std::io::Write;

/// Creates a sink over the writer. Its fault count is 0.
pub fn writer_sink<W: Write>(to: W) -> HostSink<W>
    ensures { result.faults ≡ 0 }
{
    HostSink::over(to)
}

/// Creates an empty sink with room for `room` bytes. No put is chosen to fail.
pub fn sink_with_room(alloc: Global, room: u32) -> Result<MemSink, AllocError>
    ensures empty { IfOk result (λ s. taken_of s ≡ []) }
    ensures room { IfOk result (λ s. room_of s ≡ room) }
    ensures faults { IfOk result (λ s. faults_of s ≡ 0) }
    ensures puts { IfOk result (λ s. puts_of s ≡ 0) }
    ensures failing { IfOk result (λ s. failing_of s ≡ []) }
{
    MemSink::with_room(alloc, room)
}

/// Returns the bytes that the sink took, in order.
pub fn taken_bytes(sink: &MemSink) -> &[u8]
    ensures { result.now ≡ taken_of sink.now }
{
    sink.bytes()
}

/// Makes call number `call` of `put` fail and take at most `taken` bytes. The first call has number 1. Calls that were chosen before still
/// fail, too. If memory runs out, nothing changes.
pub fn fail_put(sink: &mut MemSink, call: u32, taken: u32) -> Result<(), AllocError>
    ensures ok { OnOk result
        (failing_of sink.new ≡ failing_of sink.old ++ record { call = call; taken = taken } ∷ []) }
    ensures err { OnErr result (failing_of sink.new ≡ failing_of sink.old) }
    ensures taken { taken_of sink.new ≡ taken_of sink.old }
    ensures room { room_of sink.new ≡ room_of sink.old }
    ensures puts { puts_of sink.new ≡ puts_of sink.old }
    ensures faults { faults_of sink.new ≡ faults_of sink.old }
{
    sink.fail_at(call, taken)
}
