//! Calls of `lists`, `short_lists`, `side_by_side`, `command_line` and `response_log` that read lists, texts, numbers and logs.
ghost use Rattle.std.specs.Prelude.{◌≡◌, ◌==◌, ◌^◌, ◌<◌, ◌≤◌, length, All};
ghost use Rattle.command_line.specs.Limits.{most_made};
ghost use Rattle.side_by_side.specs.Workers.{most_workers};

use command_line::PartCount;
use lists::Items;
use response_log::Log;
use short_lists::ShortText;
use side_by_side::Workers;

/// Returns whether the list is empty.
pub fn is_list_empty<T>(list: &Items<T>) -> bool
    ensures { result ≡ (length list.now == 0) }
{
    list.is_empty()
}

/// Consumes the text and returns its bytes, of which there are fewer than 2^32.
pub fn text_bytes(text: ShortText) -> Vec<u8>
    ensures bytes { result.items ≡ text }
    ensures short { length result.items < 2 ^ 32 }
{
    text.into_bytes()
}

/// Returns the number of workers, from 1 to 64.
pub fn worker_count(workers: Workers) -> u32
    ensures value { result ≡ workers }
    ensures some { 1 ≤ result }
    ensures few { result ≤ most_workers }
{
    workers.number()
}

/// Returns the number of parts of a generated board, from 1 to 255.
pub fn part_count(count: PartCount) -> u32
    ensures value { result ≡ count }
    ensures some { 1 ≤ result }
    ensures few { result ≤ most_made }
{
    count.number()
}

/// Returns the number of bits of each row of the log.
pub fn log_width(log: &Log) -> u32
    ensures { All (λ bits. length bits ≡ result) log.now }
{
    log.len()
}
