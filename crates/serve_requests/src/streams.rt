// The texts of an answer that streams the notices of a day: its head, and its closing lines.
ghost use Rattle.std.specs.Prelude.{◌≡◌, string_bytes, IfOk};
ghost use Rattle.serve_requests.specs.Streams as streams;

use road_time::NoMemory;
use std::alloc::Global;
use tuples_text::Cause;

/// The head of an answer that streams, which takes no memory. Its body ends with the connection.
pub fn stream_head() -> &'static [u8]
    ensures { result.now ≡ streams.stream_head }
{
    b"HTTP/1.1 200 OK\r\nContent-Type: text/plain\r\nConnection: close\r\n\r\n"
}

/// The closing line of a day that was answered to its end.
pub fn answered_line(alloc: Global, day: u32, tuples: u64, notices: u64) -> Result<String, NoMemory>
    ensures { IfOk result (λ s. string_bytes s ≡ streams.answered_line day tuples notices) }
{
    let line = format!(in alloc; "# answered day {day} tuples {tuples} notices {notices}\n")?;
    Ok(line)
}

/// The closing line of a day with a line that is refused.
pub fn refused_line(alloc: Global, line: u64, cause: Cause) -> Result<String, NoMemory>
    ensures { IfOk result (λ s. string_bytes s ≡ streams.refused_line line cause) }
{
    let line = format!(in alloc; "# refused line {line} {cause}\n")?;
    Ok(line)
}

/// The closing line of a day whose body was cut, or failed.
pub fn read_fault_line(alloc: Global) -> Result<String, NoMemory>
    ensures { IfOk result (λ s. string_bytes s ≡ streams.read_fault_line) }
{
    let line = format!(in alloc; "# read fault\n")?;
    Ok(line)
}

/// The closing line where the keeper failed.
pub fn keeper_fault_line(alloc: Global) -> Result<String, NoMemory>
    ensures { IfOk result (λ s. string_bytes s ≡ streams.keeper_fault_line) }
{
    let line = format!(in alloc; "# keeper fault\n")?;
    Ok(line)
}

/// The closing line where memory ran out, which takes none.
pub fn memory_line() -> &'static [u8]
    ensures { result.now ≡ streams.memory_line }
{
    b"# no memory\n"
}
