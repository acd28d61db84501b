// Reads one patch file from standard input and writes its report to standard output. A read or a write that fails is told on standard error.
#![tactic(auto)]

ghost use Rattle.std.specs.Prelude.{◌-◌, ◌≤◌, ◌≡◌, length, take, IfOk};

use report::LONGEST_TEXT;
use std::io;
use std::io::{Print, Read};

// Tells on standard error which stream failed, and why. Nobody can be told of a failure to tell.
fn tell(rt: &HostRuntime, stream: &str, error: io::Error) {
    let _ = eprintln!(rt; "girths: {stream}: {error}");
}

// One read after the first done bytes, which stay.
fn read_more(rt: &HostRuntime, buffer: &mut [u8], done: usize) -> io::Result<usize>
    requires { done ≤ length buffer.old }
    ensures gave_at_most { IfOk result (λ n. n ≤ length buffer.old - done) }
    ensures buffer_unchanged { take done buffer.new ≡ take done buffer.old }
{
    rt.stdin().read(&mut buffer[done..])
}

// Reads until the input ends or the buffer is full.
fn read_all(rt: &HostRuntime, buffer: &mut [u8]) -> io::Result<usize>
    ensures { IfOk result (λ n. n ≤ length buffer.old) }
{
    let mut done = 0;
    // Kept: a read gives as many bytes as there are, so that no range says how often it is made.
    while done < buffer.len() {
        let n = read_more(rt, buffer, done)?;
        if n == 0 {
            break;
        }
        done += n;
    }
    Ok(done)
}

// A file's report, written to standard output. A failed write is told.
fn print_report(rt: &HostRuntime, file: &[u8]) {
    let mut text = [0u8; LONGEST_TEXT];
    let Ok(n) = report::report(file, &mut text) else {
        let _ = eprintln!(rt; "girths: the report is too long");
        return;
    };
    if let Err(e) = rt.stdout().write_all(&text[..n]) {
        tell(rt, "standard output", e);
    }
}

// The buffer has one byte more than the longest file, so that a longer one is seen.
fn main(rt: HostRuntime) {
    let mut buffer = [0u8; 65537];
    match read_all(&rt, &mut buffer) {
        Ok(n) => print_report(&rt, &buffer[..n]),
        Err(e) => tell(&rt, "standard input", e),
    }
}
