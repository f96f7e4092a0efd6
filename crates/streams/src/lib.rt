// What the programs share of reading and writing: a stream read up to a limit, and how a program ends whose output was closed.
#![tactic(auto)]

ghost use Rattle.std.specs.Prelude.{◌≡◌, ◌≢◌, ◌≤◌, length, take, Err, IfErr, IfOk, IsOk, OnOk};
ghost use Rattle.std.specs.IoError.{error_kind};
ghost use Rattle.std.specs.Io.KnownBytes.{Consumes};
ghost use Rattle.std.specs.Process.{exit_status};

use std::io;
use std::io::{ErrorKind, Read};
use std::process::ExitCode;

// The status of a program that wrote to a closed pipe: a shell says it of one that SIGPIPE ended.
pub const CLOSED: u8 = 141;

// Reads until buf is full, the input ends or a read fails, and returns how many bytes it put at the start of buf. On an empty buf it
// makes no call.
pub fn read_full<R: Read>(input: &mut R, buf: &mut [u8]) -> usize
    ensures bound { result ≤ length buf.new }
    ensures bytes { Consumes (R.remaining input.old) (R.remaining input.new) (take result buf.new) }
{
    let mut done = 0;
    while done < buf.len() {
        match input.read(&mut buf[done..]) {
            Ok(0) => return done,
            Ok(n) => done += n,
            Err(_) => return done,
        }
    }
    done
}

// What main returns for what was read and written: an error ends the program with 1 and a line on standard error, but for a closed pipe,
// after which nothing is said.
pub fn ended(done: io::Result<()>) -> io::Result<ExitCode>
    ensures ok { OnOk done (IsOk result) }
    ensures status { OnOk done (IfOk result (λ code. exit_status code ≡ 0)) }
    ensures closed { IfErr done (λ e. error_kind e ≡ ErrorKind.BrokenPipe → IsOk result × IfOk result (λ code. exit_status code ≡ 141)) }
    ensures err { IfErr done (λ e. error_kind e ≢ ErrorKind.BrokenPipe → result ≡ Err e) }
{
    match done {
        Ok(()) => Ok(ExitCode::SUCCESS),
        Err(e) if e.kind() == ErrorKind::BrokenPipe => Ok(ExitCode::from(CLOSED)),
        Err(e) => Err(e),
    }
}
