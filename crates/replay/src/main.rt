// Replays a run file from standard input, and writes its listing to standard output. What cannot be read or written is told
// in one line on standard error, and the exit status is 0 all the same. Where nobody reads the listing any more it is 141, and
// nothing is told, as of a program that the signal for that ends.

#![tactic(auto)]

ghost use Rattle.std.specs.Prelude.{◌≡◌, ◌*◌, ◌<◌, ◌≤◌, length, take, IfOk, OnOk, IfSome, IsErrOf};
ghost use Rattle.std.specs.Io.KnownBytes.{Consumes, IsAtEnd, Appends, Keeps};
ghost use Rattle.model.specs.Call.{hl3};
ghost use Rattle.model.specs.Listing.{listing};
ghost use Rattle.listing.specs.Lines.{max_line};

use std::io;
use std::io::{ErrorKind, Read, Write};
use std::process::ExitCode;

// What can fail: the input, the output, or the output since nobody reads it any more.
#[derive(Clone, Copy)]
enum Failure {
    Reading,
    Writing,
    Closed,
}

// 128, and the number of the signal for a pipe that nobody reads.
const CLOSED: u8 = 141;

// The listing of a file stands at the text's start: 4,096 lines of at most 85 bytes are always enough.
fn replay(file: &[u8], text: &mut [u8]) -> usize
    requires { max_line * 4096 ≤ length text.old }
    ensures { (result ≤ length text.new) × (take result text.new ≡ listing hl3 file.now) }
{
    let mut hall = [0u8; replaying::HALL];
    replaying::list_run(file, &mut hall, text).unwrap_or(0)
}

// Reads to the start of a slice, until it is full or the input has ended. Gives how many bytes were read.
// A `while` stays: `read_exact` takes a short input for an error, and `read_to_end` needs a heap.
fn read_full<R: Read>(input: &mut R, file: &mut [u8]) -> io::Result<usize>
    ensures fits { IfOk result (λ n. n ≤ length file.new) }
    ensures read { IfOk result (λ n. Consumes (R.remaining input.old) (R.remaining input.new) (take n file.new)) }
    ensures whole { IfOk result (λ n. n < length file.new → IsAtEnd (R.remaining input.new)) }
{
    let mut done = 0;
    while done < file.len() {
        let n = input.read(&mut file[done..])?;
        if n == 0 {
            break;
        }
        done += n;
    }
    Ok(done)
}

// Lists a file that was read whole.
fn list<W: Write>(output: &mut W, file: &[u8]) -> io::Result<()>
    ensures { OnOk result (Appends (W.contents output.old) (W.contents output.new) (listing hl3 file.now)) }
{
    let mut text = [0u8; 348160];
    let len = replay(file, &mut text);
    output.write_all(&text[..len])
}

// Lists the run file that an input has, however long it is. "A file has at most 65,536 bytes": one byte more is read, so that a
// longer one is seen to be longer. Nothing is listed of a file that could not be read whole.
fn run<R: Read, W: Write>(input: &mut R, output: &mut W) -> Result<(), Failure>
    ensures lists { OnOk result (IfSome (R.remaining input.old)
        (λ bytes. Appends (W.contents output.old) (W.contents output.new) (listing hl3 bytes))) }
    ensures unread { IsErrOf result Failure.Reading → Keeps (W.contents output.old) (W.contents output.new) }
{
    let mut file = [0u8; 65537];
    let Ok(n) = read_full(input, &mut file) else {
        return Err(Failure::Reading);
    };
    match list(output, &file[..n]) {
        Ok(()) => Ok(()),
        Err(e) if e.kind() == ErrorKind::BrokenPipe => Err(Failure::Closed),
        Err(_) => Err(Failure::Writing),
    }
}

fn tell(rt: &impl Eprint, what: &str) {
    let _ = eprintln!(rt; "replay: {what}");
}

fn main(rt: HostRuntime) -> ExitCode {
    match run(&mut rt.stdin(), &mut rt.stdout()) {
        Ok(()) => {}
        Err(Failure::Reading) => tell(&rt, "the run file cannot be read"),
        Err(Failure::Writing) => tell(&rt, "the listing cannot be written"),
        Err(Failure::Closed) => return ExitCode::from(CLOSED),
    }
    ExitCode::SUCCESS
}
