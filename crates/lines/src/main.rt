// The lines of one spreadsheet file as the report prints them: the file on standard input, its lines on standard output, and on descriptor 3 how the
// run ended.
#![tactic(auto)]

ghost use Rattle.std.specs.Prelude.{◌≡◌, IfOk, vec_len};

use frames::{Ending, Failure, Window};
use rules::Refusal;
use std::alloc::{AllocError, Global};
use std::io::{Read, Write};
use std::process::ExitCode;
use words::WORDS;

// The most bytes of a file here. The call itself has no such limit.
const MOST: usize = 1048576;

// A byte more, which tells a file that is too long.
const BUFFER: usize = MOST + 1;

// A file's lines have at most twice its bytes (file_roundtrip's LinesAreShort).
const ROOM: usize = 2 * MOST;

fn zeros(alloc: Global, n: usize) -> Result<Vec<u8>, AllocError>
    ensures { IfOk result (λ v. n ≡ vec_len v) }
{
    vec![in alloc; 0u8; n]
}

// Words about a refused file, for a person. Where standard error is closed, nobody reads them.
fn explain<E: Write>(errors: &mut E, file: &[u8], record: usize) {
    let mut text = [0u8; WORDS];
    let n = words::explain_record(file, record, &mut text);
    let _ = errors.write_all(&text[..n]);
}

fn put_lines<W: Write, E: Write>(
    out: &mut W,
    errors: &mut E,
    file: &[u8],
    text: &mut [u8],
) -> Result<Ending, Failure> {
    match print_file::lines(file, text) {
        Ok(n) => {
            frames::put_first(out, text, n)?;
            Ok(Ending::Written)
        }
        Err(Refusal::FileRecord(k)) => {
            frames::put_line(out, b"refused 16 ", k as u64)?;
            explain(errors, file, k);
            Ok(Ending::Refused)
        }
        // None comes: there is room for the lines of every file here.
        Err(_) => Err(Failure::Unwritten),
    }
}

fn read<I: Read>(input: &mut I, window: &mut Window) -> Result<(), Failure> {
    window.fill(input)?;
    if MOST < window.unused().len() {
        return Err(Failure::TooLong);
    }
    Ok(())
}

// Where there is no memory for a file and its lines, nothing is told.
fn main(rt: HostRuntime) -> Result<ExitCode, AllocError> {
    let mut buffer = zeros(rt.alloc(), BUFFER)?;
    let mut window = Window::new(&mut buffer);
    let ended = match read(&mut rt.stdin(), &mut window) {
        Ok(()) => {
            let mut text = zeros(rt.alloc(), ROOM)?;
            put_lines(
                &mut rt.stdout(),
                &mut rt.stderr(),
                window.unused(),
                &mut text,
            )
        }
        Err(failure) => Err(failure),
    };
    Ok(frames::end(&rt, ended))
}
