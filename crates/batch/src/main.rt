// Many hours in one run: for each frame on standard input, a line `deck N` or `deck N NAME` and its N bytes, a line `report M` or `report M NAME` and
// the M bytes of its report on standard output, as soon as the frame is there; for one with `spreadsheet` in its head the same with `spreadsheet` and
// the deck's spreadsheet file, unless it is refused. A frame that is not of its form ends the run with a line `frame` and its number from 1. On
// descriptor 3 goes how the run ended, and on 4, where somebody watches, how many decks are done.
#![tactic(auto)]

ghost use Rattle.std.specs.Prelude.{◌++◌};
ghost use Rattle.std.specs.Fmt.{decimal};

use desk::Asker;
use frames::{Asked, Ending, Failure, Frame, NoFrame, Window};
use std::io::{Read, Write};
use std::process::ExitCode;
use std::rt::Files;
use words::WORDS;

// Who sent frame k: the answer stands after a head with the rest of the frame's own, words after a line with its number and that rest.
#[derive(Drop)]
struct Sender<'a, 'f, W, E> {
    out: &'a mut W,
    errors: &'a mut E,
    k: u64,
    rest: &'f [u8],
}

impl<W: Write, E: Write> Asker for Sender<'_, '_, W, E> {
    ghost sent = { λ s. W.contents s.out.now };

    ghost head = { λ s word n. word ++ (decimal n ++ s.rest.now) };

    fn put(&mut self, word: &[u8], text: &[u8], n: usize) -> Result<(), Failure> {
        frames::put_answer(self.out, word, self.rest, text, n)
    }

    fn explain(&mut self, text: &[u8]) {
        let _ = frames::put_number(self.errors, b"frame ", self.k, self.rest);
        let _ = self.errors.write_all(text);
    }
}

// The answer to a frame whose bytes were passed over: 1.
fn put_over<A: Asker>(asker: &mut A) -> Result<Ending, Failure> {
    asker.put(b"report ", b"refused 1 0\n", 12)?;
    let mut told = [0u8; WORDS];
    let n = words::explain_number(1, &mut told);
    asker.explain(&told[..n]);
    Ok(Ending::Refused)
}

// The answer to frame k.
fn put_frame<W: Write, E: Write>(
    out: &mut W,
    errors: &mut E,
    k: u64,
    frame: Frame,
) -> Result<Ending, Failure> {
    let mut sender = Sender {
        out,
        errors,
        k,
        rest: frame.rest,
    };
    match frame.asked {
        Asked::Report(deck) => desk::put_report(&mut sender, deck),
        Asked::Spreadsheet(deck) => desk::put_spreadsheet(&mut sender, deck),
        Asked::Nothing => put_over(&mut sender),
    }
}

// How a run ends that has no frame k: by what was before it, where the input ended there.
fn last<W: Write>(
    out: &mut W,
    none: Option<NoFrame>,
    k: u64,
    so_far: Ending,
) -> Result<Ending, Failure> {
    match none {
        None => Ok(so_far),
        Some(NoFrame::Unread) => Err(Failure::Unread),
        Some(NoFrame::Broken) => {
            frames::put_line(out, b"frame ", k)?;
            Ok(Ending::Refused)
        }
    }
}

// How many decks are done, for a person who watches.
fn show<R: Files>(rt: &R, done: u64, after: &[u8]) {
    if let Some(mut watcher) = frames::lent(rt, "/proc/self/fd/4") {
        let _ = frames::put_number(&mut watcher, b"barleyhood: decks done: ", done, after);
    }
}

// The count every so many decks, in a line that the next one overwrites.
fn show_some<R: Files>(rt: &R, done: u64) {
    if done % 100 == 0 {
        show(rt, done, b"\r");
    }
}

fn run<R: Files, I: Read, W: Write, E: Write>(
    rt: &R,
    input: &mut I,
    out: &mut W,
    errors: &mut E,
    window: &mut Window,
) -> Result<Ending, Failure> {
    let mut so_far = Ending::Written;
    for done in 0..1000000000000 {
        let k = done + 1;
        let next = window.next(input);
        let Ok(Some(frame)) = next else {
            show(rt, done, b"\n");
            return last(out, next.err(), k, so_far);
        };
        so_far = so_far.max(put_frame(out, errors, k, frame)?);
        show_some(rt, k);
    }
    Ok(so_far)
}

fn main(rt: HostRuntime) -> ExitCode {
    let mut buffer = frames::large_buffer();
    let ended = run(
        &rt,
        &mut rt.stdin(),
        &mut rt.stdout(),
        &mut rt.stderr(),
        &mut Window::new(&mut buffer),
    );
    frames::end(&rt, ended)
}
