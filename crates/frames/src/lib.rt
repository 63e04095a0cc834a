// What programs read and write: frames on an input, each a line `deck N` or `deck N NAME`, or `spreadsheet` for `deck`, and then N bytes; answers on an
// output, each with whether it could be written; and on descriptor 3 how the run ended, for the program that started this one.
#![tactic(auto)]

ghost use Rattle.std.specs.Prelude.{◌≡◌, ◌⊎◌, ◌≤◌, ◌<◌, ◌+◌, ◌++◌, ◌∷◌, [], List, ℕ, length, take, drop, slice_range, nat_eq, OnOk, IfOk, IfErr, IfSome, IfNone};
ghost use Rattle.std.specs.List.{starts_with};
ghost use Rattle.std.specs.Fn.{FnOnceReturnsAt};
ghost use Rattle.std.specs.Fmt.{decimal};
ghost use Rattle.std.specs.Process.{exit_status};
ghost use Rattle.std.specs.Io.KnownBytes.{Appends, Consumes, IsAtEnd};
ghost use Rattle.frames.specs.Statuses.{status_of};

use std::fs;
use std::fs::OpenOptions;
use std::io::{Error, ErrorKind, Read, Write};
use std::process::ExitCode;
use std::rt::Files;

// How a run ended that wrote all: each deck or file has its report, file or lines; or one was refused, or a frame is broken.
#[derive(Clone, Copy, PartialEq, Eq, PartialOrd, Ord)]
pub enum Ending {
    Written,
    Refused,
}

// What ended a run before that: a read that failed; a write that failed; an input longer than the program takes; answers into a pipe that nobody reads
// any more.
#[derive(Clone, Copy)]
pub enum Failure {
    Unread,
    Unwritten,
    TooLong,
    Unheard,
}

// The failure that is a write's error.
impl From<Error> for Failure {
    fn from(e: Error) -> Failure {
        match e.kind() {
            ErrorKind::BrokenPipe => Failure::Unheard,
            _ => Failure::Unwritten,
        }
    }
}

// How a run ended, as it is told. Where nobody reads the answers, it is not told, as by a program that such a pipe killed.
fn told(ended: Result<Ending, Failure>) -> Option<&'static str> {
    match ended {
        Ok(Ending::Written) => Some("0\n"),
        Ok(Ending::Refused) => Some("1\n"),
        Err(Failure::Unread) => Some("2 read\n"),
        Err(Failure::Unwritten) => Some("2 write\n"),
        Err(Failure::TooLong) => Some("2 long\n"),
        Err(Failure::Unheard) => None,
    }
}

// A descriptor that this program was started with, opened anew by its name among the process's own, to add to what is there. None where it is closed
// or lent for reading alone, which its link's permissions tell.
pub fn lent<R: Files>(rt: &R, name: &str) -> Option<R::File> {
    let link = fs::symlink_metadata(rt, name).ok()?;
    if link.permissions().readonly() {
        return None;
    }
    OpenOptions::new().append(true).open(rt, name).ok()
}

// How a run ended, told on descriptor 3. Where that is closed, nobody asked.
fn tell<R: Files>(rt: &R, ended: Result<Ending, Failure>) {
    let Some(line) = told(ended) else {
        return;
    };
    if let Some(mut asker) = lent(rt, "/proc/self/fd/3") {
        let _ = asker.write_all(line.as_bytes());
    }
}

// The exit status: 0, but where nobody reads the answers that of a program that such a pipe killed, as shells have it.
fn status(ended: Result<Ending, Failure>) -> ExitCode
    ensures { exit_status result ≡ status_of ended }
{
    match ended {
        Err(Failure::Unheard) => ExitCode::from(141),
        _ => ExitCode::SUCCESS,
    }
}

// What a program does last: it tells how it ended, and gives its exit status.
pub fn end<R: Files>(rt: &R, ended: Result<Ending, Failure>) -> ExitCode
    ensures { exit_status result ≡ status_of ended }
{
    tell(rt, ended);
    status(ended)
}

// How a run ends that puts one answer to all that it reads, in a lent buffer: the whole input, or as much as the buffer takes.
pub fn answer<I: Read, F: FnOnce(&[u8]) -> Result<Ending, Failure>>(
    input: &mut I,
    buffer: &mut [u8],
    put: F,
) -> Result<Ending, Failure>
    requires { F.IsAlwaysCallable put }
    ensures { (result ≡ Err Failure.Unread) ⊎ ((s : List ℕ) × (length s ≤ length buffer.old) × Consumes (I.remaining input.old) (I.remaining input.new) s × ((length s ≡ length buffer.old) ⊎ IsAtEnd (I.remaining input.new)) × FnOnceReturnsAt F.FnOnce put s result) }
{
    let mut window = Window::new(buffer);
    window.fill(input)?;
    put(window.unused())
}

// Room for an input: more than a deck may have. Zeros, so many that the checker must not count them: a caller knows their number by the contract.
pub fn large_buffer() -> [u8; 65536]
    ensures { 65536 ≡ length result }
{
    [0; 65536]
}

// Lent memory for an input, whose bytes from `from` to `have` are read and not used yet. Nothing else of the input is kept.
#[derive(Drop)]
pub struct Window<'a> {
    bytes: &'a mut [u8],
    from: usize,
    have: usize,
    ghost in_order: { from ≤ have },
    ghost in_window: { have ≤ length bytes.now },
}

impl<'a> Window<'a> {
    ghost use Rattle.std.specs.Borrow.{sem};
    ghost use Rattle.frames.specs.Room.{SameRoom, RestsAsLong};

    pub fn new(bytes: &'a mut [u8]) -> Window<'a>
        ensures lent { (result.bytes.ghost_name ≡ bytes.entry.ghost_name) × (result.bytes.now ≡ bytes.old) }
        ensures fresh { (result.from ≡ 0) × (result.have ≡ 0) }
    {
        Window {
            bytes,
            from: 0,
            have: 0,
        }
    }

    // The bytes that are not used yet.
    pub fn unused(&self) -> &[u8]
        ensures size { self.now.from + length result.now ≡ self.now.have }
        ensures bytes { result.now ≡ slice_range self.now.bytes.now self.now.from self.now.have }
    {
        &self.bytes[self.from..self.have]
    }

    // One read of the input to after what is there: how many bytes came, 0 at the input's end.
    fn more<I: Read>(&mut self, input: &mut I) -> Result<usize, Error>
        ensures came { IfOk result (λ n. self.new.have ≡ self.old.have + n) }
        ensures stays { (self.new.from ≡ self.old.from) × (self.old.have ≤ self.new.have) }
        ensures front { take self.old.have self.new.bytes.now ≡ take self.old.have self.old.bytes.now }
        ensures kept { SameRoom self.old self.new }
        ensures read { IfOk result (λ n. Consumes (I.remaining input.old) (I.remaining input.new) (take n (drop self.old.have self.new.bytes.now)) × (n ≡ 0 → self.old.have < length self.old.bytes.now → IsAtEnd (I.remaining input.new))) }
    {
        let n = input.read(&mut self.bytes[self.have..])?;
        self.have += n;
        Ok(n)
    }

    // What is not used yet, moved to the front.
    fn to_front(&mut self)
        ensures moved { (self.new.from ≡ 0) × (self.old.from + self.new.have ≡ self.old.have) }
        ensures kept { SameRoom self.old self.new }
    {
        self.bytes.copy_within(self.from..self.have, 0);
        self.have -= self.from;
        self.from = 0;
    }

    // The window filled from the input, or as far as the input goes.
    pub fn fill<I: Read>(&mut self, input: &mut I) -> Result<(), Failure>
        ensures stays { (self.new.from ≡ self.old.from) × (self.old.have ≤ self.new.have) × (self.new.have ≤ length self.new.bytes.now) }
        ensures front { take self.old.have self.new.bytes.now ≡ take self.old.have self.old.bytes.now }
        ensures kept { SameRoom self.old self.new }
        ensures read { OnOk result (Consumes (I.remaining input.old) (I.remaining input.new) (slice_range self.new.bytes.now self.old.have self.new.have)) }
        ensures whole { OnOk result ((self.new.have ≡ length self.new.bytes.now) ⊎ IsAtEnd (I.remaining input.new)) }
        ensures unread { IfErr result (λ e. e ≡ Failure.Unread) }
    {
        // no `for`: a read gives as many bytes as there are, here and below
        while self.have < self.bytes.len() {
            if self.more(input).map_err(|_| Failure::Unread)? == 0 {
                break;
            }
        }
        Ok(())
    }

    // The head of the frame that comes next, as soon as that frame is whole or the head tells that it is too long for a deck; none at the input's end.
    fn head<I: Read>(&mut self, input: &mut I) -> Result<Option<Head>, NoFrame>
        ensures ended { IfOk result (λ o. IfNone o (0 < length self.old.bytes.now → IsAtEnd (I.remaining input.new))) }
        ensures whole { IfOk result (λ o. IfSome o (λ h. (self.new.from + h.start ≤ self.new.have) × (h.size ≤ 8192 → (self.new.from + h.start) + h.size ≤ self.new.have))) }
        ensures kept { SameRoom self.old self.new }
    {
        loop {
            if let Some(head) = head_of(self.unused())? {
                if MOST < head.size || head.size <= (self.have - self.from - head.start) as u64 {
                    return Ok(Some(head));
                }
            }
            self.to_front();
            if self.more(input).map_err(|_| NoFrame::Unread)? == 0 {
                if self.have == 0 {
                    return Ok(None);
                }
                return Err(NoFrame::Broken);
            }
        }
    }

    // A frame that is too long for a deck, read to its end: its head comes to the window's front, and the rest of the window takes its bytes.
    fn pass_over<I: Read>(&mut self, input: &mut I, head: Head) -> Result<(), NoFrame>
        requires { self.old.from + head.start ≤ self.old.have }
        ensures passed { OnOk result (head.start ≤ self.new.have) }
        ensures kept { SameRoom self.old self.new }
    {
        self.to_front();
        let mut left = head.size;
        while ((self.have - head.start) as u64) < left {
            left -= (self.have - head.start) as u64;
            self.have = head.start;
            if self.more(input).map_err(|_| NoFrame::Unread)? == 0 {
                return Err(NoFrame::Broken);
            }
        }
        self.from = head.start + left as usize;
        Ok(())
    }

    // The next frame, read as far as it must be and no further: the place where it starts, and its head; none at the input's end.
    fn advance<I: Read>(&mut self, input: &mut I) -> Result<Option<(usize, Head)>, NoFrame>
        ensures ended { IfOk result (λ o. IfNone o (0 < length self.old.bytes.now → IsAtEnd (I.remaining input.new))) }
        ensures whole { IfOk result (λ o. IfSome o (λ x. (x.0 + x.1.start ≤ self.new.have) × (x.1.size ≤ 8192 → (x.0 + x.1.start) + x.1.size ≤ self.new.have))) }
        ensures kept { SameRoom self.old self.new }
    {
        let Some(head) = self.head(input)? else {
            return Ok(None);
        };
        if MOST < head.size {
            self.pass_over(input, head)?;
            return Ok(Some((0, head)));
        }
        let at = self.from;
        self.from += head.start + head.size as usize;
        Ok(Some((at, head)))
    }

    // The frame that starts at a place.
    fn frame(&self, at: usize, head: Head) -> Frame<'_>
        requires head { at + head.start ≤ self.now.have }
        requires deck { head.size ≤ 8192 → (at + head.start) + head.size ≤ self.now.have }
    {
        framed(&self.bytes[at..], head)
    }

    // The next frame; none at the input's end.
    pub fn next<I: Read>(&mut self, input: &mut I) -> Result<Option<Frame<'_>>, NoFrame>
        ensures* kept { sem 𝓛 (RestsAsLong self.entry) }
        ensures ended { IfOk result (λ o. IfNone o (0 < length self.old.bytes.now → IsAtEnd (I.remaining input.new))) }
    {
        let Some((at, head)) = self.advance(input)? else {
            return Ok(None);
        };
        Ok(Some(self.frame(at, head)))
    }
}

// The frame at the front of these bytes.
fn framed(s: &[u8], head: Head) -> Frame<'_>
    requires head { head.start ≤ length s.now }
    requires deck { head.size ≤ 8192 → head.start + head.size ≤ length s.now }
{
    let asked = if MOST < head.size {
        Asked::Nothing
    } else {
        let deck = &s[head.start..head.start + head.size as usize];
        if asks_spreadsheet(s) {
            Asked::Spreadsheet(deck)
        } else {
            Asked::Report(deck)
        }
    };
    Frame {
        rest: &s[head.rest..head.start],
        asked,
    }
}

// The most bytes a deck may have.
const MOST: u64 = 8192;

// The most bytes of a name.
const NAME: usize = 200;

// Why no frame comes, though the input has not ended before one: a frame that is not of its form or is cut off; a read that fails.
#[derive(Clone, Copy)]
pub enum NoFrame {
    Broken,
    Unread,
}

// A frame: the rest of its head after the number, LF or a space, a name and LF; and what is asked.
#[derive(Clone, Copy)]
pub struct Frame<'a> {
    pub rest: &'a [u8],
    pub asked: Asked<'a>,
}

// What is asked, of which deck; nothing of a frame of more bytes than a deck may have, which is passed over.
#[derive(Clone, Copy)]
pub enum Asked<'a> {
    Report(&'a [u8]),
    Spreadsheet(&'a [u8]),
    Nothing,
}

// A frame's head, its first line up to LF: its number; the place after that, from which on the head's rest stands; and the place after LF.
#[derive(Clone, Copy)]
struct Head {
    size: u64,
    rest: usize,
    start: usize,
    ghost in_order: { rest ≤ start },
}

// Whether a head asks for a spreadsheet, if it is one: its first byte tells.
fn asks_spreadsheet(s: &[u8]) -> bool {
    s.starts_with(b"s")
}

// The head that a frame starts with; none where more bytes may make a head of what is there.
fn head_of(s: &[u8]) -> Result<Option<Head>, NoFrame>
    ensures { IfOk result (λ o. IfSome o (λ h. h.start ≤ length s.now)) }
{
    let word: &[u8] = if asks_spreadsheet(s) {
        b"spreadsheet "
    } else {
        b"deck "
    };
    if !s.starts_with(word) {
        return if word.starts_with(s) {
            Ok(None)
        } else {
            Err(NoFrame::Broken)
        };
    }
    let Some((size, rest)) = head_number(s, word.len())? else {
        return Ok(None);
    };
    let Some(start) = head_end(s, rest)? else {
        return Ok(None);
    };
    Ok(Some(Head { size, rest, start }))
}

// The number, of at most 18 digits, that starts at a place, and the place after it, where another byte stands.
fn head_number(s: &[u8], at: usize) -> Result<Option<(u64, usize)>, NoFrame>
    ensures { IfOk result (λ o. IfSome o (λ n. n.1 < length s.now)) }
{
    let mut size: u64 = 0;
    for i in at..s.len() {
        let b = s[i];
        if !b.is_ascii_digit() {
            return if at < i {
                Ok(Some((size, i)))
            } else {
                Err(NoFrame::Broken)
            };
        }
        if 100000000000000000 <= size || (at < i && size == 0) {
            return Err(NoFrame::Broken);
        }
        size = size * 10 + u64::from(b - b'0');
    }
    Ok(None)
}

// The place after a head whose number ends before `rest`.
fn head_end(s: &[u8], rest: usize) -> Result<Option<usize>, NoFrame>
    requires { rest < length s.now }
    ensures { IfOk result (λ o. IfSome o (λ start. (rest ≤ start) × (start ≤ length s.now))) }
{
    if s[rest] == b'\n' {
        return Ok(Some(rest + 1));
    }
    if s[rest] != b' ' {
        return Err(NoFrame::Broken);
    }
    let name = &s[rest + 1..];
    match name.iter().take(NAME + 1).position(|b| *b == b'\n') {
        Some(n) => Ok(Some(rest + 1 + n + 1)),
        None if NAME < name.len() => Err(NoFrame::Broken),
        None => Ok(None),
    }
}

// The first n bytes of a text, or how the run ends where they were not written.
pub fn put_first<W: Write>(out: &mut W, text: &[u8], n: usize) -> Result<(), Failure>
    ensures { OnOk result (Appends (W.contents out.old) (W.contents out.new) (take n text.now)) }
{
    let first = text.get(..n).ok_or(Failure::Unwritten)?;
    out.write_all(first)?;
    Ok(())
}

// A frame's answer: the first n bytes of a text, after a head of a word and the rest of the frame's own.
pub fn put_answer<W: Write>(
    out: &mut W,
    word: &[u8],
    rest: &[u8],
    text: &[u8],
    n: usize,
) -> Result<(), Failure>
    ensures { OnOk result (Appends (W.contents out.old) (W.contents out.new) ((word.now ++ (decimal n ++ rest.now)) ++ take n text.now)) }
{
    put_number(out, word, n as u64, rest)?;
    put_first(out, text, n)
}

// A word and a number, and what follows it.
pub fn put_number<W: Write>(out: &mut W, word: &[u8], n: u64, after: &[u8]) -> Result<(), Failure>
    ensures { OnOk result (Appends (W.contents out.old) (W.contents out.new) (word.now ++ (decimal n ++ after.now))) }
{
    out.write_all(word)?;
    write!(out, "{n}")?;
    out.write_all(after)?;
    Ok(())
}

// A line of a word and a number.
pub fn put_line<W: Write>(out: &mut W, word: &[u8], n: u64) -> Result<(), Failure>
    ensures { OnOk result (Appends (W.contents out.old) (W.contents out.new) (word.now ++ (decimal n ++ 10 ∷ []))) }
{
    put_number(out, word, n, b"\n")
}

// Whether a report is that of a refused deck: the one line `refused`, where any other starts with `hour`.
pub fn tells_refusal(report: &[u8]) -> bool
    ensures { result ≡ starts_with nat_eq report.now (114 ∷ []) }
{
    report.starts_with(b"r")
}
