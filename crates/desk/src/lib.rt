// What the programs answer to one deck: its report or its spreadsheet file, and, where it is refused, words for a person.
// The contracts cite Sent for what is sent of a deck and how the run then ends. Which words, no contract says (words).
#![tactic(auto)]

ghost use Rattle.std.specs.Prelude.{◌≡◌, ◌≤◌, ◌++◌, [], List, ℕ, Option, None, Some, take, OnOk, IfOk, IfSome};
ghost use Rattle.std.specs.Io.KnownBytes.{Appends};
ghost use Rattle.desk.specs.Sent.{deck_lines, ending_of, report_sent, file_sent};

use frames::{Ending, Failure};
use std::io::Write;
use words::WORDS;

// Who is answered. What was sent to them an asker need not say: then nothing is asked of it, and nothing is known.
pub trait Asker {
    // What has been sent to them, where it is known.
    ghost sent: { Self → Option (List ℕ) } = { λ asker. None };

    // What stands before so many bytes of an answer of a kind.
    ghost head: { Self → List ℕ → ℕ → List ℕ } = { λ asker word n. [] };

    // The first n bytes of a text, an answer of the kind that a word names.
    fn put(&mut self, word: &[u8], text: &[u8], n: usize) -> Result<(), Failure>
        ensures { IfSome (sent self.old) (λ before. OnOk result (Appends (Some before) (sent self.new) (head self.old word.now n ++ take n text.now))) };

    // Words about what is refused, for a person. Where standard error is closed, nobody reads them.
    fn explain(&mut self, text: &[u8])
        ensures { sent self.new ≡ sent self.old };
}

// Who asks of one deck alone: the answer is the text, and nothing around it.
#[derive(Drop)]
pub struct Alone<'a, W, E> {
    pub out: &'a mut W,
    pub errors: &'a mut E,
}

impl<W: Write, E: Write> Asker for Alone<'_, W, E> {
    ghost sent = { λ a. W.contents a.out.now };

    ghost head = { λ a word n. [] };

    fn put(&mut self, _word: &[u8], text: &[u8], n: usize) -> Result<(), Failure> {
        frames::put_first(self.out, text, n)
    }

    fn explain(&mut self, text: &[u8]) {
        let _ = self.errors.write_all(text);
    }
}

// The report, by way of so many bytes of room; of a refused deck words besides.
fn put_in<A: Asker, const ROOM: usize>(asker: &mut A, deck: &[u8]) -> Result<Ending, Failure>
    requires { ROOM ≤ 131072 }
    ensures sent { OnOk result (Appends (A.sent asker.old) (A.sent asker.new) (report_sent (A.head asker.old) deck.now)) }
    ensures ending { IfOk result (λ e. e ≡ ending_of (deck_lines deck.now)) }
{
    let mut text = [0u8; ROOM];
    let n = print_report::report(deck, &mut text).map_err(|_| Failure::Unwritten)?;
    asker.put(b"report ", &text, n)?;
    if !frames::tells_refusal(&text) {
        return Ok(Ending::Written);
    }
    let mut told = [0u8; WORDS];
    let n = words::explain(deck, &mut told);
    asker.explain(&told[..n]);
    Ok(Ending::Refused)
}

// The report. None is longer than what is lent for it here.
pub fn put_report<A: Asker>(asker: &mut A, deck: &[u8]) -> Result<Ending, Failure>
    ensures sent { OnOk result (Appends (A.sent asker.old) (A.sent asker.new) (report_sent (A.head asker.old) deck.now)) }
    ensures ending { IfOk result (λ e. e ≡ ending_of (deck_lines deck.now)) }
{
    put_in::<A, 131072>(asker, deck)
}

// The spreadsheet file. None is longer than what is lent for it here. A refused deck has none: its report tells, one line of 50 bytes at most.
pub fn put_spreadsheet<A: Asker>(asker: &mut A, deck: &[u8]) -> Result<Ending, Failure>
    ensures sent { OnOk result (Appends (A.sent asker.old) (A.sent asker.new) (file_sent (A.head asker.old) deck.now (deck_lines deck.now))) }
    ensures ending { IfOk result (λ e. e ≡ ending_of (deck_lines deck.now)) }
{
    let mut text = [0u8; 147456];
    let Ok(n) = write_spreadsheet::deck_spreadsheet(deck, &mut text) else {
        return put_in::<A, 64>(asker, deck);
    };
    asker.put(b"spreadsheet ", &text, n)?;
    Ok(Ending::Written)
}

#[cfg(test)]
mod tests {
    use super::*;

    // An asker that does not say what was sent, but how long the last of it is.
    #[derive(Drop)]
    struct Sizes {
        answer: usize,
        words: usize,
    }

    impl Asker for Sizes {
        fn put(&mut self, _word: &[u8], _text: &[u8], n: usize) -> Result<(), Failure>
            ensures { self.new.answer ≡ n }
        {
            self.answer = n;
            Ok(())
        }

        fn explain(&mut self, text: &[u8])
            ensures { self.new.answer ≡ self.old.answer }
        {
            self.words = text.len();
        }
    }

    #[test]
    fn an_asker_need_not_say_what_was_sent(rt: HostRuntime) {
        let mut asker = Sizes {
            answer: 0,
            words: 0,
        };
        let deck = b"H 0\nE\n";
        assert!(rt; matches!(put_report(&mut asker, deck), Ok(Ending::Written)));
        assert_eq!(rt; (asker.answer, asker.words), (17, 0));
        assert!(rt; matches!(put_spreadsheet(&mut asker, deck), Ok(Ending::Written)));
        assert_eq!(rt; (asker.answer, asker.words), (70, 0));
        assert!(rt; matches!(put_spreadsheet(&mut asker, b""), Ok(Ending::Refused)));
        assert_eq!(rt; asker.answer, 12);
        assert!(rt; 0 < asker.words);
    }
}
