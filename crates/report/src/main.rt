// The report of one deck: the deck on standard input, the report on standard output, and on descriptor 3 how the run ended.
// An input longer than the buffer is longer than any deck, and its first bytes tell as much.
#![tactic(auto)]

use desk::Alone;
use std::process::ExitCode;

fn main(rt: HostRuntime) -> ExitCode {
    let mut buffer = frames::large_buffer();
    let mut out = rt.stdout();
    let mut errors = rt.stderr();
    let mut asker = Alone {
        out: &mut out,
        errors: &mut errors,
    };
    let ended = frames::answer(
        &mut rt.stdin(),
        &mut buffer,
        |deck| desk::put_report(&mut asker, deck),
    );
    frames::end(&rt, ended)
}
