// Text put into lent bytes, as far as they go.
ghost use Rattle.std.specs.Prelude.{◌≤◌, length};

use std::fmt;

// The bytes lent, and how many of them have been put.
#[derive(Drop)]
pub struct Text<'a> {
    out: &'a mut [u8],
    at: usize,
    ghost within: { at ≤ length out.now },
}

// What does not fit is cut off, and then no more is put.
impl fmt::Write for Text<'_> {
    fn write_str(&mut self, s: &str) -> fmt::Result {
        let rest = &mut self.out[self.at..];
        let n = s.len().min(rest.len());
        rest[..n].copy_from_slice(&s.as_bytes()[..n]);
        self.at += n;
        if n < s.len() { Err(fmt::Error) } else { Ok(()) }
    }
}

// What is told is put into the lent bytes; how many they are.
pub fn put<F: FnOnce(&mut Text) -> fmt::Result>(out: &mut [u8], tell: F) -> usize
    requires { F.IsAlwaysCallable tell }
    ensures { result ≤ length out.old }
{
    let room = out.len();
    let mut text = Text { out, at: 0 };
    let _ = tell(&mut text);
    text.at.min(room)
}
