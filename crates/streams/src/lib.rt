// What the programs read and what they say of it: an input to its end or to the end of a buffer, words, and on standard error what
// failed.
#![tactic(auto)]

ghost use Rattle.std.specs.Prelude.{◌≡◌, ◌<◌, ◌≤◌, ℕ, false, [], ◌∷◌, length, take, IfOk};
ghost use Rattle.std.specs.Io.{ReadsAtMost};
ghost use Rattle.std.specs.Io.KnownBytes.{Consumes, IsAtEnd};
ghost use Rattle.endian.specs.Endian.{bytes_of};

use std::io::{Cursor, Read, Write};
use std::{fmt, io, str};

// The most words that are read at once.
pub const MOST_WORDS: usize = 4096;

// As many words as there is room for, each of four bytes; an error where the input ends sooner.
pub fn read_words<R: Read>(input: &mut R, words: &mut [u32]) -> io::Result<()>
    requires { length words.old ≤ 4096 }
    ensures { IfOk result (λ _. Consumes (R.remaining input.old) (R.remaining input.new) (bytes_of words.new)) }
{
    let mut room = [0u8; 4 * MOST_WORDS];
    let bytes = &mut room[..4 * words.len()];
    input.read_exact(bytes)?;
    endian::words_of(bytes, words);
    Ok(())
}

// Whether no byte more can be read: where it is false, there was one.
pub fn at_end<R: Read>(input: &mut R) -> bool
    ensures { result ≡ false → (b : ℕ) × Consumes (R.remaining input.old) (R.remaining input.new) (b ∷ []) }
{
    let mut byte = [0u8; 1];
    input.read_exact(&mut byte).is_err()
}

// Reads until the bytes are full or the input ends; how many were read. A read that fails is no end: its error is returned.
pub fn read_full<R: Read>(input: &mut R, bytes: &mut [u8]) -> io::Result<usize>
    ensures bound { ReadsAtMost result bytes.new }
    ensures taken { IfOk result (λ n. Consumes (R.remaining input.old) (R.remaining input.new) (take n bytes.new)) }
    ensures end { IfOk result (λ n. n < length bytes.old → IsAtEnd (R.remaining input.new)) }
{
    // A for has nothing to go over: how far each turn goes is what a read answers.
    let mut n = 0usize;
    while n < bytes.len() {
        let more = input.read(&mut bytes[n..])?;
        if more == 0 {
            break;
        }
        n += more;
    }
    Ok(n)
}

// The system's words for an error, without its number.
fn words(text: &[u8]) -> Option<&str> {
    let (words, _) = str::from_utf8(text).ok()?.split_once(" (os error ")?;
    Some(words)
}

// Why something failed.
#[derive(Drop)]
struct Why<'a>(&'a io::Error);

impl fmt::Display for Why<'_> {
    fn fmt<W: fmt::Write>(&self, f: &mut fmt::Formatter<W>) -> fmt::Result {
        let mut text = Cursor::new([0u8; 256]);
        let _ = write!(text, "{}", self.0);
        match words(&text.into_inner()) {
            Some(words) => f.write_str(words),
            None => write!(f, "{}", self.0),
        }
    }
}

// A line on standard error: what failed, and why. A line that can't be written is left out.
pub fn fail(rt: &impl Eprint, what: &str, error: &io::Error) {
    let why = Why(error);
    let _ = eprintln!(rt; "{what}: {why}");
}

#[cfg(test)]
mod tests {
    use super::{Why, read_full};
    use std::io;

    #[test]
    fn reads_to_the_end_or_until_full(rt: HostRuntime) -> io::Result<()> {
        let mut bytes = [0u8; 4];
        assert_eq!(rt; read_full(&mut &b"abc"[..], &mut bytes)?, 3);
        assert_eq!(rt; bytes, [97, 98, 99, 0]);
        assert_eq!(rt; read_full(&mut &b"defgh"[..], &mut bytes)?, 4);
        assert_eq!(rt; bytes, [100, 101, 102, 103]);
        Ok(())
    }

    #[test]
    fn says_why_in_words(rt: HostRuntime) -> io::Result<()> {
        for (error, words) in [
            (io::Error::from_raw_os_error(21), "Is a directory"),
            (io::Error::from_raw_os_error(9), "Bad file descriptor"),
            (io::Error::other("no such state"), "no such state"),
        ] {
            let said = format!(in rt.alloc(); "{}", Why(&error))?;
            assert_eq!(rt; said.as_str(), words);
        }
        Ok(())
    }
}
