// What recorded recordings of events rebuild, and whether two rebuild the same (host/README.md): the list is read from standard input, and
// each record gives a line with the answer, that of rows with the check of all words of their buffer.
#![tactic(auto)]

ghost use Rattle.std.specs.Prelude.{◌≤◌};

use refusal::Refusal;
use std::fmt;
use std::io::Read;

// The words that there is room for: of a recording, and of the buffer for rows, of which a part is lent; and what each of these holds.
const MOST: usize = 9248;

const ROOM: usize = 8300;

const PATTERN: u32 = 2779096485;

// What is answered, as a line shows it.
#[derive(Clone, Copy)]
enum Answer {
    Rebuilt(Result<usize, Refusal>),
    Same(Result<bool, Refusal>),
}

impl fmt::Display for Answer {
    fn fmt<W: fmt::Write>(&self, f: &mut fmt::Formatter<W>) -> fmt::Result {
        match *self {
            Answer::Rebuilt(Ok(rows)) => write!(f, "{rows} rows"),
            Answer::Same(Ok(same)) => write!(f, "same {}", u32::from(same)),
            Answer::Rebuilt(Err(refusal)) | Answer::Same(Err(refusal)) => {
                write!(f, "{}", refusal.number())
            }
        }
    }
}

// The rows of a recording, with so many words of the buffer lent.
fn replay_rebuild(rt: &impl Print, i: u32, recording: &[u32], room: usize)
    requires { room ≤ 8300 }
{
    let mut rows = [PATTERN; ROOM];
    let answer = Answer::Rebuilt(call_recording::rebuild(recording, &mut rows[..room]));
    let _ = println!(rt; "{i}: {answer}, check {}", recorded::check(&rows));
}

fn replay_same(rt: &impl Print, i: u32, first: &[u32], second: &[u32]) {
    let answer = Answer::Same(call_recording::same(first, second));
    let _ = println!(rt; "{i}: {answer}");
}

// A recording's words. None where the input ends sooner.
fn read_recording(input: &mut impl Read, words: &mut [u32]) -> Option<()> {
    for piece in words.chunks_mut(streams::MOST_WORDS) {
        streams::read_words(input, piece).ok()?;
    }
    Some(())
}

// The next record: 1 for one to be rebuilt, the recording's length, and the words lent of the buffer or the second one's length; then the
// recording, and the second one. None where there is no whole one.
fn replay_record(rt: &impl Print, input: &mut impl Read, i: u32) -> Option<()> {
    let mut head = [0u32; 3];
    streams::read_words(input, &mut head).ok()?;
    let [kind, words, other] = head;
    let (words, other) = (words as usize, other as usize);
    let mut first = [0u32; MOST];
    let first = first.get_mut(..words)?;
    read_recording(input, first)?;
    if kind == 1 {
        if ROOM < other {
            return None;
        }
        replay_rebuild(rt, i, first, other);
        return Some(());
    }
    let mut second = [0u32; MOST];
    let second = second.get_mut(..other)?;
    read_recording(input, second)?;
    replay_same(rt, i, first, second);
    Some(())
}

// How many of the records are there.
fn replay_records(rt: &impl Print, input: &mut impl Read, records: u32) -> u32 {
    for i in 0..records {
        if replay_record(rt, input, i).is_none() {
            return i;
        }
    }
    records
}

fn replay_list(rt: &impl Print, input: &mut impl Read, records: u32) {
    let there = replay_records(rt, input, records);
    let _ = println!(rt; "{there} recordings of {records}");
    if !streams::at_end(input) {
        let _ = println!(rt; "there is more behind the last record");
    }
}

// How many records the list has, whose first word is "NKR1" in its bytes.
fn records(input: &mut impl Read) -> Option<u32> {
    let mut head = [0u32; 3];
    streams::read_words(input, &mut head).ok()?;
    let [magic, _, records] = head;
    if magic.to_le_bytes() == *b"NKR1" {
        Some(records)
    } else {
        None
    }
}

fn main(rt: HostRuntime) {
    let mut input = rt.stdin();
    match records(&mut input) {
        Some(records) => replay_list(&rt, &mut input, records),
        None => {
            let _ = println!(&rt; "no list of recordings");
        }
    }
}
