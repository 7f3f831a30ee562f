// What is made of recorded messages (host/README.md): the list is read from standard input, and each message gives a line with the
// answer and the check of all words of the request's buffer.
// What prints and what is read are handed on apart: some functions use the one, some the other, some both.
#![tactic(auto)]

ghost use Rattle.std.specs.Prelude.{◌≤◌, length};

use call_message::Asked;
use refusal::Refusal;
use std::fmt;
use std::io::Read;

// The words of the buffer of which a part is lent, and what each of them holds.
const ROOM: usize = 51;

const PATTERN: u32 = 2779096485;

// The most bytes of a message.
const MOST: usize = 1024;

// What is answered, as a line shows it.
#[derive(Clone, Copy)]
struct Answer(Result<Asked, Refusal>);

impl fmt::Display for Answer {
    fn fmt<W: fmt::Write>(&self, f: &mut fmt::Formatter<W>) -> fmt::Result {
        match self.0 {
            Ok(Asked { kind, words }) => write!(f, "type {}, {words} words", u32::from(kind)),
            Err(refusal) => write!(f, "{}", refusal.number()),
        }
    }
}

// A message, with so many words of the request lent.
fn replay_message(rt: &impl Print, i: u32, message: &[u8], lent: usize, up: u32)
    requires { lent ≤ 51 }
{
    let mut request = [PATTERN; ROOM];
    let answer = Answer(call_message::read(message, &mut request[..lent], up));
    let _ = println!(rt; "{i}: {answer}, check {}", recorded::check(&request));
}

// Three words: what begins the list, and each record. None where the input ends sooner.
fn read_head(input: &mut impl Read) -> Option<[u32; 3]> {
    let mut head = [0u32; 3];
    streams::read_words(input, &mut head).ok()?;
    Some(head)
}

// The next record: the message's bytes, the words that are lent, `up`, and the message. None where there is no whole one.
fn replay_record(rt: &impl Print, input: &mut impl Read, i: u32) -> Option<()> {
    let [bytes, lent, up] = read_head(input)?;
    let (n, lent) = (bytes as usize, lent as usize);
    if MOST < n || ROOM < lent {
        return None;
    }
    let mut message = [0u8; MOST];
    input.read_exact(&mut message[..n]).ok()?;
    replay_message(rt, i, &message[..n], lent, up);
    Some(())
}

// How many of the records are there.
fn replay_records(rt: &impl Print, input: &mut impl Read, records: u32) -> u32 {
    for i in 0..records {
        if replay_record(rt, input, i).is_none() {
            return i;
        }
    }
    records
}

fn replay_list(rt: &impl Print, input: &mut impl Read, records: u32) {
    let there = replay_records(rt, input, records);
    let _ = println!(rt; "{there} messages of {records}");
    if !streams::at_end(input) {
        let _ = println!(rt; "there is more behind the last record");
    }
}

// How many records the list has, whose first word is "NKM1" in its bytes.
fn records(input: &mut impl Read) -> Option<u32> {
    let [magic, _, records] = read_head(input)?;
    (magic.to_le_bytes() == *b"NKM1").then_some(records)
}

fn main(rt: HostRuntime) {
    let mut input = rt.stdin();
    match records(&mut input) {
        Some(records) => replay_list(&rt, &mut input, records),
        None => {
            let _ = println!(&rt; "no list of messages");
        }
    }
}
