// What is made of recorded events (host/README.md): the list is read from standard input, and each event gives a line with the answer
// and the check of all bytes of the message's buffer.
#![tactic(auto)]

ghost use Rattle.std.specs.Prelude.{◌≤◌};

use refusal::Refusal;
use std::fmt;
use std::io::Read;

// The bytes of the buffer of which a part is lent, and what each of them holds.
const ROOM: usize = 224;

const PATTERN: u8 = 165;

// The most words of an event.
const MOST: usize = 40;

// What is answered, as a line shows it.
#[derive(Clone, Copy)]
struct Answer(Result<u32, Refusal>);

impl fmt::Display for Answer {
    fn fmt<W: fmt::Write>(&self, f: &mut fmt::Formatter<W>) -> fmt::Result {
        match self.0 {
            Ok(bytes) => write!(f, "{bytes} bytes"),
            Err(refusal) => write!(f, "{}", refusal.number()),
        }
    }
}

// What a record says beside the event: the bytes that are lent, the event's words, sequence, port, and the clock's two words.
type Head = [u32; 6];

fn check_of(buffer: &[u8; ROOM]) -> u32 {
    let mut words = [0u32; ROOM / 4];
    endian::words_of(buffer, &mut words);
    recorded::check(&words)
}

// An event, with so many bytes of the message lent.
fn replay_event(rt: &impl Print, i: u32, event: &[u32], lent: usize, head: Head)
    requires { lent ≤ 224 }
{
    let [_, _, sequence, port, low, high] = head;
    let clock = u64::from(low) + (u64::from(high) << 32);
    let mut message = [PATTERN; ROOM];
    let answer = Answer(call_event::write(event, &mut message[..lent], sequence, port, clock));
    let _ = println!(rt; "{i}: {answer}, check {}", check_of(&message));
}

// The next record. None where there is no whole one.
fn replay_record(rt: &impl Print, input: &mut impl Read, i: u32) -> Option<()> {
    let mut head = [0u32; 6];
    streams::read_words(input, &mut head).ok()?;
    let (lent, n) = (head[0] as usize, head[1] as usize);
    if ROOM < lent || MOST < n {
        return None;
    }
    let mut event = [0u32; MOST];
    streams::read_words(input, &mut event[..n]).ok()?;
    replay_event(rt, i, &event[..n], lent, head);
    Some(())
}

// How many of the records are there.
fn replay_records(rt: &impl Print, input: &mut impl Read, records: u32) -> u32 {
    for i in 0..records {
        if replay_record(rt, input, i).is_none() {
            return i;
        }
    }
    records
}

fn replay_list(rt: &impl Print, input: &mut impl Read, records: u32) {
    let there = replay_records(rt, input, records);
    let _ = println!(rt; "{there} events of {records}");
    if !streams::at_end(input) {
        let _ = println!(rt; "there is more behind the last record");
    }
}

// How many records the list has, whose first word is "NKE1" in its bytes.
fn records(input: &mut impl Read) -> Option<u32> {
    let mut head = [0u32; 3];
    streams::read_words(input, &mut head).ok()?;
    let [magic, _, records] = head;
    if magic.to_le_bytes() == *b"NKE1" {
        Some(records)
    } else {
        None
    }
}

fn main(rt: HostRuntime) {
    let mut input = rt.stdin();
    match records(&mut input) {
        Some(records) => replay_list(&rt, &mut input, records),
        None => {
            let _ = println!(&rt; "no list of events");
        }
    }
}
