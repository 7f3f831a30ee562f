// What is given of recorded lists of destinations (host/README.md): the list is read from standard input, and each call gives a line
// with the answer and the check of all words of the answers' buffer.
#![tactic(auto)]

ghost use Rattle.std.specs.Prelude.{◌≤◌, length};

use layout::STATE_WORDS;
use refusal::Refusal;
use std::fmt;
use std::io::Read;

// The words that are held: a state and one word more, so that one too many can be lent; destinations, one more than may be; those of
// the answers' buffer, of which a part is lent; and what each word of it holds.
const HELD: usize = STATE_WORDS + 1;

const DESTINATIONS: usize = call_many::DESTINATIONS + 1;

const ROOM: usize = 8500;

const PATTERN: u32 = 2779096485;

// What is answered, as a line shows it.
#[derive(Clone, Copy)]
struct Answer(Result<u32, Refusal>);

impl fmt::Display for Answer {
    fn fmt<W: fmt::Write>(&self, f: &mut fmt::Formatter<W>) -> fmt::Result {
        match self.0 {
            Ok(weighed) => write!(f, "{weighed} rows"),
            Err(refusal) => write!(f, "{}", refusal.number()),
        }
    }
}

// The call with so many words of the answers' buffer lent.
fn replay_call(rt: &impl Print, i: u32, state: &[u32], destinations: &[u32], room: usize)
    requires { room ≤ 8500 }
{
    let mut answers = [PATTERN; ROOM];
    let answer = Answer(call_many::lookup4_many(state, destinations, &mut answers[..room]));
    let _ = println!(rt; "{i}: {answer}, check {}", recorded::check(&answers));
}

// A word of the state and what it becomes. None where the input ends sooner, or there is no such word.
fn read_change(input: &mut impl Read, state: &mut [u32; HELD]) -> Option<()> {
    let mut pair = [0u32; 2];
    streams::read_words(input, &mut pair).ok()?;
    let [at, word] = pair;
    *state.get_mut(at as usize)? = word;
    Some(())
}

fn read_changes(input: &mut impl Read, state: &mut [u32; HELD], changes: u32) -> Option<()> {
    for _ in 0..changes {
        read_change(input, state)?;
    }
    Some(())
}

// The next record: how many words of the state are others than for the record before, the words lent of the state, the destinations,
// the words lent of the buffer; then the changes, then the destinations. None where there is no whole one.
fn replay_record(
    rt: &impl Print,
    input: &mut impl Read,
    i: u32,
    state: &mut [u32; HELD],
) -> Option<()> {
    let mut head = [0u32; 4];
    streams::read_words(input, &mut head).ok()?;
    let [changes, words, asked, room] = head;
    read_changes(input, state, changes)?;
    let (words, asked, room) = (words as usize, asked as usize, room as usize);
    if HELD < words || DESTINATIONS < asked || ROOM < room {
        return None;
    }
    let mut destinations = [0u32; DESTINATIONS];
    streams::read_words(input, &mut destinations[..asked]).ok()?;
    replay_call(rt, i, &state[..words], &destinations[..asked], room);
    Some(())
}

// How many of the records are there.
fn replay_records(rt: &impl Print, input: &mut impl Read, records: u32) -> u32 {
    let mut state = [0u32; HELD];
    for i in 0..records {
        if replay_record(rt, input, i, &mut state).is_none() {
            return i;
        }
    }
    records
}

fn replay_list(rt: &impl Print, input: &mut impl Read, records: u32) {
    let there = replay_records(rt, input, records);
    let _ = println!(rt; "{there} calls of {records}");
    if !streams::at_end(input) {
        let _ = println!(rt; "there is more behind the last record");
    }
}

// How many records the list has, whose first word is "NKL1" in its bytes.
fn records(input: &mut impl Read) -> Option<u32> {
    let mut head = [0u32; 3];
    streams::read_words(input, &mut head).ok()?;
    let [magic, _, records] = head;
    if magic.to_le_bytes() == *b"NKL1" {
        Some(records)
    } else {
        None
    }
}

fn main(rt: HostRuntime) {
    let mut input = rt.stdin();
    match records(&mut input) {
        Some(records) => replay_list(&rt, &mut input, records),
        None => {
            let _ = println!(&rt; "no list of destinations");
        }
    }
}
