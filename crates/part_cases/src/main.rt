// What is given of recorded listings in parts (host/README.md): the list is read from standard input, and each part gives a line with
// the answer and the checks of all words of the listing's buffer and of the cursor.
#![tactic(auto)]

ghost use Rattle.std.specs.Prelude.{◌≤◌};

use call_parts::{Part, Place};
use layout::STATE_WORDS;
use refusal::Refusal;
use std::fmt;
use std::io::Read;

// The words that are held: a state and one word more, so that one too many can be lent; those of the listing's buffer and of the
// cursor, of which a part is lent; and what each word of the buffer holds.
const HELD: usize = STATE_WORDS + 1;

const ROOM: usize = 8300;

const CURSOR: usize = 4;

const PATTERN: u32 = 2779096485;

// What is answered, as a line shows it.
#[derive(Clone, Copy)]
struct Answer(Result<Part, Refusal>);

impl fmt::Display for Answer {
    fn fmt<W: fmt::Write>(&self, f: &mut fmt::Formatter<W>) -> fmt::Result {
        match self.0 {
            Ok(
                Part {
                    rows,
                    interrupted,
                    complete,
                },
            ) => {
                let mark = if interrupted { 16 } else { 0 };
                write!(f, "{rows} rows, mark {mark}, end {}", u32::from(complete))
            }
            Err(refusal) => write!(f, "{}", refusal.number()),
        }
    }
}

// What a record says before its changes: how many words of the state are others than for the record before, 1 for a listing's first
// part, the rows asked for, the words lent of the state, of the buffer and of the cursor, and the cursor's four words.
type Head = [u32; 10];

// A part of the state's words, with so many words of the buffer and of the cursor lent.
fn replay_part(rt: &impl Print, i: u32, head: Head, state: &[u32], room: usize, lent: usize)
    requires { (room ≤ 8300) × (lent ≤ 4) }
{
    let [_, begins, rows, _, _, _, at, low, high, behind] = head;
    let mut listing = [PATTERN; ROOM];
    let mut cursor = [at, low, high, behind];
    let place = if begins == 1 {
        Place::Start
    } else {
        Place::Cursor
    };
    let answer = Answer(call_parts::dump4_part(
        place,
        state,
        &mut listing[..room],
        &mut cursor[..lent],
        rows,
    ));
    let _ = println!(rt;
        "{i}: {answer}, checks {} {}",
        recorded::check(&listing),
        recorded::check(&cursor)
    );
}

// A word of the state and what it becomes. None where the input ends sooner, or there is no such word.
fn read_change(input: &mut impl Read, state: &mut [u32; HELD]) -> Option<()> {
    let mut pair = [0u32; 2];
    streams::read_words(input, &mut pair).ok()?;
    let [at, word] = pair;
    *state.get_mut(at as usize)? = word;
    Some(())
}

fn read_changes(input: &mut impl Read, state: &mut [u32; HELD], changes: u32) -> Option<()> {
    for _ in 0..changes {
        read_change(input, state)?;
    }
    Some(())
}

// The next record. None where there is no whole one.
fn replay_record(
    rt: &impl Print,
    input: &mut impl Read,
    i: u32,
    state: &mut [u32; HELD],
) -> Option<()> {
    let mut head = [0u32; 10];
    streams::read_words(input, &mut head).ok()?;
    read_changes(input, state, head[0])?;
    let (words, room, lent) = (head[3] as usize, head[4] as usize, head[5] as usize);
    if HELD < words || ROOM < room || CURSOR < lent {
        return None;
    }
    replay_part(rt, i, head, &state[..words], room, lent);
    Some(())
}

// How many of the records are there.
fn replay_records(rt: &impl Print, input: &mut impl Read, records: u32) -> u32 {
    let mut state = [0u32; HELD];
    for i in 0..records {
        if replay_record(rt, input, i, &mut state).is_none() {
            return i;
        }
    }
    records
}

fn replay_list(rt: &impl Print, input: &mut impl Read, records: u32) {
    let there = replay_records(rt, input, records);
    let _ = println!(rt; "{there} parts of {records}");
    if !streams::at_end(input) {
        let _ = println!(rt; "there is more behind the last record");
    }
}

// How many records the list has, whose first word is "NKP1" in its bytes.
fn records(input: &mut impl Read) -> Option<u32> {
    let mut head = [0u32; 3];
    streams::read_words(input, &mut head).ok()?;
    let [magic, _, records] = head;
    if magic.to_le_bytes() == *b"NKP1" {
        Some(records)
    } else {
        None
    }
}

fn main(rt: HostRuntime) {
    let mut input = rt.stdin();
    match records(&mut input) {
        Some(records) => replay_list(&rt, &mut input, records),
        None => {
            let _ = println!(&rt; "no list of parts");
        }
    }
}
