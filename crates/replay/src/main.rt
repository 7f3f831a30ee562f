// Replays lists of answers (host/README.md): each argument names a file, and where there is none, standard input is read. Printed are
// the records that the calls don't answer as recorded, how many of each call they do, and how many in all.
// What prints and what is read are handed on apart: some functions use the one, some the other, some both.
#![tactic(auto)]

ghost use Rattle.std.specs.Prelude.{◌<◌};
ghost use Rattle.definition.specs.Step.{event_room};

use call_dispatch::numbered::Call;
use layout::EVENT_BUFFER;
use recorded::{HELD_WORDS, Verdict, record};
use std::env::FillError;
use std::io::Read;
use std::rt::{Env, Files};
use std::{array, fmt, fs, str};

// The most words of a record.
const MOST: usize = 4096;

// The calls' numbers go up to 20.
const CALLS: usize = 21;

// The next record, in room for the longest. Its second word says how many it has.
fn next<'a>(input: &mut impl Read, room: &'a mut [u32; MOST]) -> Option<&'a [u32]> {
    streams::read_words(input, &mut room[..2]).ok()?;
    let n = room[record::LENGTH] as usize;
    if n < 2 || MOST < n {
        return None;
    }
    streams::read_words(input, &mut room[2..n]).ok()?;
    Some(&room[..n])
}

// A buffer in which each word is another, so that none is written unseen.
fn filled() -> [u32; EVENT_BUFFER] {
    array::from_fn(
        |i|
            requires { i < event_room }
        { 2779054080 + i as u32 },
    )
}

// Why a list can't be read on.
#[derive(Clone, Copy, Debug, PartialEq, Eq)]
enum Unread {
    NotThere,
    Damaged,
}

impl fmt::Display for Unread {
    fn fmt<W: fmt::Write>(&self, f: &mut fmt::Formatter<W>) -> fmt::Result {
        f.write_str(match self {
            Unread::NotThere => "not there",
            Unread::Damaged => "damaged",
        })
    }
}

// How many calls of a kind are as recorded, and how many not.
#[derive(Clone, Copy, PartialEq, Eq)]
struct Tally {
    same: u64,
    other: u64,
}

const NONE: Tally = Tally { same: 0, other: 0 };

// What the records so far have left: the words that the calls are made on, and a tally of each call, by its number.
#[derive(Drop)]
struct Replay {
    held: [u32; HELD_WORDS],
    tallies: [Tally; CALLS],
}

impl Replay {
    // A record of some words.
    fn judge(&mut self, rt: &impl Print, i: u32, record: &[u32]) -> Result<(), Unread> {
        let call = recorded::call(record).ok_or(Unread::Damaged)?;
        let mut buffer = filled();
        let verdict = recorded::judge(record, &mut self.held, &mut buffer);
        let tally = &mut self.tallies[u32::from(call) as usize];
        match verdict {
            Verdict::Damaged => return Err(Unread::Damaged),
            Verdict::Other => {
                let _ = println!(rt; "record {i}, {call}, is not as recorded");
                tally.other = tally.other.wrapping_add(1);
            }
            Verdict::Same => tally.same = tally.same.wrapping_add(1),
        }
        Ok(())
    }

    fn step(&mut self, rt: &impl Print, input: &mut impl Read, i: u32) -> Result<(), Unread> {
        let mut room = [0u32; MOST];
        let record = next(input, &mut room).ok_or(Unread::NotThere)?;
        self.judge(rt, i, record)
    }

    // The records one after the other: whether all can be read.
    fn run(&mut self, rt: &impl Print, input: &mut impl Read, records: u32) -> bool {
        for i in 0..records {
            if let Err(why) = self.step(rt, input, i) {
                let _ = println!(rt; "record {i} is {why}");
                return false;
            }
        }
        true
    }

    // A line for each call that the list has, and one for all. A record that was not read is not as recorded.
    fn report(&self, rt: &impl Print, records: u32) {
        let mut total = 0u64;
        for (code, tally) in self.tallies.iter().enumerate() {
            let Tally { same, other } = *tally;
            if let Ok(call) = Call::try_from(code as u32)
                && *tally != NONE
            {
                let _ = println!(rt; "{call}: {same} as recorded, {other} not");
            }
            total = total.wrapping_add(same);
        }
        let not = u64::from(records).wrapping_sub(total);
        let _ = println!(rt; "{total} calls as recorded, {not} not");
    }
}

// A list whose head is right.
fn replay_records(rt: &impl Print, input: &mut impl Read, records: u32) {
    let mut replay = Replay {
        held: [0; HELD_WORDS],
        tallies: [NONE; CALLS],
    };
    let all = replay.run(rt, input, records);
    replay.report(rt, records);
    if all && !streams::at_end(input) {
        let _ = println!(rt; "there is more behind the last record");
    }
}

// The list's head: how many records it has.
fn head(input: &mut impl Read) -> Option<u32> {
    let mut head = [0u32; 5];
    streams::read_words(input, &mut head).ok()?;
    let whole = head[0].to_le_bytes() == *b"NKV3" && head[4] == recorded::check(&head[..4]);
    whole.then_some(head[3])
}

fn replay_list(rt: &impl Print, input: &mut impl Read) {
    match head(input) {
        Some(records) => replay_records(rt, input, records),
        None => {
            let _ = println!(rt; "no list of answers");
        }
    }
}

fn replay_file(rt: &(impl Files + Print + Eprint), path: &str) {
    match fs::open(rt, path) {
        Ok(mut input) => replay_list(rt, &mut input),
        Err(e) => streams::fail(rt, path, &e),
    }
}

// An argument that isn't UTF-8 names no file.
fn replay_argument(rt: &(impl Files + Print + Eprint), argument: &[u8]) {
    let _ = rt.write_all(argument);
    let _ = println!(rt; ":");
    match str::from_utf8(argument) {
        Ok(path) => replay_file(rt, path),
        Err(_) => {
            let _ = eprintln!(rt; "a path that isn't UTF-8 can't be opened");
        }
    }
}

// The argument's bytes, in room for them: none of one that is too long. None where there is no such argument.
fn argument<'a>(rt: &impl Env, i: usize, room: &'a mut [u8; 4096]) -> Option<&'a [u8]> {
    match rt.arg(i, room) {
        Ok(n) => Some(&room[..n]),
        Err(FillError::TooLong) => Some(b""),
        Err(FillError::NotPresent) => None,
    }
}

fn main(rt: HostRuntime) {
    let mut room = [0u8; 4096];
    if argument(&rt, 1, &mut room).is_none() {
        replay_list(&rt, &mut rt.stdin());
        return;
    }
    for i in 1..usize::MAX {
        match argument(&rt, i, &mut room) {
            Some(bytes) => replay_argument(&rt, bytes),
            None => return,
        }
    }
}
