//! Tests of calls without any memory left: calls that need memory return an error and change
//! nothing, and the other calls need none. The tests take all memory, so they aren't for `rt try`,
//! whose sanitizer would take the machine's memory. Rows of `cron_test_vectors` test the rest of
//! `cron_walk_listing`.

ghost use Rattle.std.specs.Prelude.{Some};

use cron::Schedule;
use cron::error::{Error, ErrorKind};
use cron::schedule::{Moment, Turn};
use cron_walk_listing::run::{Outcome, run};
use cron_writer::watched::Watched;
use jiff::Timestamp;
use jiff::tz::TimeZone;
use std::alloc::{AllocError, Global};
use std::borrow::CowStr;
use std::fmt::Debug;
use std::io::{self, Write};
use std::mem;
use std::process::Abort;

const MOST_BLOCKS: usize = 20_000;

type Blocks = Vec<Vec<u8>>;

// Takes blocks of `size` bytes until one is refused, or until `blocks` is full.
fn take_blocks(blocks: &mut Blocks, alloc: Global, size: usize) {
    for _ in blocks.len()..blocks.capacity() {
        match Vec::with_capacity(alloc, size) {
            Ok(block) => {
                let _ = blocks.push(block);
            }
            Err(_) => return,
        }
    }
}

// Takes blocks of each size down to a single byte until each is refused, so that nothing is left.
fn take_all_memory(blocks: &mut Blocks, alloc: Global) {
    let mut size = 1usize << 40;
    for _ in 0..41 {
        take_blocks(blocks, alloc, size);
        size /= 2;
    }
}

fn take_all(rt: &(impl Abort + AllocGlobal)) -> Blocks {
    let mut blocks = Vec::with_capacity(rt.alloc(), MOST_BLOCKS).expect(rt, "memory");
    take_all_memory(&mut blocks, rt.alloc());
    blocks
}

// Gives the blocks back, and checks that they were fewer than `MOST_BLOCKS`: then the last one was
// refused, so that they were all of memory.
fn give_back(rt: &impl Abort, mut blocks: Blocks) {
    let taken = blocks.len();
    blocks.truncate(0);
    assert!(rt; taken < MOST_BLOCKS, "{taken} blocks");
}

// Checks that the actual value `told` equals `wanted`.
fn check_same<T: PartialEq + Debug + Copy>(rt: &impl Abort, told: T, wanted: T) {
    assert_eq!(rt; told, wanted);
}

// The instant 2020-01-01T00:00:00Z.
fn start(rt: &impl Abort) -> Timestamp {
    "2020-01-01T00:00:00Z".parse().expect(rt, "an instant")
}

// Checks that a list of two items of the expression, run without any memory left, is refused with
// the message that memory ran out.
fn check_wanting_run(rt: &(impl Abort + AllocGlobal), expression: &str) {
    let (alloc, start, zone) = (rt.alloc(), start(rt), TimeZone::UTC);
    let mut out = Watched::new(Vec::with_capacity(alloc, 100).expect(rt, "memory"));
    let blocks = take_all(rt);
    let outcome = run(alloc, expression, start, &zone, 2, false, &mut out);
    give_back(rt, blocks);
    check_same(rt, outcome, Outcome::Refused);
    let wanted = b"error: out of memory\n".as_slice();
    check_same(rt, out.into_inner().as_slice(), wanted);
}

#[test]
fn a_run_without_memory_says_so(rt: HostRuntime) {
    for expression in ["@daily", "60 * * * * *", "no expression"] {
        check_wanting_run(&rt, expression);
    }
}

// A writer that takes all memory in its first write, and checks in each write whether a byte is
// left.
#[derive(Drop)]
struct Greedy {
    held: Vec<u8>,
    blocks: Blocks,
    alloc: Global,
    byte_left: bool,
}

impl Write for Greedy {
    ghost contents = { λ w. Some w.held.items };

    fn write(&mut self, buf: &[u8]) -> io::Result<usize> {
        if self.blocks.is_empty() {
            take_all_memory(&mut self.blocks, self.alloc);
        }
        if Vec::<u8>::with_capacity(self.alloc, 1).is_ok() {
            self.byte_left = true;
        }
        self.held.extend_from_slice(buf)?;
        Ok(buf.len())
    }

    fn flush(&mut self) -> io::Result<()> {
        Ok(())
    }
}

// Checks that a list of 400 items is `text`, the list made with memory, though no memory is left
// from the first write on. Each line has 27 bytes.
fn check_begun(rt: &(impl Abort + AllocGlobal), text: &[u8]) {
    let (alloc, start, zone) = (rt.alloc(), start(rt), TimeZone::UTC);
    let mut out = Watched::new(Greedy {
        held: Vec::with_capacity(alloc, text.len()).expect(rt, "memory"),
        blocks: Vec::with_capacity(alloc, MOST_BLOCKS).expect(rt, "memory"),
        alloc,
        byte_left: false,
    });
    let outcome = run(alloc, "* * * * * *", start, &zone, 400, false, &mut out);
    let Greedy {
        held,
        blocks,
        alloc: _,
        byte_left,
    } = out.into_inner();
    give_back(rt, blocks);
    check_same(rt, outcome, Outcome::Listed);
    check_same(rt, byte_left, false);
    check_same(rt, held.len(), 10_800);
    assert!(rt; held.as_slice() == text);
}

#[test]
fn a_list_that_was_begun_takes_no_memory(rt: HostRuntime) {
    let (alloc, start, zone) = (rt.alloc(), start(&rt), TimeZone::UTC);
    let mut out = Watched::new(Vec::new(alloc));
    let outcome = run(alloc, "* * * * * *", start, &zone, 400, false, &mut out);
    check_same(&rt, outcome, Outcome::Listed);
    check_begun(&rt, out.into_inner().as_slice());
}

fn is_wanting(read: &Result<Schedule, Error>) -> bool {
    match read {
        Ok(_) => false,
        Err(error) => matches!(error.kind(), ErrorKind::OutOfMemory),
    }
}

// Returns true if each function that reads a schedule and copies its text returns an out-of-memory
// error.
fn readers_want(alloc: Global, text: &str) -> bool {
    is_wanting(&Schedule::from_str(alloc, text))
        && is_wanting(&Schedule::try_from_str(alloc, text))
        && is_wanting(&Schedule::try_from_cow(alloc, CowStr::Borrowed(text)))
}

const TEXTS: [&str; 4] = [
    "@daily",
    "0 0 0 1 1 ? 2020-2040/10",
    "60 * * * * *",
    "no expression",
];

// Checks that two schedules are equal by both comparisons.
fn check_equal(rt: &impl Abort, one: &Schedule, other: &Schedule) {
    assert!(rt; *one == *other && one.timeunitspec_eq(other), "{other}");
}

#[test]
fn calls_without_memory_say_so_and_change_nothing(rt: HostRuntime) {
    let alloc = rt.alloc();
    let schedule = Schedule::from_str(alloc, "@daily").expect(&rt, "a schedule");
    let blocks = take_all(&rt);
    let wanting = TEXTS.iter().all(|text| readers_want(alloc, text));
    let is_cloned = schedule.clone().is_ok();
    give_back(&rt, blocks);
    check_same(&rt, (wanting, is_cloned), (true, false));
    let again = Schedule::from_str(alloc, "@daily").expect(&rt, "a schedule");
    check_equal(&rt, &again, &schedule);
    check_equal(&rt, &schedule.clone().expect(&rt, "memory"), &schedule);
}

// Checks that there is an item, and that its printed text equals `wanted`.
fn check_item(rt: &(impl Abort + AllocGlobal), item: Option<Moment>, wanted: &str) {
    let item = item.expect(rt, "no item").to_string(rt.alloc());
    check_same(rt, item.expect(rt, "memory").as_str(), wanted);
}

#[test]
fn a_list_of_calls_without_memory_leaves_the_walk(rt: HostRuntime) {
    let alloc = rt.alloc();
    let schedule = Schedule::from_str(alloc, "@daily").expect(&rt, "a schedule");
    let mut walk = schedule.after(start(&rt), &TimeZone::UTC);
    let blocks = take_all(&rt);
    let is_played = walk.play(alloc, &[Turn::Next, Turn::Next]).is_ok();
    give_back(&rt, blocks);
    check_same(&rt, is_played, false);
    let answers = walk.play(alloc, &[Turn::Next, Turn::NextBack]);
    let wanted = ["2020-01-02 00:00:00 +00:00", "2020-01-01 00:00:00 +00:00"];
    for (answer, wanted) in answers.expect(&rt, "memory").iter().zip(wanted) {
        check_item(&rt, *answer, wanted);
    }
}

// Expressions that are accepted.
const ACCEPTED: [&str; 32] = [
    "* * * * * *",
    "* * * ? * *",
    "* * * * * ?",
    "1 2 3 4 5 6 2015",
    "1 2 3 4 5 6",
    "1,30,40 2 3 4 5 Mon-Fri",
    "* * * * * MON-FRI",
    "0,20,40 * * * * *",
    "0-40 * * * * *",
    "0-5,58 * * * * *",
    "* * * * * MON,WED,FRI",
    "* * * ? * Mon,Thu",
    "* * * 1,2 * ?",
    "* * * ? * ?",
    "*/10 2 3 4 5 6",
    "* */30 * * * *",
    "* * */23 * * *",
    "* * * */30 * *",
    "* * * * */10 *",
    "* * * * * Mon-Thurs/2",
    "* * * * February-November/2 *",
    "* * * * * mon , 3 , SATURDAY",
    " @hourly ",
    "2 ,* * * * * *",
    "* * * ?/2 * ?",
    "******",
    "* * * * * *2020",
    "* * * * * * 1970,2033,2034,2097,2098,2100",
    "@yearly",
    "@monthly",
    "@weekly",
    "@daily",
];

// Reads schedules of the texts, as strings or as owned `CowStr`s, and appends the results to
// `read`. An error if there is no room for them. The list of the texts stays, so that no room
// becomes free.
fn read_all(
    alloc: Global,
    texts: &mut [String],
    as_cows: bool,
    read: &mut Vec<Result<Schedule, Error>>,
) -> Result<(), AllocError> {
    for text in texts.iter_mut() {
        let text = mem::replace(text, String::new(alloc));
        let schedule = if as_cows {
            Schedule::try_from_cow(alloc, CowStr::Owned(text))
        } else {
            Schedule::try_from_string(alloc, text)
        };
        read.push(schedule)?;
    }
    Ok(())
}

fn check_read(rt: &(impl Abort + AllocGlobal), text: &str, read: &Result<Schedule, Error>) {
    let Ok(schedule) = read else {
        panic!(rt; "{text}");
    };
    let same = Schedule::from_str(rt.alloc(), text).expect(rt, "a schedule");
    check_equal(rt, schedule, &same);
}

fn check_owned(rt: &(impl Abort + AllocGlobal), as_cows: bool) {
    let alloc = rt.alloc();
    let mut texts = Vec::with_capacity(alloc, ACCEPTED.len()).expect(rt, "memory");
    for text in ACCEPTED {
        let text = String::from_str(alloc, text).expect(rt, "memory");
        texts.push(text).expect(rt, "memory");
    }
    let mut read = Vec::with_capacity(alloc, ACCEPTED.len()).expect(rt, "memory");
    let blocks = take_all(rt);
    let is_room = read_all(alloc, texts.as_mut_slice(), as_cows, &mut read).is_ok();
    give_back(rt, blocks);
    check_same(rt, (is_room, read.len()), (true, ACCEPTED.len()));
    for (text, read) in ACCEPTED.iter().zip(read.iter()) {
        check_read(rt, text, read);
    }
}

#[test]
fn owned_texts_are_read_without_memory(rt: HostRuntime) {
    check_owned(&rt, false);
    check_owned(&rt, true);
}

#[test]
fn owned_walks_are_made_without_memory(rt: HostRuntime) {
    let (start, zone) = (start(&rt), TimeZone::UTC);
    let schedule = Schedule::from_str(rt.alloc(), "@daily").expect(&rt, "a schedule");
    let blocks = take_all(&rt);
    let after = schedule.after_owned(start, zone);
    let upcoming = schedule.upcoming_owned(start, zone);
    give_back(&rt, blocks);
    for walk in [after, upcoming] {
        let first = walk.expect(&rt, "a walk").next();
        check_item(&rt, first, "2020-01-02 00:00:00 +00:00");
    }
}
