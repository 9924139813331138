//! Calls as words: `3:start=7`, `3:stop=7` and `3:stop_all` are what an atom does to an inner key at a time,
//! `3:tell=0T9,1F8` the changes of places, each with a truth (T, U or F) and an output key, `cross:10+2` the crossing
//! of a full end and of so many full buckets after it, `cut:5` a cut, `take` a report, and `inner` shows the inner
//! keys. `rebuilt` goes on with what the producer's items build, and `turns:100/8` stands for 100 events, each with
//! its condition: 8 inner keys start one after the other, each true for the output key 7, and stop, the last one
//! first, again and again. An event's time is its number. `apart:100/8` are the same events, of inner keys that each
//! have an output key of their own number, and `total` is a report of which the number of rows is shown, and the sum
//! of their values. `4:tell=0T9*4000` tells of an output key that is a text of 4,000 letters, `bytes` shows how many
//! bytes the producer's items are spelled with, and `twins:2000` are so many calls by chance, of this producer and of
//! another one.
use super::saved::bytes_of;
use super::shown::{push_closed, push_key, push_total};
use super::twins::push_twins;
use atom_record::{Bytes, DimKey, Leaf, MetricKey, Value};
use bucket_clock::Crossings;
use duration_metric::{InnerChange, InnerDelta, InnerEvent, MaxProducer, Producer, SumProducer};
use flat_form::{FlatError, rebuild};
use predicate_state::{PredEvent, Truth};
use sd_base::Seq;
use std::alloc::{AllocError, Global};
use test_tools::unsigned;

/// A producer of durations, which tells of its inner keys.
pub trait Timed: Producer<Event = InnerEvent, After = InnerDelta, Value = u64> {
    fn len(&self) -> usize;

    fn key(&self, place: usize) -> Option<&DimKey>;

    fn truth(&self, place: usize) -> Option<Truth>;

    /// What its items build.
    fn again(&self, alloc: Global) -> Result<Self, FlatError>;

    /// How many bytes its items are spelled with.
    fn saved_in(&self, alloc: Global) -> Result<u64, AllocError>;
}

impl Timed for SumProducer {
    fn len(&self) -> usize {
        self.inner_len()
    }

    fn key(&self, place: usize) -> Option<&DimKey> {
        self.inner_key(place)
    }

    fn truth(&self, place: usize) -> Option<Truth> {
        self.inner_truth(place)
    }

    fn again(&self, alloc: Global) -> Result<Self, FlatError> {
        rebuild(alloc, self)
    }

    fn saved_in(&self, alloc: Global) -> Result<u64, AllocError> {
        bytes_of(alloc, self)
    }
}

impl Timed for MaxProducer {
    fn len(&self) -> usize {
        self.inner_len()
    }

    fn key(&self, place: usize) -> Option<&DimKey> {
        self.inner_key(place)
    }

    fn truth(&self, place: usize) -> Option<Truth> {
        self.inner_truth(place)
    }

    fn again(&self, alloc: Global) -> Result<Self, FlatError> {
        rebuild(alloc, self)
    }

    fn saved_in(&self, alloc: Global) -> Result<u64, AllocError> {
        bytes_of(alloc, self)
    }
}

/// One call.
#[derive(Clone, Copy)]
enum Do<'a> {
    /// Something happens to an inner key at a time.
    Event(u64, PredEvent, i32),
    /// The changes are told at a time.
    Tell(u64, &'a str),
    /// A frame crosses a full end, and so many full buckets after it.
    Cross(u64, u64),
    /// A report cuts the open part.
    Cut(u64),
    /// A report is made.
    Take,
    /// A report is made, of which the sum is shown.
    Total,
    /// The inner keys are shown.
    Inner,
    /// The producer is built again.
    Rebuild,
    /// How many bytes the producer is saved in is shown.
    Bytes,
    /// So many events, by so many inner keys in turn.
    Turns(u64, Turns),
    /// So many calls by chance, of the producer and of one that is built again after each.
    Twins(u64),
}

/// The inner keys that start and stop in turn.
#[derive(Clone, Copy)]
struct Turns {
    /// How many there are.
    keys: u64,
    /// Whether each has an output key of its own, or 7 is the one of all.
    are_apart: bool,
}

impl Turns {
    fn out_of(self, number: u32) -> i32 {
        if self.are_apart {
            number.cast_signed()
        } else {
            7
        }
    }
}

/// The call of a word.
fn call_of(word: &str) -> Option<Do<'_>> {
    match word {
        "take" => return Some(Do::Take),
        "total" => return Some(Do::Total),
        "inner" => return Some(Do::Inner),
        "rebuilt" => return Some(Do::Rebuild),
        "bytes" => return Some(Do::Bytes),
        _ => (),
    }
    let (before, after) = word.split_once(':')?;
    match before {
        "cut" => Some(Do::Cut(unsigned(after)?)),
        "cross" => crossing_of(after),
        "turns" => turns_of(after, false),
        "apart" => turns_of(after, true),
        "twins" => Some(Do::Twins(unsigned(after)?)),
        _ => step_of(unsigned(before)?, after),
    }
}

/// The crossing of an end, as `10` or as `10+2`.
fn crossing_of(text: &str) -> Option<Do<'_>> {
    let (end, full) = text.split_once('+').unwrap_or((text, "0"));
    Some(Do::Cross(unsigned(end)?, unsigned(full)?))
}

/// Events in turn, as `100/8`.
fn turns_of(text: &str, are_apart: bool) -> Option<Do<'_>> {
    let (count, keys) = text.split_once('/')?;
    let keys = unsigned(keys)?;
    if keys < 1 || keys > 3000 {
        return None;
    }
    Some(Do::Turns(unsigned(count)?, Turns { keys, are_apart }))
}

/// What happens at a time, as `start=7`.
fn step_of(at: u64, text: &str) -> Option<Do<'_>> {
    let (name, after) = text.split_once('=').unwrap_or((text, "0"));
    let event = match name {
        "start" => PredEvent::Start,
        "stop" => PredEvent::Stop,
        "stop_all" => PredEvent::StopAll,
        "tell" => return Some(Do::Tell(at, after)),
        _ => return None,
    };
    Some(Do::Event(at, event, after.parse::<i32>().ok()?))
}

/// The key with one leaf.
pub fn key_of(alloc: Global, number: i32) -> Result<DimKey, AllocError> {
    let mut dims = DimKey::new(alloc);
    dims.push(Leaf::One(Value::Int(number)))?;
    Ok(dims)
}

/// An output key as a test names it: a number, or a text of one letter that comes so many times.
#[derive(Clone, Copy)]
struct Out<'a> {
    name: &'a str,
    times: usize,
}

/// One change, as `0T9` or as `0T9*4000`.
fn change_of(text: &str) -> Option<(u32, Truth, Out<'_>)> {
    if let Some((place, out)) = text.split_once('T') {
        return told_of(place, Truth::True, out);
    }
    if let Some((place, out)) = text.split_once('U') {
        return told_of(place, Truth::Unknown, out);
    }
    let (place, out) = text.split_once('F')?;
    told_of(place, Truth::False, out)
}

fn told_of<'a>(place: &str, truth: Truth, out: &'a str) -> Option<(u32, Truth, Out<'a>)> {
    let (name, times) = out.split_once('*').unwrap_or((out, "0"));
    let out = Out {
        name,
        times: times.parse::<usize>().ok()?,
    };
    Some((place.parse::<u32>().ok()?, truth, out))
}

/// The key with one leaf that is this one; a number that isn't one is 0.
fn out_key(alloc: Global, out: Out<'_>) -> Result<DimKey, AllocError> {
    if out.times == 0 {
        return key_of(alloc, out.name.parse::<i32>().unwrap_or(0));
    }
    let text = text_of(alloc, first_of(out.name), out.times)?;
    let mut dims = DimKey::new(alloc);
    dims.push(Leaf::One(Value::Str(text)))?;
    Ok(dims)
}

/// The first byte of a name.
fn first_of(name: &str) -> u8 {
    name.as_bytes().first().copied().unwrap_or(0)
}

/// So many equal letters.
fn text_of(alloc: Global, letter: u8, times: usize) -> Result<Bytes, AllocError> {
    let mut text = Seq::new(alloc);
    for _ in 0..times {
        text.push(letter)?;
    }
    Ok(text)
}

/// The delta of some changes; none is the empty text. A change that isn't one is left out, which its row shows.
fn delta_of(alloc: Global, text: &str) -> Result<InnerDelta, AllocError> {
    let mut changes = Seq::new(alloc);
    for word in text.split(',') {
        if let Some((place, truth, out)) = change_of(word) {
            let dims = out_key(alloc, out)?;
            push_change(alloc, &mut changes, place, truth, dims)?;
        }
    }
    Ok(InnerDelta { changes })
}

/// One change more, with an output key of no slices.
pub fn push_change(
    alloc: Global,
    changes: &mut Seq<InnerChange>,
    place: u32,
    truth: Truth,
    dims: DimKey,
) -> Result<(), AllocError> {
    let slices = Seq::new(alloc);
    let out = MetricKey { dims, slices };
    changes.push(InnerChange { place, truth, out })
}

/// What the reports of these calls show, one after the other. Full buckets have a size.
pub fn played<P: Timed + Drop>(
    alloc: Global,
    producer: &mut P,
    size: u64,
    text: &str,
) -> Result<String, AllocError> {
    let mut shown = String::new(alloc);
    for word in text.split_whitespace() {
        match call_of(word) {
            Some(Do::Take) => push_closed(&mut shown, &producer.take())?,
            Some(Do::Total) => push_total(&mut shown, &producer.take())?,
            Some(Do::Inner) => push_inner(&mut shown, producer)?,
            Some(Do::Rebuild) => build_again(alloc, &mut shown, producer)?,
            Some(Do::Bytes) => push_bytes(alloc, &mut shown, producer)?,
            Some(Do::Twins(turns)) => push_twins(alloc, &mut shown, producer, size, turns)?,
            Some(call) => act(alloc, producer, size, call)?,
            None => write!(shown, "no call {word} ")?,
        }
    }
    Ok(shown)
}

/// How many bytes the producer is saved in.
fn push_bytes<P: Timed>(alloc: Global, shown: &mut String, producer: &P) -> Result<(), AllocError> {
    let bytes = producer.saved_in(alloc)?;
    write!(shown, "{bytes} bytes ; ")
}

/// Goes on with what the producer's items build.
fn build_again<P: Timed + Drop>(
    alloc: Global,
    shown: &mut String,
    producer: &mut P,
) -> Result<(), AllocError> {
    match producer.again(alloc) {
        Ok(built) => {
            *producer = built;
            Ok(())
        }
        Err(FlatError::Memory) => Err(AllocError),
        Err(FlatError::Bad) => shown.push_str("not rebuilt "),
    }
}

/// The inner keys, each with the truth that was told of it.
fn push_inner<P: Timed>(shown: &mut String, producer: &P) -> Result<(), AllocError> {
    for place in 0..producer.len() {
        let Some(key) = producer.key(place) else {
            return shown.push_str("no key ");
        };
        push_key(shown, key)?;
        shown.push_str(letter_of(producer.truth(place)))?;
    }
    shown.push_str("; ")
}

fn letter_of(truth: Option<Truth>) -> &'static str {
    match truth {
        Some(Truth::True) => "T ",
        Some(Truth::Unknown) => "U ",
        Some(Truth::False) => "F ",
        None => "- ",
    }
}

/// One call, through the bound that all kinds of metric meet.
fn act<P: Timed>(
    alloc: Global,
    producer: &mut P,
    size: u64,
    call: Do<'_>,
) -> Result<(), AllocError> {
    match call {
        Do::Event(at, event, number) => {
            let key = key_of(alloc, number)?;
            producer.event(at, InnerEvent { event, key })
        }
        Do::Tell(at, changes) => producer.condition(at, delta_of(alloc, changes)?),
        Do::Cross(first_end, full_buckets) => producer.cross(Crossings {
            start: 0,
            first_end,
            full_buckets,
            size,
        }),
        Do::Cut(at) => producer.cut(at),
        Do::Turns(count, turns) => turn(alloc, producer, count, turns),
        Do::Take | Do::Total | Do::Inner | Do::Rebuild | Do::Bytes | Do::Twins(_) => Ok(()),
    }
}

/// So many events: the keys start one after the other, and then they stop, the last one first, again and again.
fn turn<P: Timed>(
    alloc: Global,
    producer: &mut P,
    count: u64,
    turns: Turns,
) -> Result<(), AllocError> {
    for at in 0..count {
        turn_once(alloc, producer, at, turns)?;
    }
    Ok(())
}

/// One of these events.
fn turn_once<P: Timed>(
    alloc: Global,
    producer: &mut P,
    at: u64,
    turns: Turns,
) -> Result<(), AllocError> {
    let keys = turns.keys;
    if keys == 0 {
        return Ok(());
    }
    let step = at % keys;
    if (at / keys) % 2 == 0 {
        let number = small(step);
        return start_one(alloc, producer, at, number, turns.out_of(number));
    }
    let last = keys.saturating_sub(1);
    stop_one(alloc, producer, at, small(last.saturating_sub(step)))
}

/// The number of a key, of which there are far fewer than fit.
pub fn small(number: u64) -> u32 {
    let Ok(small) = u32::try_from(number) else {
        return 0;
    };
    small
}

/// A key starts, as the last one, and is true for this output key.
fn start_one<P: Timed>(
    alloc: Global,
    producer: &mut P,
    at: u64,
    number: u32,
    out: i32,
) -> Result<(), AllocError> {
    give(alloc, producer, at, PredEvent::Start, number)?;
    let mut changes = Seq::new(alloc);
    let out = MetricKey {
        dims: key_of(alloc, out)?,
        slices: Seq::new(alloc),
    };
    changes.push(InnerChange {
        place: number,
        truth: Truth::True,
        out,
    })?;
    producer.condition(at, InnerDelta { changes })
}

/// A key stops, and nothing is told of the others.
fn stop_one<P: Timed>(
    alloc: Global,
    producer: &mut P,
    at: u64,
    number: u32,
) -> Result<(), AllocError> {
    give(alloc, producer, at, PredEvent::Stop, number)?;
    let changes = Seq::new(alloc);
    producer.condition(at, InnerDelta { changes })
}

fn give<P: Timed>(
    alloc: Global,
    producer: &mut P,
    at: u64,
    event: PredEvent,
    number: u32,
) -> Result<(), AllocError> {
    let key = key_of(alloc, number.cast_signed())?;
    producer.event(at, InnerEvent { event, key })
}
