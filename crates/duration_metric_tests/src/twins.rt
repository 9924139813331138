//! Two producers that get the same calls, taken by chance: one is never saved, and the other is built from its items
//! after each call.
use super::calls::{Timed, key_of, push_change, small};
use super::shown::push_closed;
use atom_record::DimKey;
use bucket_clock::Crossings;
use duration_metric::{InnerChange, InnerDelta, InnerEvent};
use flat_form::FlatError;
use predicate_state::{PredEvent, Truth};
use sd_base::Seq;
use std::alloc::{AllocError, Global};

/// How far the calls have come, and the number by which the next one is taken.
#[derive(Clone, Copy)]
struct Walk {
    state: u64,
    at: u64,
    next_end: u64,
    size: u64,
    /// Whether an event came of which the condition wasn't told.
    is_owed: bool,
}

/// A kind of call.
#[derive(Clone, Copy)]
enum Turn {
    /// Something happens to an inner key.
    Act(PredEvent),
    /// Changes are told.
    Tell,
    /// Time passes.
    Pass,
    /// A report cuts the open part.
    Cut,
    /// A report is made.
    Take,
}

impl Walk {
    /// Before any call. Full buckets have a size.
    fn new(size: u64) -> Walk {
        Walk {
            state: 20_211_008,
            at: 0,
            next_end: size,
            size,
            is_owed: false,
        }
    }

    /// A number below this one, or 0.
    fn below(&mut self, end: u64) -> u64 {
        let state = self.state.wrapping_mul(6_364_136_223_846_793_005);
        self.state = state.wrapping_add(1_442_695_040_888_963_407);
        (self.state >> 33).checked_rem(end).unwrap_or(0)
    }

    /// The next call: a condition where one is owed, and else one by chance.
    fn turn(&mut self) -> Turn {
        if self.is_owed {
            self.is_owed = false;
            return Turn::Tell;
        }
        turn_of(self.below(16))
    }

    /// Some time passes.
    fn pass(&mut self) {
        self.at = self.at.saturating_add(self.below(6));
    }

    /// What the time that passed crosses, if it came to an end.
    fn crossed(&mut self) -> Option<Crossings> {
        let first_end = self.next_end;
        if self.at < first_end {
            return None;
        }
        let over = self.at.saturating_sub(first_end);
        let full_buckets = over.checked_div(self.size).unwrap_or(0);
        let turns = full_buckets.saturating_add(1);
        self.next_end = first_end.saturating_add(turns.saturating_mul(self.size));
        Some(Crossings {
            start: 0,
            first_end,
            full_buckets,
            size: self.size,
        })
    }

    /// One of six inner keys.
    fn inner_key(&mut self, alloc: Global) -> Result<DimKey, AllocError> {
        let number = small(self.below(6));
        key_of(alloc, number.cast_signed())
    }

    /// One of three output keys.
    fn out_key(&mut self, alloc: Global) -> Result<DimKey, AllocError> {
        let number = small(self.below(3));
        key_of(alloc, number.cast_signed())
    }

    /// One of three truths, mostly a true one.
    fn truth(&mut self) -> Truth {
        match self.below(4) {
            0 => Truth::False,
            1 => Truth::Unknown,
            _ => Truth::True,
        }
    }
}

/// The kind of a number below 16.
fn turn_of(number: u64) -> Turn {
    match number {
        0..5 => Turn::Act(PredEvent::Start),
        5..8 => Turn::Act(PredEvent::Stop),
        8 => Turn::Act(PredEvent::StopAll),
        9..11 => Turn::Tell,
        11..14 => Turn::Pass,
        14 => Turn::Cut,
        _ => Turn::Take,
    }
}

/// So many calls of this producer and of one that its items build. What each call shows of both is compared.
pub fn push_twins<P: Timed + Drop>(
    alloc: Global,
    shown: &mut String,
    uncut: &mut P,
    size: u64,
    turns: u64,
) -> Result<(), AllocError> {
    if are_alike(alloc, uncut, size, turns)? {
        return write!(shown, "{turns} alike ; ");
    }
    shown.push_str("not alike ; ")
}

fn are_alike<P: Timed + Drop>(
    alloc: Global,
    uncut: &mut P,
    size: u64,
    turns: u64,
) -> Result<bool, AllocError> {
    match uncut.again(alloc) {
        Ok(mut built) => go_alike(alloc, uncut, &mut built, size, turns),
        Err(FlatError::Memory) => Err(AllocError),
        Err(FlatError::Bad) => Ok(false),
    }
}

fn go_alike<P: Timed + Drop>(
    alloc: Global,
    uncut: &mut P,
    built: &mut P,
    size: u64,
    turns: u64,
) -> Result<bool, AllocError> {
    let mut walk = Walk::new(size);
    for _ in 0..turns {
        if !is_next_alike(alloc, uncut, built, &mut walk)? {
            return Ok(false);
        }
    }
    Ok(true)
}

/// Whether the next call shows the same of both, and the second one is built from its items after it.
fn is_next_alike<P: Timed + Drop>(
    alloc: Global,
    uncut: &mut P,
    built: &mut P,
    walk: &mut Walk,
) -> Result<bool, AllocError> {
    let mut again = *walk;
    let mine = shown_by(alloc, uncut, walk)?;
    let others = shown_by(alloc, built, &mut again)?;
    if mine.as_str() != others.as_str() {
        return Ok(false);
    }
    go_on(alloc, built)
}

/// Goes on with what the producer's items build. The answer is whether something is built.
fn go_on<P: Timed + Drop>(alloc: Global, producer: &mut P) -> Result<bool, AllocError> {
    match producer.again(alloc) {
        Ok(next) => {
            *producer = next;
            Ok(true)
        }
        Err(FlatError::Memory) => Err(AllocError),
        Err(FlatError::Bad) => Ok(false),
    }
}

/// What the next call shows.
fn shown_by<P: Timed>(
    alloc: Global,
    producer: &mut P,
    walk: &mut Walk,
) -> Result<String, AllocError> {
    let mut shown = String::new(alloc);
    step(alloc, producer, walk, &mut shown)?;
    Ok(shown)
}

fn step<P: Timed>(
    alloc: Global,
    producer: &mut P,
    walk: &mut Walk,
    shown: &mut String,
) -> Result<(), AllocError> {
    match walk.turn() {
        Turn::Act(event) => act(alloc, producer, walk, event),
        Turn::Tell => tell(alloc, producer, walk),
        Turn::Pass => pass(producer, walk),
        Turn::Cut => producer.cut(walk.at),
        Turn::Take => push_closed(shown, &producer.take()),
    }
}

fn act<P: Timed>(
    alloc: Global,
    producer: &mut P,
    walk: &mut Walk,
    event: PredEvent,
) -> Result<(), AllocError> {
    walk.is_owed = true;
    let key = walk.inner_key(alloc)?;
    producer.event(walk.at, InnerEvent { event, key })
}

fn pass<P: Timed>(producer: &mut P, walk: &mut Walk) -> Result<(), AllocError> {
    walk.pass();
    let Some(crossings) = walk.crossed() else {
        return Ok(());
    };
    producer.cross(crossings)
}

fn tell<P: Timed>(alloc: Global, producer: &mut P, walk: &mut Walk) -> Result<(), AllocError> {
    let changes = changes_by(alloc, producer, walk)?;
    producer.condition(walk.at, InnerDelta { changes })
}

/// What is told: of each key of which nothing was told, and of one of four others.
fn changes_by<P: Timed>(
    alloc: Global,
    producer: &P,
    walk: &mut Walk,
) -> Result<Seq<InnerChange>, AllocError> {
    let mut changes = Seq::new(alloc);
    for place in 0..producer.len() {
        if producer.truth(place).is_none() || walk.below(4) == 0 {
            change_at(alloc, &mut changes, small(place as u64), walk)?;
        }
    }
    Ok(changes)
}

fn change_at(
    alloc: Global,
    changes: &mut Seq<InnerChange>,
    place: u32,
    walk: &mut Walk,
) -> Result<(), AllocError> {
    let truth = walk.truth();
    let dims = walk.out_key(alloc)?;
    push_change(alloc, changes, place, truth, dims)
}
