//! Sessions of many clients in an order by chance.
use std::alloc::{AllocError, Global};
use test_tools::{Row, Tester, unsigned};

/// A frame, and the client whose command it is; none of the log has one.
#[derive(Drop)]
pub struct Step {
    pub client: Option<u64>,
    pub bytes: Vec<u8>,
}

impl Step {
    /// Whether it is of the log or a command of the client.
    pub fn is_of(&self, client: u64) -> bool {
        match self.client {
            None => true,
            Some(of) => of == client,
        }
    }
}

/// How many clients a session has, and how many frames.
#[derive(Clone, Copy)]
pub struct Size {
    pub clients: u64,
    pub frames: u64,
}

impl Size {
    /// The size that a text tells by two numbers.
    pub fn of(text: &str) -> Option<Size> {
        let (clients, frames) = text.split_once(' ')?;
        Some(Size {
            clients: unsigned(clients)?,
            frames: unsigned(frames)?,
        })
    }
}

/// Numbers that look like chance, the same at each run.
#[derive(Drop)]
struct Chance {
    last: u64,
}

impl Chance {
    /// A number below another, or 0.
    fn below(&mut self, end: u64) -> u64 {
        self.last = self
            .last
            .wrapping_mul(6_364_136_223_846_793_005)
            .wrapping_add(1_442_695_040_888_963_407);
        (self.last >> 33).checked_rem(end).unwrap_or(0)
    }

    /// A client of so many, or none for a frame of the log, which each third is.
    fn client(&mut self, clients: u64) -> Option<u64> {
        if self.below(3) == 0 {
            return None;
        }
        Some(self.below(clients).saturating_add(1))
    }

    /// One of the words of a text.
    fn word<'a>(&mut self, text: &'a str) -> &'a str {
        let mut left = self.below(count_words(text));
        for word in text.split(' ') {
            if left == 0 {
                return word;
            }
            left = left.saturating_sub(1);
        }
        text
    }
}

/// How many words a text has.
pub fn count_words(text: &str) -> u64 {
    let mut count = 0_u64;
    for _ in text.split(' ') {
        count = count.saturating_add(1);
    }
    count
}

/// A session of such a size by the words of a row, or nothing where one of them isn't known, which is told.
pub fn session(
    alloc: Global,
    tester: &mut Tester,
    row: &Row<'_>,
    size: Size,
) -> Result<Option<Vec<Step>>, AllocError> {
    let mut steps = Vec::new(alloc);
    let is_known = push_steps(alloc, tester, row, size, &mut steps)?;
    Ok(if is_known { Some(steps) } else { None })
}

/// Puts the steps of a session, up to one with a word that isn't known. Answers whether all are there.
fn push_steps(
    alloc: Global,
    tester: &mut Tester,
    row: &Row<'_>,
    size: Size,
    steps: &mut Vec<Step>,
) -> Result<bool, AllocError> {
    let mut chance = Chance { last: 1 };
    for at in 0..size.frames {
        let client = chance.client(size.clients);
        let text = text_of(alloc, row, at, client, &mut chance)?;
        if !push_step(tester, steps, client, text.as_str())? {
            return Ok(false);
        }
    }
    Ok(true)
}

/// Puts the frame of a text. Answers whether its words are known.
fn push_step(
    tester: &mut Tester,
    steps: &mut Vec<Step>,
    client: Option<u64>,
    text: &str,
) -> Result<bool, AllocError> {
    let Some(bytes) = tester.bytes(text)? else {
        return Ok(false);
    };
    steps.push(Step { client, bytes })?;
    Ok(true)
}

/// The words of a frame: of the log with its time and one of two numbers, or of a client with one of two ids.
fn text_of(
    alloc: Global,
    row: &Row<'_>,
    at: u64,
    client: Option<u64>,
    chance: &mut Chance,
) -> Result<String, AllocError> {
    match client {
        None => {
            let (word, number) = (row.word("log"), chance.below(2).saturating_add(3));
            format!(in alloc; "{word} {at} {number}")
        }
        Some(client) => {
            let (word, id) = (
                chance.word(row.word("do")),
                chance.below(2).saturating_add(7),
            );
            format!(in alloc; "{word} {client} {id}")
        }
    }
}
