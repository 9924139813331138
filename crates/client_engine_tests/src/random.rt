//! Random steps, the same in each run.
use std::alloc::{AllocError, Global};
use test_tools::unsigned;

/// A quarter of a second.
const QUARTER: u64 = 250_000_000;

/// A source of steps: how many matchers there are, and what time it is.
#[derive(Drop)]
struct Dice {
    state: u64,
    matchers: u64,
    at: u64,
}

/// So many random steps, by how many matchers there are, as `6 200`.
pub fn random_steps(alloc: Global, words: &str) -> Result<String, AllocError> {
    let (matchers, steps) = words.split_once(' ').unwrap_or((words, ""));
    let mut dice = Dice {
        state: 1,
        matchers: unsigned(matchers).unwrap_or(0),
        at: 0,
    };
    let mut text = String::new(alloc);
    for _ in 0..unsigned(steps).unwrap_or(0) {
        dice.put_step(&mut text)?;
    }
    Ok(text)
}

impl Dice {
    fn number(&mut self) -> u64 {
        let state = self.state.wrapping_mul(6_364_136_223_846_793_005);
        self.state = state.wrapping_add(1_442_695_040_888_963_407);
        self.state >> 24
    }

    fn put_step(&mut self, text: &mut String) -> Result<(), AllocError> {
        let passed = (self.number() % 4).saturating_mul(QUARTER);
        self.at = self.at.saturating_add(passed);
        let at = self.at;
        match self.number() % 16 {
            0 => write!(text, "ticks {at} ; "),
            1 => write!(text, "fails {at} ; "),
            2 => write!(text, "slept {at} ; "),
            3 => write!(text, "slept-to-pull {at} ; "),
            4 => write!(text, "ticks {at} ; shows {at} any ; "),
            5 => write!(text, "fails {at} ; cuts {at} any ; "),
            6 | 7 => self.put_pull(text),
            8 => self.put_state(text),
            _ => self.put_atom(text),
        }
    }

    /// A pull of two atoms.
    fn put_pull(&mut self, text: &mut String) -> Result<(), AllocError> {
        write!(text, "pulls {} 10001", self.at)?;
        self.put_entries(text)?;
        text.push_str(" / 10001")?;
        self.put_entries(text)?;
        text.push_str(" ; ")
    }

    /// An atom that tells a state.
    fn put_state(&mut self, text: &mut String) -> Result<(), AllocError> {
        let state = self.number() % 3;
        write!(text, "sees {} ", self.at)?;
        self.put_truths(text)?;
        write!(text, " 27 1=int:{state},exclusive ; ")
    }

    fn put_atom(&mut self, text: &mut String) -> Result<(), AllocError> {
        write!(text, "sees {} ", self.at)?;
        self.put_truths(text)?;
        text.push_str(" 5")?;
        self.put_entries(text)?;
        text.push_str(" ; ")
    }

    /// The truth of each matcher.
    fn put_truths(&mut self, text: &mut String) -> Result<(), AllocError> {
        for _ in 0..self.matchers {
            text.push_str(if self.number() % 3 == 0 { "t" } else { "f" })?;
        }
        Ok(())
    }

    fn put_entries(&mut self, text: &mut String) -> Result<(), AllocError> {
        let (first, second) = (self.number() % 4, self.number() % 3);
        write!(text, " 1=int:{first} 2=int:{second}")
    }
}
