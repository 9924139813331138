//! What a watch is told, by its words.
use super::shown::key_of;
use alert_watch::AlertWatch;
use std::alloc::{AllocError, Global};
use test_tools::unsigned;

/// One thing that a watch is told.
#[derive(Clone, Copy)]
pub enum Step {
    /// A key arrives at a time.
    Key(u64, i32),
    /// So many parts end.
    Ends(u64),
}

/// The step of some words, as `key 1 7` or `ends 2`. Times are below 2^63, and a part at least ends.
pub fn step_of(text: &str) -> Option<Step> {
    let (name, rest) = text.split_once(' ')?;
    match name {
        "key" => key_step(rest),
        "ends" => ends_step(rest),
        _ => None,
    }
}

fn key_step(text: &str) -> Option<Step> {
    let (time, number) = text.split_once(' ')?;
    Some(Step::Key(unsigned(time)?, number.parse::<i32>().ok()?))
}

fn ends_step(text: &str) -> Option<Step> {
    Some(Step::Ends(unsigned(text)?))
}

/// Tells a watch. The answer is whether such a step may be told.
pub fn tell(alloc: Global, watch: &mut AlertWatch, step: Step) -> Result<bool, AllocError> {
    match step {
        Step::Key(at, number) => {
            if at >= 1 << 63 {
                return Ok(false);
            }
            let key = key_of(alloc, number)?;
            watch.arrive(at, &key)?;
            Ok(true)
        }
        Step::Ends(parts) => {
            if parts < 1 {
                return Ok(false);
            }
            watch.close(parts);
            Ok(true)
        }
    }
}
