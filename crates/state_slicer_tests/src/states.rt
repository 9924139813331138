//! The rows: steps of a book of states, or slices by a state.
use super::books::run_steps;
use super::slices::run_slices;
use std::alloc::{AllocError, Global};
use test_tools::{Row, Table, Tester};

/// The table of states.
pub struct States;

impl Table for States {
    fn marks(&self) -> &'static str {
        "do rebuilt_at groups slice"
    }

    fn run(&self, alloc: Global, tester: &mut Tester, row: &Row<'_>) -> Result<(), AllocError> {
        if row.has("groups") {
            return run_slices(alloc, tester, row);
        }
        let text = row.text(alloc, "do")?;
        let Some(steps) = tester.written_out(text.as_str())? else {
            return Ok(());
        };
        run_book(alloc, tester, row.word("rebuilt_at"), steps.as_str())
    }
}

/// Runs steps once, or as often as there are places, each time with a book that is rebuilt at another one.
fn run_book(
    alloc: Global,
    tester: &mut Tester,
    rebuilt_at: &str,
    steps: &str,
) -> Result<(), AllocError> {
    match rebuilt_at {
        "" => run_steps(alloc, tester, steps, None),
        "each" => run_each(alloc, tester, steps),
        _ => tester.differs("a word that isn't known", rebuilt_at),
    }
}

fn run_each(alloc: Global, tester: &mut Tester, steps: &str) -> Result<(), AllocError> {
    for place in 0..=steps.split(';').count() {
        run_steps(alloc, tester, steps, Some(place))?;
    }
    Ok(())
}
