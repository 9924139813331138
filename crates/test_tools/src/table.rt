//! Tables: rows that stand apart by an empty line.
use super::rows::Row;
use super::tester::Tester;
use std::alloc::{AllocError, Global};

/// What the rows of a table are asked.
pub trait Table {
    /// The marks that lines of rows may have, with blanks between them.
    fn marks(&self) -> &'static str;

    /// Runs a row, and tells where it differs.
    fn run(&self, alloc: Global, tester: &mut Tester, row: &Row<'_>) -> Result<(), AllocError>;
}

/// Runs the rows of a text, and tells which differ and how many rows there are. A block of lines `let NAME = TEXT` is
/// no row.
pub fn told<T: Table>(alloc: Global, table: &T, text: &str) -> Result<String, AllocError> {
    let mut tester = Tester::new(alloc)?;
    for block in text.split("\n\n") {
        if let Some(row) = Row::of(block) {
            run_block(alloc, table, &mut tester, &row)?;
        }
    }
    tester.finish()
}

fn run_block<T: Table>(
    alloc: Global,
    table: &T,
    tester: &mut Tester,
    row: &Row<'_>,
) -> Result<(), AllocError> {
    if row.name.starts_with("let ") {
        return define(alloc, tester, row);
    }
    tester.begin(row.name)?;
    match row.other_mark(table.marks()) {
        Some(mark) => tester.differs("a line that isn't known", mark)?,
        None => table.run(alloc, tester, row)?,
    }
    tester.end();
    Ok(())
}

/// Gives the texts of a block their names. A line that begins with a blank goes on with the text before it.
fn define(alloc: Global, tester: &mut Tester, block: &Row<'_>) -> Result<(), AllocError> {
    let mut text = String::new(alloc);
    for line in block.block().lines() {
        if let Some(begin) = line.strip_prefix("let ") {
            tester.define(text.as_str())?;
            text = String::from_str(alloc, begin)?;
        } else {
            push_line(&mut text, line)?;
        }
    }
    tester.define(text.as_str())
}

fn push_line(text: &mut String, line: &str) -> Result<(), AllocError> {
    if line.starts_with('#') {
        return Ok(());
    }
    text.push_str(" ")?;
    text.push_str(line)
}
