//! Rows of a table.
use super::loops::push_plain;
use std::alloc::{AllocError, Global};

/// A row: its name, and lines that begin with a mark. A line that begins with a blank goes on with the line before it,
/// and one that begins with `#` is a comment.
#[derive(Clone, Copy)]
pub struct Row<'a> {
    pub name: &'a str,
    block: &'a str,
}

impl<'a> Row<'a> {
    /// The row of a block of lines, if one of them is no comment.
    pub fn of(block: &'a str) -> Option<Row<'a>> {
        for line in block.lines() {
            if !is_passed_over(line) {
                return Some(Row { name: line, block });
            }
        }
        None
    }

    /// All lines.
    pub fn block(&self) -> &'a str {
        self.block
    }

    /// Whether a line has this mark.
    pub fn has(&self, mark: &str) -> bool {
        self.line(mark).is_some()
    }

    /// What stands behind a mark in the first line that has it.
    pub fn line(&self, mark: &str) -> Option<&'a str> {
        for line in self.block.lines() {
            let (found, rest) = marked(line);
            if found == mark && line != self.name {
                return Some(rest);
            }
        }
        None
    }

    /// What stands behind a mark in the first line that has it, or nothing.
    pub fn word(&self, mark: &str) -> &'a str {
        self.line(mark).unwrap_or("")
    }

    /// What stands behind a mark in all lines that have it, with a blank after each.
    pub fn text(&self, alloc: Global, mark: &str) -> Result<String, AllocError> {
        let mut text = String::new(alloc);
        let mut is_meant = false;
        for line in self.block.lines() {
            is_meant = is_meant_by(self.name, mark, line, is_meant);
            push_on(&mut text, line, is_meant)?;
        }
        Ok(text)
    }

    /// The first mark that isn't one of these words.
    pub fn other_mark(&self, marks: &str) -> Option<&'a str> {
        for line in self.block.lines() {
            let (mark, _) = marked(line);
            if is_marked(line) && line != self.name && !has_word(marks, mark) {
                return Some(mark);
            }
        }
        None
    }
}

/// Whether a line is empty or a comment.
fn is_passed_over(line: &str) -> bool {
    line.is_empty() || line.starts_with('#')
}

/// Whether a line begins with a mark.
fn is_marked(line: &str) -> bool {
    !is_passed_over(line) && !line.starts_with(' ')
}

/// The mark of a line, and the rest.
fn marked(line: &str) -> (&str, &str) {
    line.split_once(' ').unwrap_or((line, ""))
}

fn has_word(words: &str, word: &str) -> bool {
    for each in words.split(' ') {
        if each == word {
            return true;
        }
    }
    false
}

/// Whether a line has this mark, or goes on with one that has it.
fn is_meant_by(name: &str, mark: &str, line: &str, was_meant: bool) -> bool {
    if line.starts_with(' ') {
        return was_meant;
    }
    let (found, _) = marked(line);
    found == mark && line != name
}

/// Puts what stands behind the mark of a line that is meant.
fn push_on(text: &mut String, line: &str, is_meant: bool) -> Result<(), AllocError> {
    if !is_meant {
        return Ok(());
    }
    let (_, rest) = marked(line);
    push_plain(text, rest.trim())
}
