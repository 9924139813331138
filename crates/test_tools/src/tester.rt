//! What was found of the rows of a table.
use super::encoder::{Spelled, spell};
use super::hex::push_hex_text;
use super::lets::Lets;
use super::loops::unrolled;
use super::names::Names;
use std::alloc::{AllocError, Global};

/// Most bytes of a difference that are shown.
const MOST_SHOWN: usize = 64;

/// What was found so far: how many rows and cases there were, and a line for each difference.
#[derive(Drop)]
pub struct Tester {
    alloc: Global,
    names: Names,
    lets: Lets,
    /// The name of the row.
    name: String,
    is_different: bool,
    rows: u64,
    /// The cases of the row so far.
    of_row: u64,
    cases: u64,
    different: u64,
    lines: String,
}

impl Tester {
    pub fn new(alloc: Global) -> Result<Tester, AllocError> {
        Ok(Tester {
            alloc,
            names: Names::new(alloc)?,
            lets: Lets::new(alloc)?,
            name: String::new(alloc),
            is_different: false,
            rows: 0,
            of_row: 0,
            cases: 0,
            different: 0,
            lines: String::new(alloc),
        })
    }

    /// Gives a text a name, by a line that tells both.
    pub fn define(&mut self, line: &str) -> Result<(), AllocError> {
        if line.is_empty() {
            return Ok(());
        }
        self.lets.add(line)
    }

    /// Begins a row.
    pub fn begin(&mut self, name: &str) -> Result<(), AllocError> {
        self.name = String::from_str(self.alloc, name)?;
        self.is_different = false;
        self.of_row = 0;
        self.rows = self.rows.saturating_add(1);
        Ok(())
    }

    /// Ends a row.
    pub fn end(&mut self) {
        if self.is_different {
            self.different = self.different.saturating_add(1);
        }
    }

    /// Counts a case of the row.
    pub fn case(&mut self) {
        self.cases = self.cases.saturating_add(1);
        self.of_row = self.of_row.saturating_add(1);
    }

    /// The lines of what differs, and the counts.
    pub fn finish(self) -> Result<String, AllocError> {
        let (rows, cases, different) = (self.rows, self.cases, self.different);
        let mut lines = self.lines;
        writeln!(lines, "{rows} rows, {cases} cases, {different} differ")?;
        Ok(lines)
    }

    /// Tells that the row differs, and how.
    pub fn differs(&mut self, what: &str, how: &str) -> Result<(), AllocError> {
        self.is_different = true;
        let (name, case) = (self.name.as_str(), self.of_row);
        writeln!(self.lines, "{name}: case {case}: {what} {how}")
    }

    /// Tells where something doesn't hold.
    pub fn holds(&mut self, what: &str, holds: bool) -> Result<(), AllocError> {
        if holds {
            return Ok(());
        }
        self.differs(what, "doesn't hold")
    }

    /// Tells where a text isn't the one that is wanted.
    pub fn same_text(&mut self, what: &str, wanted: &str, found: &str) -> Result<(), AllocError> {
        if wanted == found {
            return Ok(());
        }
        self.differs(what, "")?;
        writeln!(self.lines, "    wanted {wanted}\n    found  {found}")
    }

    /// Tells where a number isn't the one that is wanted.
    pub fn same_number(&mut self, what: &str, wanted: u64, found: u64) -> Result<(), AllocError> {
        if wanted == found {
            return Ok(());
        }
        self.differs(what, "")?;
        writeln!(self.lines, "    wanted {wanted}\n    found  {found}")
    }

    /// Tells where bytes aren't those that are wanted.
    pub fn same_bytes(
        &mut self,
        what: &str,
        wanted: &[u8],
        found: &[u8],
    ) -> Result<(), AllocError> {
        if wanted == found {
            return Ok(());
        }
        let at = first_difference(wanted, found);
        self.differs(what, "")?;
        self.push_bytes("wanted", at, wanted)?;
        self.push_bytes("found ", at, found)
    }

    /// A line with some bytes from this place on.
    fn push_bytes(&mut self, what: &str, at: usize, bytes: &[u8]) -> Result<(), AllocError> {
        let len = bytes.len();
        write!(self.lines, "    {what} {len} bytes, from {at} on ")?;
        let rest = bytes.get(at..).unwrap_or(&[]);
        push_hex_text(&mut self.lines, rest.get(..MOST_SHOWN).unwrap_or(rest))?;
        self.lines.push_str("\n")
    }

    /// A text in which names are replaced.
    pub fn expanded(&self, text: &str) -> Result<String, AllocError> {
        self.lets.expanded(text)
    }

    /// A text in which names are replaced and loops written out, or nothing where a loop isn't well formed, which is
    /// told.
    pub fn written_out(&mut self, text: &str) -> Result<Option<String>, AllocError> {
        let flat = self.lets.expanded(text)?;
        let all = unrolled(self.alloc, flat.as_str())?;
        if all.is_none() {
            self.differs("a loop that isn't well formed", "")?;
        }
        Ok(all)
    }

    /// The bytes of a text, or nothing where a word isn't known, which is told.
    pub fn bytes(&mut self, text: &str) -> Result<Option<Vec<u8>>, AllocError> {
        self.bytes_of("", text)
    }

    /// The bytes of a text whose words name fields of a message, or nothing where a word isn't known, which is told.
    pub fn bytes_of(
        &mut self,
        message: &'static str,
        text: &str,
    ) -> Result<Option<Vec<u8>>, AllocError> {
        let flat = self.lets.expanded(text)?;
        match spell(self.alloc, &self.names, flat.as_str(), message)? {
            Spelled::Bytes(bytes) => Ok(Some(bytes)),
            Spelled::Unknown(word) => {
                self.differs("a word that isn't known", word.as_str())?;
                Ok(None)
            }
        }
    }
}

/// The first place at which two rows of bytes differ.
fn first_difference(wanted: &[u8], found: &[u8]) -> usize {
    let mut at = 0_usize;
    for (one, other) in wanted.iter().zip(found) {
        if one != other {
            return at;
        }
        at = at.saturating_add(1);
    }
    at
}
