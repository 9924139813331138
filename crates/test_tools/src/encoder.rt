//! Bytes by words, none of which has an argument.
use super::entries::{is_entry, push_entry, push_repeated};
use super::loops::unrolled;
use super::names::Names;
use super::numbers::{bits, push_low, push_number, push_varint};
use super::refusal::Refusal;
use super::values::{FieldText, push_field, tag_of};
use std::alloc::{AllocError, Global};
use std::mem;

/// How what is open tells how long it is.
#[derive(Clone, Copy)]
enum Length {
    /// By a tag and a varint, as a message in the field of this number.
    Field(u64),
    /// By so many bytes.
    Bytes(usize),
    /// By so many bytes. It ends at a `;`, or where something else is opened or closed, and the others at a `}`.
    Entries(usize),
}

/// What is open: how it tells its length, and what stands around it.
#[derive(Drop)]
struct Open {
    length: Length,
    message: &'static str,
    outer: Vec<u8>,
}

/// The words that open something.
const OPENINGS: &[(&str, Length)] = &[
    ("len2", Length::Bytes(2)),
    ("len4", Length::Bytes(4)),
    ("len8", Length::Bytes(8)),
    ("entries2", Length::Entries(2)),
    ("entries4", Length::Entries(4)),
];

/// The bytes of the words so far.
#[derive(Drop)]
struct Encoder {
    alloc: Global,
    bytes: Vec<u8>,
    /// The message whose fields the next words name, or none.
    message: &'static str,
    open: Vec<Open>,
}

impl Encoder {
    fn new(alloc: Global, message: &'static str) -> Encoder {
        Encoder {
            alloc,
            bytes: Vec::new(alloc),
            message,
            open: Vec::new(alloc),
        }
    }

    /// Opens something whose fields are those of a message.
    fn begin(&mut self, length: Length, message: &'static str) -> Result<(), AllocError> {
        let open = Open {
            length,
            message: mem::replace(&mut self.message, message),
            outer: mem::replace(&mut self.bytes, Vec::new(self.alloc)),
        };
        self.open.push(open)?;
        Ok(())
    }

    /// Closes what was opened last.
    fn end(&mut self) -> Result<(), Refusal> {
        let Some(open) = self.open.pop() else {
            return Err(Refusal::Word);
        };
        let inner = mem::replace(&mut self.bytes, open.outer);
        self.message = open.message;
        put(&mut self.bytes, open.length, inner.as_slice())?;
        Ok(())
    }

    /// Closes what ends by itself.
    fn end_entries(&mut self) -> Result<(), Refusal> {
        match self.open.last() {
            Some(
                Open {
                    length: Length::Entries(_),
                    ..
                },
            ) => self.end(),
            _ => Ok(()),
        }
    }

    /// Puts the bytes of a word.
    fn push(&mut self, names: &Names, word: &str) -> Result<(), Refusal> {
        if is_entry(word) {
            return push_entry(&mut self.bytes, self.alloc, word);
        }
        if word.starts_with('<') {
            return push_repeated(&mut self.bytes, self.alloc, word);
        }
        if let Some(name) = word.strip_suffix('{') {
            self.end_entries()?;
            return self.push_opening(names, name);
        }
        match word {
            ";" => self.end_entries(),
            "}" => self.close(),
            _ => self.push_named(names, word),
        }
    }

    /// Closes what ends by itself, and what is around it.
    fn close(&mut self) -> Result<(), Refusal> {
        self.end_entries()?;
        self.end()
    }

    /// Puts a field, a number of a type, or what else is said before a `:`.
    fn push_named(&mut self, names: &Names, word: &str) -> Result<(), Refusal> {
        let Some((name, value)) = word.split_once(':') else {
            return Err(Refusal::Word);
        };
        if let Some((number, _)) = self.field_of(names, name) {
            let field = FieldText {
                number,
                name,
                value,
            };
            return push_field(&mut self.bytes, self.alloc, names, field);
        }
        match name {
            "path" => push_path(&mut self.bytes, value),
            "in" => self.name_message(value),
            _ => push_number(&mut self.bytes, name, value),
        }
    }

    /// Takes the fields of another message from here on.
    fn name_message(&mut self, message: &str) -> Result<(), Refusal> {
        self.message = match message {
            "config" => "config",
            "reports" => "reports",
            _ => return Err(Refusal::Word),
        };
        Ok(())
    }

    /// The number of a field of the open message, and the message that it holds. `#17` is the field 17 of any message.
    fn field_of(&self, names: &Names, name: &str) -> Option<(u64, &'static str)> {
        if let Some(digits) = name.strip_prefix('#') {
            return Some((bits(digits)?, ""));
        }
        let field = names.field(self.message, name)?;
        Some((field.number, field.inner))
    }

    fn push_opening(&mut self, names: &Names, name: &str) -> Result<(), Refusal> {
        for &(opening, length) in OPENINGS {
            if opening == name {
                self.begin(length, "")?;
                return Ok(());
            }
        }
        let Some((number, inner)) = self.field_of(names, name) else {
            return Err(Refusal::Word);
        };
        self.begin(Length::Field(number), inner)?;
        Ok(())
    }

    /// Closes what ends by itself at the end of all words. Nothing else may be open.
    fn finish(&mut self) -> Result<(), Refusal> {
        self.end_entries()?;
        if self.open.is_empty() {
            Ok(())
        } else {
            Err(Refusal::Word)
        }
    }
}

/// Puts bytes after their length.
fn put(bytes: &mut Vec<u8>, length: Length, inner: &[u8]) -> Result<(), AllocError> {
    put_length(bytes, length, inner.len() as u64)?;
    bytes.extend_from_slice(inner)
}

/// Puts a length.
fn put_length(bytes: &mut Vec<u8>, length: Length, len: u64) -> Result<(), AllocError> {
    match length {
        Length::Field(number) => {
            push_varint(bytes, tag_of(number, 2))?;
            push_varint(bytes, len)
        }
        Length::Bytes(width) | Length::Entries(width) => push_low(bytes, len, width),
    }
}

/// Puts how many numbers a path has, and the numbers, which stand between points. A point alone is the empty path.
fn push_path(bytes: &mut Vec<u8>, path: &str) -> Result<(), Refusal> {
    if path == "." {
        return push_number(bytes, "u8", "0");
    }
    push_low(bytes, path.split('.').count() as u64, 1)?;
    for number in path.split('.') {
        push_number(bytes, "u32", number)?;
    }
    Ok(())
}

/// What a text stands for.
#[derive(Drop)]
pub enum Spelled {
    Bytes(Vec<u8>),
    /// The first word that isn't known.
    Unknown(String),
}

/// The bytes of a text whose words name fields of a message, or none.
pub fn spell(
    alloc: Global,
    names: &Names,
    text: &str,
    message: &'static str,
) -> Result<Spelled, AllocError> {
    let Some(flat) = unrolled(alloc, text)? else {
        return unknown(alloc, "for");
    };
    spell_flat(alloc, names, flat.as_str(), message)
}

/// The bytes of a text that has no loops.
fn spell_flat(
    alloc: Global,
    names: &Names,
    text: &str,
    message: &'static str,
) -> Result<Spelled, AllocError> {
    let mut encoder = Encoder::new(alloc, message);
    for word in text.split_whitespace() {
        match encoder.push(names, word) {
            Ok(()) => {}
            Err(Refusal::Memory) => return Err(AllocError),
            Err(Refusal::Word) => return unknown(alloc, word),
        }
    }
    match encoder.finish() {
        Ok(()) => Ok(Spelled::Bytes(encoder.bytes)),
        Err(Refusal::Memory) => Err(AllocError),
        Err(Refusal::Word) => unknown(alloc, "the end"),
    }
}

fn unknown(alloc: Global, word: &str) -> Result<Spelled, AllocError> {
    Ok(Spelled::Unknown(String::from_str(alloc, word)?))
}

/// The words of a text.
pub fn words_of<'a>(alloc: Global, text: &'a str) -> Result<Vec<&'a str>, AllocError> {
    let mut words = Vec::new(alloc);
    for word in text.split_whitespace() {
        words.push(word)?;
    }
    Ok(words)
}
