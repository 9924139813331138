//! Texts by name, with arguments. `let NAME = TEXT` is a text without them. Of `let NAME 2 = TEXT` each use takes the
//! two words after it, which stand for `@1` and `@2` in it.
use super::encoder::words_of;
use super::loops::push_plain;
use std::alloc::{AllocError, Global};

/// The frames of sessions and the replies to them.
const FRAMES: &str = "\
    tick 1 = len4{ <01> u64:@1 }\n\
    atom 2 = entries4{ <02> u64:@1 u32:@2\n\
    pull 4 = len4{ <03> u64:@1 u32:@2 <00> u16:@3\n\
    payload 1 = entries2{ u32:@1\n\
    pull_failed 2 = len4{ <03> u64:@1 u32:@2 <01> }\n\
    install 3 = len4{ <10> i32:@1 i64:@2 in:config\n\
    remove 2 = len4{ <11> i32:@1 i64:@2 }\n\
    report 2 = len4{ <12> i32:@1 i64:@2 <00> }\n\
    cut 2 = len4{ <12> i32:@1 i64:@2 <01> }\n\
    installed 2 = len8{ <01> i32:@1 i64:@2 }\n\
    replaced 3 = len8{ <08> i32:@1 i64:@2 in:reports key{ uid:@1 id:@2 }\n\
    refused_large 3 = len8{ <03> i32:@1 i64:@2 <01> u32:@3 }\n\
    refused_wire 4 = len8{ <03> i32:@1 i64:@2 <02> u8:@3 u32:@4 }\n\
    refused_unsupported 3 = len8{ <03> i32:@1 i64:@2 <03> path:@3 }\n\
    refused_link 5 = len8{ <03> i32:@1 i64:@2 <04> u8:@3 u8:@4 i64:@5 }\n\
    removed 3 = len8{ <09> i32:@1 i64:@2 in:reports key{ uid:@1 id:@2 }\n\
    no_config 2 = len8{ <05> i32:@1 i64:@2 }\n\
    reported 3 = len8{ <06> i32:@1 i64:@2 in:reports key{ uid:@1 id:@2 }\n\
    client_full 3 = len8{ <07> i32:@1 i64:@2 u32:@3 }\n";

/// The names of arguments.
const PLACES: &[&str] = &["1", "2", "3", "4", "5", "6"];

/// A text, its name, and how many words after it belong to it.
#[derive(Drop)]
struct Let {
    name: String,
    count: usize,
    text: String,
}

/// The texts that have names.
#[derive(Drop)]
pub struct Lets {
    alloc: Global,
    all: Vec<Let>,
}

impl Lets {
    pub fn new(alloc: Global) -> Result<Lets, AllocError> {
        let mut lets = Lets {
            alloc,
            all: Vec::new(alloc),
        };
        for line in FRAMES.lines() {
            lets.add(line)?;
        }
        Ok(lets)
    }

    /// Gives a text a name, by a line that tells both. The names in the text are those given before.
    pub fn add(&mut self, line: &str) -> Result<(), AllocError> {
        let (head, text) = line.split_once(" = ").unwrap_or((line, ""));
        let (name, count) = head.split_once(' ').unwrap_or((head, "0"));
        let named = Let {
            name: String::from_str(self.alloc, name)?,
            count: count.parse::<usize>().unwrap_or(0),
            text: self.expanded(text)?,
        };
        self.all.push(named)?;
        Ok(())
    }

    /// A text in which names are replaced by what they stand for.
    pub fn expanded(&self, text: &str) -> Result<String, AllocError> {
        let words = words_of(self.alloc, text)?;
        let mut flat = String::new(self.alloc);
        let mut taken = 0_usize;
        for (at, word) in words.as_slice().iter().enumerate() {
            if taken > 0 {
                taken -= 1;
            } else {
                taken = self.push(&mut flat, word, rest_of(words.as_slice(), at))?;
            }
        }
        Ok(flat)
    }

    /// Puts what a word stands for, and tells how many words after it belong to it.
    fn push(&self, flat: &mut String, word: &str, rest: &[&str]) -> Result<usize, AllocError> {
        for named in &self.all {
            if named.name.as_str() == word {
                push_body(flat, named.text.as_str(), rest)?;
                return Ok(named.count);
            }
        }
        push_plain(flat, word)?;
        Ok(0)
    }
}

/// The words after a place.
fn rest_of<'a>(words: &'a [&'a str], at: usize) -> &'a [&'a str] {
    words.get(at.saturating_add(1)..).unwrap_or(&[])
}

/// Puts the words of a text, with their arguments.
fn push_body(flat: &mut String, text: &str, rest: &[&str]) -> Result<(), AllocError> {
    for word in text.split_whitespace() {
        push_filled(flat, word, rest)?;
    }
    Ok(())
}

/// Puts a word with its arguments.
fn push_filled(flat: &mut String, word: &str, rest: &[&str]) -> Result<(), AllocError> {
    let (head, tail) = word.split_once('@').unwrap_or((word, ""));
    if head.len() == word.len() {
        return push_plain(flat, word);
    }
    flat.push_str(head)?;
    push_argument(flat, tail, rest)?;
    flat.push_str(" ")
}

/// Puts the argument whose place begins a text, and the rest of the text. What has no argument stays.
fn push_argument(flat: &mut String, tail: &str, rest: &[&str]) -> Result<(), AllocError> {
    for (place, argument) in PLACES.iter().zip(rest) {
        if let Some(more) = tail.strip_prefix(*place) {
            flat.push_str(argument)?;
            return flat.push_str(more);
        }
    }
    flat.push_str("@")?;
    flat.push_str(tail)
}
