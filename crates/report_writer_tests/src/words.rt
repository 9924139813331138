//! Parts of trees as words.
use atom_record::{Bytes, Slice, Value};
use report_writer::{LeafTree, Part, PartBody};
use sd_base::Seq;
use std::alloc::Global;
use test_tools::{Refusal, push_hex, signed, unsigned};

/// A number of 32 bits.
pub fn small(word: &str) -> Option<u32> {
    u32::try_from(unsigned(word)?).ok()
}

/// The two numbers of a word, as `0..1h`.
pub fn range_of(word: &str) -> Option<(u64, u64)> {
    let (first, second) = word.split_once("..")?;
    Some((unsigned(first)?, unsigned(second)?))
}

/// A leaf of a key, as `1=int:-1`: its place and its value, or `-` where there is none.
pub fn leaf_of(alloc: Global, word: &str) -> Result<LeafTree, Refusal> {
    let Some((digits, text)) = word.split_once('=') else {
        return Err(Refusal::Word);
    };
    let Some(place) = small(digits) else {
        return Err(Refusal::Word);
    };
    if text == "-" {
        return Ok(LeafTree { place, value: None });
    }
    let value = value_of(alloc, text)?;
    Ok(LeafTree {
        place,
        value: Some(value),
    })
}

/// A value, as `int:-1`, `str:"ab"` or `raw:<ff00>`.
fn value_of(alloc: Global, text: &str) -> Result<Value, Refusal> {
    let Some((kind, rest)) = text.split_once(':') else {
        return Err(Refusal::Word);
    };
    match kind {
        "str" => Ok(Value::Str(bytes_of(alloc, rest)?)),
        "raw" => Ok(Value::Raw(bytes_of(alloc, rest)?)),
        _ => match number_of(kind, rest) {
            Some(value) => Ok(value),
            None => Err(Refusal::Word),
        },
    }
}

/// A value that is a number.
fn number_of(kind: &str, word: &str) -> Option<Value> {
    match kind {
        "int" => Some(Value::Int(word.parse::<i32>().ok()?)),
        "long" => Some(Value::Long(word.parse::<i64>().ok()?)),
        "bits" => Some(Value::Bits32(word.parse::<u32>().ok()?)),
        "bool" => truth_of(word),
        _ => None,
    }
}

fn truth_of(word: &str) -> Option<Value> {
    match word {
        "true" => Some(Value::Bool(true)),
        "false" => Some(Value::Bool(false)),
        _ => None,
    }
}

/// The bytes of `"text"` or `<hex>`.
fn bytes_of(alloc: Global, text: &str) -> Result<Bytes, Refusal> {
    if let Some(letters) = inside(text, "\"", "\"") {
        return Ok(Seq::from_slice(alloc, letters.as_bytes())?);
    }
    let Some(hex) = inside(text, "<", ">") else {
        return Err(Refusal::Word);
    };
    let mut bytes = Vec::new(alloc);
    push_hex(&mut bytes, hex)?;
    Ok(Seq::from_vec(bytes))
}

/// What stands between two marks.
fn inside<'a>(word: &'a str, begin: &str, end: &str) -> Option<&'a str> {
    word.strip_prefix(begin)?.strip_suffix(end)
}

/// A slice, as `{27=-1}` by a state, or `{29:3}` by a group of states.
pub fn slice_of(word: &str) -> Option<Slice> {
    let inner = inside(word, "{", "}")?;
    if let Some((id, digits)) = inner.split_once('=') {
        let (atom_id, value) = (small(id)?, digits.parse::<i32>().ok()?);
        return Some(Slice::Plain { atom_id, value });
    }
    let (id, digits) = inner.split_once(':')?;
    let (atom_id, group) = (small(id)?, signed(digits)?);
    Some(Slice::Group { atom_id, group })
}

/// A field of an atom, as `.1=num:7`, `.2=chunk:"ab"` or `.3=bits:1`.
pub fn part_of(alloc: Global, word: &str) -> Result<Part, Refusal> {
    let Some((digits, text)) = word.split_once('=') else {
        return Err(Refusal::Word);
    };
    let Some(number) = digits.strip_prefix('.').and_then(small) else {
        return Err(Refusal::Word);
    };
    let body = body_of(alloc, text)?;
    Ok(Part { number, body })
}

fn body_of(alloc: Global, text: &str) -> Result<PartBody, Refusal> {
    let Some((kind, rest)) = text.split_once(':') else {
        return Err(Refusal::Word);
    };
    if kind == "chunk" {
        return Ok(PartBody::Chunk(bytes_of(alloc, rest)?));
    }
    match (kind, unsigned(rest), small(rest)) {
        ("num", Some(number), _) => Ok(PartBody::Num(number)),
        ("bits", _, Some(bits)) => Ok(PartBody::Bits(bits)),
        _ => Err(Refusal::Word),
    }
}
