//! Items that are no producer's, or one's.
use super::calls::{Timed, key_of};
use duration_metric::{MaxProducer, SumProducer};
use flat_form::{Flat, FlatError, Item, Items, spelled_len};
use sd_base::Seq;
use std::alloc::{AllocError, Global};
use test_tools::{Row, Tester, unsigned};

/// The items of a text: numbers, the leaves of a key after a `k`, and `s` for no slices.
fn items_of(alloc: Global, text: &str) -> Result<Items, AllocError> {
    let mut items = Items::new(alloc);
    for word in text.split_whitespace() {
        items.push(item_of(alloc, word)?)?;
    }
    Ok(items)
}

fn item_of(alloc: Global, word: &str) -> Result<Item, AllocError> {
    if word == "s" {
        return Ok(Item::Slices(Seq::new(alloc)));
    }
    match word.strip_prefix('k') {
        Some(key) => Ok(Item::Dims(key_of(alloc, key.parse::<i32>().unwrap_or(0))?)),
        None => Ok(Item::Num(unsigned(word).unwrap_or(0))),
    }
}

/// How many bytes the items of a value are spelled with.
pub fn bytes_of<T: Flat>(alloc: Global, value: &T) -> Result<u64, AllocError> {
    let mut items = Items::new(alloc);
    value.flatten(alloc, &mut items)?;
    Ok(spelled_len(&items))
}

/// Builds the producer of a row's items, and compares what it is, or that there is none.
pub fn run_built(alloc: Global, tester: &mut Tester, row: &Row<'_>) -> Result<(), AllocError> {
    let text = row.text(alloc, "items")?;
    let Some(text) = tester.written_out(text.as_str())? else {
        return Ok(());
    };
    let items = items_of(alloc, text.as_str())?;
    let found = if row.has("longest") {
        built_text::<MaxProducer>(alloc, &items)?
    } else {
        built_text::<SumProducer>(alloc, &items)?
    };
    tester.case();
    tester.same_text("built", row.word("built"), found.as_str())
}

/// What is built of items, as `14 with 1 inner keys`.
fn built_text<P: Timed + Flat + Drop>(alloc: Global, items: &Items) -> Result<String, AllocError> {
    match P::build(alloc, items, 0) {
        Ok((producer, next)) => {
            let keys = producer.len();
            format!(in alloc; "{next} with {keys} inner keys")
        }
        Err(FlatError::Bad) => String::from_str(alloc, "Bad"),
        Err(FlatError::Memory) => Err(AllocError),
    }
}
