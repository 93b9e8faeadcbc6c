// Numbered texts, sets of numbers, lists and boxes.

use crate::printing::{put_choice, put_counted, read_numbers};
use anyhow::{Context, Result, bail};
use fore_base::boxed::Boxed;
use fore_base::list::{Copies, List};
use fore_base::marks::{are_all_marked, count_marked, is_some_marked, mark, unmarked};
use fore_base::memory::Mem;
use fore_base::names::Names;
use fore_base::text::Text;
use row_texts::put_between;
use std::alloc::Global;

/// Puts the numbers that texts get, how many there are, and the numbers of others.
pub fn put_names(out: &mut Text, alloc: Global, texts: &str, others: &str) -> Result<()> {
    let mut names = Names::new(alloc);
    put_numbers(out, &mut names, texts)?;
    put_others(out, &names, others)?;
    Ok(())
}

fn put_numbers(out: &mut Text, names: &mut Names, texts: &str) -> Result<()> {
    for text in texts.split(", ") {
        put_number(out, names, text)?;
    }
    Ok(())
}

fn put_others(out: &mut Text, names: &Names, others: &str) -> Mem<()> {
    put_counted(out, b"of ", names.len() as u64)?;
    for other in others.split(", ") {
        put_found(out, names.find(other.as_bytes()))?;
    }
    Ok(())
}

fn put_number(out: &mut Text, names: &mut Names, text: &str) -> Result<()> {
    if names.len() >= 4294967295 {
        bail!("too many texts");
    }
    let number = names.number(text.as_bytes())?;
    out.put_number(number as u64)?;
    out.put(b" ")?;
    Ok(())
}

fn put_found(out: &mut Text, found: Option<u32>) -> Mem<()> {
    match found {
        Some(number) => put_counted(out, b", ", number as u64),
        None => out.put(b", none"),
    }
}

/// Puts how many numbers are marked, and whether all and some of others are.
pub fn put_marks(
    out: &mut Text,
    alloc: Global,
    count: &str,
    numbers: &str,
    others: &str,
) -> Result<()> {
    let mut marks = unmarked(alloc, count.parse::<usize>()?)?;
    set_marks(&mut marks, alloc, numbers)?;
    out.put_number(count_marked(marks.as_slice()) as u64)?;
    put_marked(out, marks.as_slice(), alloc, others)
}

fn set_marks(marks: &mut List<bool>, alloc: Global, numbers: &str) -> Result<()> {
    let numbers = read_numbers(alloc, numbers)?;
    for number in numbers.as_slice() {
        mark(marks, *number);
    }
    Ok(())
}

fn put_marked(out: &mut Text, marks: &[bool], alloc: Global, others: &str) -> Result<()> {
    let others = read_numbers(alloc, plain(others))?;
    let all = are_all_marked(marks, others.as_slice());
    let some = is_some_marked(marks, others.as_slice());
    put_choice(out, all, b", all", b", not all")?;
    put_choice(out, some, b", some", b", none")?;
    Ok(())
}

// Two hyphens stand for no numbers.
fn plain<'a>(text: &'a str) -> &'a str {
    match text {
        "--" => "",
        _ => text,
    }
}

/// Puts what a list becomes by changes, and what is read of it.
pub fn put_list(out: &mut Text, alloc: Global, items: &str, changes: &[&str]) -> Result<()> {
    let items = read_numbers(alloc, items)?;
    let mut list = List::from_slice(alloc, items.as_slice())?;
    for change in changes {
        put_change(out, alloc, &mut list, change)?;
    }
    put_items(out, list.as_slice())?;
    let other = list.copy(alloc)?;
    put_choice(out, list == other, b", equal", b", unequal")?;
    Ok(())
}

// `append ITEM COUNT`, `set PLACE ITEM`, `pop`, and `get PLACE`, which is 0 where the list ends before it.
fn put_change(out: &mut Text, alloc: Global, list: &mut List<u32>, change: &str) -> Result<()> {
    let (word, rest) = change.split_once(' ').unwrap_or((change, ""));
    match word {
        "append" => append_items(alloc, list, rest),
        "set" => set_item(list, rest),
        "pop" => put_popped(out, list.pop()),
        "get" => put_got(out, list, rest),
        _ => bail!("no such change"),
    }
}

fn append_items(alloc: Global, list: &mut List<u32>, rest: &str) -> Result<()> {
    let (item, count) = rest.split_once(' ').context("no count")?;
    let more = List::filled(alloc, item.parse::<u32>()?, count.parse::<usize>()?)?;
    list.append(more)?;
    Ok(())
}

fn set_item(list: &mut List<u32>, rest: &str) -> Result<()> {
    let (place, item) = rest.split_once(' ').context("no item")?;
    list.set_within(place.parse::<usize>()?, item.parse::<u32>()?);
    Ok(())
}

fn put_popped(out: &mut Text, item: Option<u32>) -> Result<()> {
    match item {
        Some(item) => put_counted(out, b"popped ", item as u64)?,
        None => out.put(b"popped none")?,
    }
    out.put(b", ")?;
    Ok(())
}

fn put_got(out: &mut Text, list: &List<u32>, place: &str) -> Result<()> {
    let item = list.get_or(place.parse::<usize>()?, 0);
    put_counted(out, b"got ", item as u64)?;
    out.put(b", ")?;
    Ok(())
}

fn put_items(out: &mut Text, items: &[u32]) -> Mem<()> {
    for (number, item) in items.iter().enumerate() {
        put_between(out, number, b" ")?;
        out.put_number(*item as u64)?;
    }
    Ok(())
}

/// Puts a number that was read in a box, and one that was taken out of an equal box.
pub fn put_boxed(out: &mut Text, alloc: Global, number: &str) -> Result<()> {
    let boxed = Boxed::new(alloc, number.parse::<u32>()?)?;
    let other = boxed.copy(alloc)?;
    put_choice(out, boxed == other, b"equal, ", b"unequal, ")?;
    out.put_number(*boxed.get() as u64)?;
    put_counted(out, b" ", other.into_inner() as u64)?;
    Ok(())
}
