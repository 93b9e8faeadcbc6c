//! Rows of the words of the command line.
//!
//! - `words | WORDS`: what these words ask, or `usage`. Two quotes stand for the empty word, and `\e` for no words.
//! - `usage | LINES`: the usage text.
#![tactic(auto)]

use anyhow::{Context, Result, bail};
use c_types::mode::MallocMode;
use fore_base::memory::Mem;
use fore_words::{Asked, FilePath, Kind, Settings, WordsFault, read_words, usage_text};
use std::alloc::Global;

/// The answer to a row of this head and these texts.
pub fn answer(alloc: Global, head: &str, texts: &[&str]) -> Result<String> {
    let text = texts.first().context("no text")?;
    match head {
        "words" => words(alloc, text),
        "usage" => usage(alloc),
        _ => bail!("no such kind"),
    }
}

fn words(alloc: Global, text: &str) -> Result<String> {
    let words = words_of(alloc, text)?;
    match read_words(alloc, words.as_slice()) {
        Ok(asked) => shown(alloc, &asked),
        Err(WordsFault::Usage) => Ok(String::from_str(alloc, "usage")?),
        Err(WordsFault::Memory) => bail!("want of memory"),
    }
}

fn words_of(alloc: Global, text: &str) -> Mem<Vec<String>> {
    let mut all = Vec::new(alloc);
    if text == "\\e" {
        return Ok(all);
    }
    for word in text.split(' ') {
        all.push(String::from_str(alloc, plain(word))?)?;
    }
    Ok(all)
}

fn plain<'a>(word: &'a str) -> &'a str {
    match word {
        "''" => "",
        _ => word,
    }
}

fn shown(alloc: Global, asked: &Asked<'_>) -> Result<String> {
    match asked {
        Asked::Verify {
            path,
            boxes,
            settings,
        } => verify_shown(alloc, path.as_str(), boxes.as_ref(), *settings),
        Asked::Run {
            path,
            choices,
            steps,
            malloc,
        } => Ok(format!(in alloc;
            "run {:?} choices {:?} steps {steps}{}",
            path.as_str(),
            choices.as_slice(),
            shown_mode(*malloc)
        )?),
        Asked::Gen { kind, phases } => { Ok(format!(in alloc; "gen {} {phases}", name_of(*kind))?) }
    }
}

fn verify_shown(
    alloc: Global,
    path: &str,
    boxes: Option<&FilePath<'_>>,
    settings: Settings,
) -> Result<String> {
    let Settings {
        height,
        budget,
        jobs,
        malloc,
    } = settings;
    let mode = shown_mode(malloc);
    match boxes {
        Some(boxes) => {
            let boxes = boxes.as_str();
            Ok(format!(in alloc;
                "verify {path:?} boxes {boxes:?} height {height} budget {budget} jobs {jobs}{mode}"
            )?)
        }
        None => Ok(format!(in alloc;
            "verify {path:?} height {height} budget {budget} jobs {jobs}{mode}"
        )?),
    }
}

/// What is shown of a `malloc` that may fail.
fn shown_mode(mode: MallocMode) -> &'static str {
    match mode {
        MallocMode::Always => "",
        MallocMode::MayFail => " malloc may fail",
    }
}

fn name_of(kind: Kind) -> &'static str {
    match kind {
        Kind::ListPhases => "list",
        Kind::DllPhases => "dll",
        Kind::TreePhases => "tree",
    }
}

fn usage(alloc: Global) -> Result<String> {
    let text = str::from_utf8(usage_text())
        .ok()
        .context("bytes that are no text")?;
    Ok(format!(in alloc; "{text:?}")?)
}
