// One line after another.
ghost use Rattle.std.specs.Prelude.{◌≡◌, [], ◌∷◌, Some};
ghost use Rattle.fa_written.specs.Forms as forms;
ghost use Rattle.fa_written.specs.inner.Moves as read;
ghost use Rattle.fa_written.specs.inner.Moves.{Gives};

use crate::draft::{BoxDraft, Head, OpenBox, PartDraft, Reading, RuleDraft};
use crate::unfit::Unfit;
use fa_lines::line::{Line, Term};
use fore_base::list::List;
use fore_base::text::Text;
use std::alloc::Global;

fn outside(alloc: Global, boxes: List<BoxDraft>, number: u32, line: Line) -> Result<Reading, Unfit>
    ensures { Gives result (read.outside boxes number line) }
{
    match line {
        Line::Skipped => Ok(Reading {
            boxes,
            current: None,
        }),
        Line::Opens {
            name,
            input,
            output,
        } => {
            let head = Head {
                line: number,
                name,
                input,
                output,
            };
            let parts = List::new(alloc);
            Ok(Reading {
                boxes,
                current: Some(OpenBox { head, parts }),
            })
        }
        Line::Root(_, _) | Line::Rule(_, _) | Line::Ends => Err(Unfit::Other),
    }
}

/// The components with a rule more in the last one.
#[tactic(auto, using(crate::proofs::MoveLemmas::rule_put))]
fn rule_last(parts: List<PartDraft>, rule: RuleDraft) -> Result<List<PartDraft>, Unfit>
    ensures { Gives result (read.rule_last rule parts) }
{
    let mut parts = parts;
    match parts.pop() {
        None => Err(Unfit::Other),
        Some(last) => {
            let PartDraft {
                line,
                roots,
                mut rules,
            } = last;
            rules.push(rule)?;
            parts.push(PartDraft { line, roots, rules })?;
            Ok(parts)
        }
    }
}

fn root(
    alloc: Global,
    boxes: List<BoxDraft>,
    current: OpenBox,
    number: u32,
    root: u32,
    roots: List<u32>,
) -> Result<Reading, Unfit>
    ensures { Gives result (read.inside boxes current number (read.root_line root roots)) }
{
    let OpenBox { head, mut parts } = current;
    if root as usize != parts.len() {
        return Err(Unfit::Other);
    }
    let rules = List::new(alloc);
    parts.push(PartDraft {
        line: number,
        roots,
        rules,
    })?;
    Ok(Reading {
        boxes,
        current: Some(OpenBox { head, parts }),
    })
}

fn rule(
    boxes: List<BoxDraft>,
    current: OpenBox,
    number: u32,
    state: u32,
    term: Term,
) -> Result<Reading, Unfit>
    ensures { Gives result (read.inside boxes current number (read.rule_line_of state term)) }
{
    let OpenBox { head, parts } = current;
    let rule = RuleDraft {
        line: number,
        state,
        term,
    };
    let parts = rule_last(parts, rule)?;
    Ok(Reading {
        boxes,
        current: Some(OpenBox { head, parts }),
    })
}

fn port_count(output: &Option<Text>) -> usize
    ensures { result ≡ forms.port_count output.now }
{
    match output {
        None => 1,
        Some(_) => 2,
    }
}

fn end(boxes: List<BoxDraft>, current: OpenBox, number: u32) -> Result<Reading, Unfit>
    ensures { Gives result (read.inside boxes current number read.end_line) }
{
    let OpenBox { head, parts } = current;
    if port_count(&head.output) > parts.len() {
        return Err(Unfit::Other);
    }
    let mut boxes = boxes;
    boxes.push(BoxDraft {
        head,
        parts,
        end: number,
    })?;
    Ok(Reading {
        boxes,
        current: None,
    })
}

fn inside(
    alloc: Global,
    boxes: List<BoxDraft>,
    current: OpenBox,
    number: u32,
    line: Line,
) -> Result<Reading, Unfit>
    ensures { Gives result (read.inside boxes current number line) }
{
    match line {
        Line::Skipped => Ok(Reading {
            boxes,
            current: Some(current),
        }),
        Line::Opens { .. } => Err(Unfit::Other),
        Line::Root(number_of_root, roots) => root(
            alloc,
            boxes,
            current,
            number,
            number_of_root,
            roots,
        ),
        Line::Rule(state, term) => rule(boxes, current, number, state, term),
        Line::Ends => end(boxes, current, number),
    }
}

/// What is read with one line more.
#[tactic(auto, unfolding(crate::specs::inner::Moves::moved))]
pub fn moved(alloc: Global, reading: Reading, number: u32, line: Line) -> Result<Reading, Unfit>
    ensures { Gives result (read.moved reading number line) }
{
    let Reading { boxes, current } = reading;
    match current {
        None => outside(alloc, boxes, number, line),
        Some(current) => inside(alloc, boxes, current, number, line),
    }
}
