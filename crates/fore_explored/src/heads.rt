// The lines that begin nodes.
ghost use Rattle.std.specs.Prelude.{◌≡◌, ◌++◌, ◌∷◌, [], codes, decimal, flat_map, OnOk};
ghost use Rattle.fore_explored.specs.Texts as spec;

use c_cfg::graph::Edge;
use fix_core::nodes::NodeHead;
use fore_base::memory::Mem;
use fore_base::text::Text;

/// A number, where there is one, and else a hyphen.
pub fn put_number_word(text: &mut Text, number: Option<u32>) -> Mem<()>
    ensures { OnOk result (text.new ≡ text.old ++ spec.number_word number) }
{
    match number {
        None => text.put(b"-"),
        Some(number) => text.put_number(number as u64),
    }
}

fn widened(choice: Option<u8>) -> Option<u32>
    ensures { result ≡ choice }
{
    match choice {
        None => None,
        Some(choice) => Some(choice as u32),
    }
}

/// The line in the file of the edge of this number, 0 where there is no such edge.
fn line_at(edges: &[Edge], number: u32) -> u32
    ensures { result ≡ spec.line_at edges.now number }
{
    match edges.get(number as usize) {
        Some(edge) => edge.line,
        None => 0,
    }
}

/// The node from which an edge came, and the edge, with a space before each word.
fn put_parent(text: &mut Text, parent: u32, edge: u32) -> Mem<()>
    ensures { OnOk result (text.new ≡ text.old
        ++ flat_map (λ w. codes " " ++ w) (codes "from" ∷ decimal parent ∷ codes "edge" ∷ decimal edge ∷ [])) }
{
    text.put(b" from ")?;
    text.put_number(parent as u64)?;
    text.put(b" edge ")?;
    text.put_number(edge as u64)?;
    Ok(())
}

/// A line in the file, and a choice, with a space before each word.
fn put_step(text: &mut Text, line: u32, choice: Option<u8>) -> Mem<()>
    ensures { OnOk result (text.new ≡ text.old
        ++ flat_map (λ w. codes " " ++ w)
        (codes "line" ∷ decimal line ∷ codes "choice" ∷ spec.number_word choice ∷ [])) }
{
    text.put(b" line ")?;
    text.put_number(line as u64)?;
    text.put(b" choice ")?;
    put_number_word(text, widened(choice))?;
    Ok(())
}

/// How a node was reached by an edge, with a space before each word.
fn put_edge(text: &mut Text, edges: &[Edge], parent: u32, edge: u32, choice: Option<u8>) -> Mem<()>
    ensures { OnOk result (text.new ≡ text.old
        ++ flat_map (λ w. codes " " ++ w) (spec.edge_words edges.now parent edge choice)) }
{
    put_parent(text, parent, edge)?;
    put_step(text, line_at(edges, edge), choice)?;
    Ok(())
}

/// How a node was reached, with a space before each word.
fn put_origin(text: &mut Text, edges: &[Edge], head: &NodeHead) -> Mem<()>
    ensures { OnOk result (text.new ≡ text.old ++ flat_map (λ w. codes " " ++ w)
        (spec.origin_words edges.now head.now.parent head.now.edge head.now.choice)) }
{
    match head.parent {
        None => text.put(b" start"),
        Some(parent) => match head.edge {
            None => text.put(b" start"),
            Some(edge) => put_edge(text, edges, parent, edge, head.choice),
        },
    }
}

/// The line that begins the node of this number.
pub fn put_head(text: &mut Text, edges: &[Edge], number: u32, head: &NodeHead) -> Mem<()>
    ensures { OnOk result (text.new ≡ text.old ++ spec.head_line edges.now number head.now) }
{
    text.put(b"node ")?;
    text.put_number(number as u64)?;
    text.put(b" loc ")?;
    text.put_number(head.location as u64)?;
    put_origin(text, edges, head)?;
    text.put(b"\n")?;
    Ok(())
}
