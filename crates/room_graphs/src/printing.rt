// Edges and loop heads of graphs as texts.
//
// x is for pointer variables, d for data, `#` for numbers; a field stands behind its base and a dot, a datum behind
// a colon, a choice behind `?`. An edge is written with its line behind `@`.
use c_cfg::graph::{Const, DataArg, Edge, Graph, Instr, PtrArg};
use fore_base::list::List;
use fore_base::memory::Mem;
use fore_base::text::Text;

/// Puts a word and a number.
pub fn put_var(text: &mut Text, kind: &[u8], var: u32) -> Mem<()> {
    text.put(kind)?;
    text.put_number(var as u64)
}

fn put_arg(text: &mut Text, arg: PtrArg) -> Mem<()> {
    match arg {
        PtrArg::Var(var) => put_var(text, b"x", var),
        PtrArg::Null => text.put(b"0"),
    }
}

fn put_data_arg(text: &mut Text, arg: DataArg) -> Mem<()> {
    match arg {
        DataArg::Var(var) => put_var(text, b"d", var),
        DataArg::Known(number) => put_var(text, b"#", number as u32),
    }
}

fn put_field(text: &mut Text, base: u32, dot: &[u8], field: u32) -> Mem<()> {
    put_var(text, b"x", base)?;
    put_var(text, dot, field)
}

fn put_numbers(text: &mut Text, numbers: &List<u32>) -> Mem<()> {
    let mut between: &[u8] = b"";
    for number in numbers.as_slice() {
        put_var(text, between, *number)?;
        between = b",";
    }
    Ok(())
}

fn put_sign(text: &mut Text, equal: bool) -> Mem<()> {
    if equal {
        text.put(b"==")
    } else {
        text.put(b"!=")
    }
}

fn put_pointer_edge(text: &mut Text, instr: &Instr) -> Mem<()> {
    match instr {
        Instr::CopyPtr { to, from } => {
            put_var(text, b"x", *to)?;
            text.put(b"=")?;
            put_arg(text, *from)
        }
        Instr::LoadPtr { to, from, field } => {
            put_var(text, b"x", *to)?;
            text.put(b"=")?;
            put_field(text, *from, b".", *field)
        }
        Instr::StorePtr { to, field, from } => {
            put_field(text, *to, b".", *field)?;
            put_var(text, b"=x", *from)
        }
        Instr::New { to, shape } => {
            put_var(text, b"x", *to)?;
            put_var(text, b"=new", *shape)
        }
        Instr::Free { from } => put_var(text, b"free x", *from),
        Instr::TestPtr { left, right, equal } => {
            put_arg(text, *left)?;
            put_sign(text, *equal)?;
            put_arg(text, *right)
        }
        _ => put_data_edge(text, instr),
    }
}

fn put_data_edge(text: &mut Text, instr: &Instr) -> Mem<()> {
    match instr {
        Instr::StoreConst {
            to,
            field,
            value: Const::Null,
        } => {
            put_field(text, *to, b".", *field)?;
            text.put(b"=0")
        }
        Instr::StoreConst {
            to,
            field,
            value: Const::Known(number),
        } => {
            put_field(text, *to, b":", *field)?;
            put_var(text, b"=#", *number as u32)
        }
        Instr::CopyData { to, from } => {
            put_var(text, b"d", *to)?;
            text.put(b"=")?;
            put_data_arg(text, *from)
        }
        Instr::LoadData { to, from, field } => {
            put_var(text, b"d", *to)?;
            text.put(b"=")?;
            put_field(text, *from, b":", *field)
        }
        Instr::StoreData { to, field, from } => {
            put_field(text, *to, b":", *field)?;
            put_var(text, b"=d", *from)
        }
        Instr::TestData { left, right, equal } => {
            put_data_arg(text, *left)?;
            put_sign(text, *equal)?;
            put_data_arg(text, *right)
        }
        _ => put_other_edge(text, instr),
    }
}

fn put_other_edge(text: &mut Text, instr: &Instr) -> Mem<()> {
    match instr {
        Instr::Kill { ptrs, datums } => {
            text.put(b"kill ")?;
            put_numbers(text, ptrs)?;
            text.put(b"|")?;
            put_numbers(text, datums)
        }
        Instr::Choose { to: Some(to) } => {
            put_var(text, b"d", *to)?;
            text.put(b"=?")
        }
        Instr::Choose { to: None } => text.put(b"?"),
        Instr::Stop { error: true } => text.put(b"error"),
        _ => text.put(b"stop"),
    }
}

fn put_choice(text: &mut Text, instr: &Instr, choice: u8) -> Mem<()> {
    match instr {
        Instr::Choose { .. } => text.put_number(choice as u64),
        _ => put_var(text, b"?", choice as u32),
    }
}

/// Puts an edge.
pub fn put_edge(text: &mut Text, edge: &Edge) -> Mem<()> {
    text.put_number(edge.from as u64)?;
    put_var(text, b"-", edge.to)?;
    text.put(b" ")?;
    put_pointer_edge(text, &edge.instr)?;
    if let Some(choice) = edge.choice {
        put_choice(text, &edge.instr, choice)?;
    }
    put_var(text, b" @", edge.line)?;
    text.put(b";")
}

/// Puts the loop heads.
pub fn put_heads(text: &mut Text, graph: &Graph) -> Mem<()> {
    for location in 0..graph.locations {
        if graph.is_loop_head(location) {
            put_var(text, b"head ", location)?;
            text.put(b";")?;
        }
    }
    Ok(())
}
