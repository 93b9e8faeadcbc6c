// Items as texts: each part with the offset of its first token behind `@`, the two sides of an `if` in square
// brackets.
use c_ast::{
    And, Arrow, Block, Call, Cond, Data, Declarator, Declare, Field, First, Head, Item, Name,
    Operand, Param, Params, Part, Path, ReturnType, Rhs, Simple, Size, Stmt, Test, Unary,
};
use fore_base::boxed::Boxed;
use fore_base::memory::Mem;
use fore_base::place::Place;
use fore_base::text::Text;
use row_texts::put_between;

/// Puts a word and an offset.
fn put_at(out: &mut Text, word: &[u8], at: &Place) -> Mem<()> {
    out.put(word)?;
    out.put(b"@")?;
    out.put_number(u64::from(at.offset))
}

fn put_name(out: &mut Text, name: &Name) -> Mem<()> {
    put_at(out, name.text.as_slice(), &name.at)
}

fn put_arrow(out: &mut Text, arrow: &Arrow) -> Mem<()> {
    put_at(out, b"->", &arrow.at)?;
    put_name(out, &arrow.field)
}

fn put_path(out: &mut Text, path: &Path) -> Mem<()> {
    put_name(out, &path.head)?;
    for arrow in path.arrows.as_slice() {
        put_arrow(out, arrow)?;
    }
    Ok(())
}

#[cycle(shown_operand)]
fn put_call(out: &mut Text, call: &Call) -> Mem<()> {
    put_name(out, &call.name)?;
    out.put(b"(")?;
    put_operands(out, call.operands.as_slice())?;
    out.put(b")")
}

#[cycle(shown_operand)]
fn put_operands(out: &mut Text, operands: &[Operand]) -> Mem<()> {
    for (number, operand) in operands.iter().enumerate() {
        put_between(out, number, b",")?;
        put_operand(out, operand)?;
    }
    Ok(())
}

#[cycle(shown_operand)]
fn put_operand(out: &mut Text, operand: &Operand) -> Mem<()> {
    match operand {
        Operand::Path(path) => put_path(out, path),
        Operand::Call(call) => put_call(out, call),
        Operand::Number(name) => put_name(out, name),
        Operand::Null { at } => put_at(out, b"NULL", at),
        Operand::True { at } => put_at(out, b"true", at),
        Operand::False { at } => put_at(out, b"false", at),
    }
}

#[cycle(shown_cond)]
fn put_cond(out: &mut Text, cond: &Cond) -> Mem<()> {
    for (number, and) in cond.ands.as_slice().iter().enumerate() {
        put_between(out, number, b"||")?;
        put_and(out, and)?;
    }
    Ok(())
}

#[cycle(shown_cond)]
fn put_and(out: &mut Text, and: &And) -> Mem<()> {
    for (number, test) in and.tests.as_slice().iter().enumerate() {
        put_between(out, number, b"&&")?;
        put_test(out, test)?;
    }
    Ok(())
}

#[cycle(shown_cond)]
fn put_test(out: &mut Text, test: &Test) -> Mem<()> {
    match test {
        Test::Compare { left, equal, right } => {
            put_operand(out, left)?;
            out.put(if *equal { b"==" } else { b"!=" })?;
            put_operand(out, right)
        }
        Test::Unary(unary) => put_unary(out, unary),
    }
}

#[cycle(shown_cond)]
fn put_unary(out: &mut Text, unary: &Unary) -> Mem<()> {
    match unary {
        Unary::Not { at, unary } => {
            put_at(out, b"!", at)?;
            put_unary(out, unary.get())
        }
        Unary::Bracket { at, cond } => {
            put_at(out, b"(", at)?;
            put_cond(out, cond)?;
            out.put(b")")
        }
        Unary::Operand(operand) => put_operand(out, operand),
    }
}

fn put_size(out: &mut Text, size: &Size) -> Mem<()> {
    match size {
        Size::Struct { at, name } => {
            put_at(out, b"sizeof struct", at)?;
            put_name(out, name)
        }
        Size::Bracketed { at, star, path } => {
            put_at(out, b"sizeof()", at)?;
            put_at(out, b"*", star)?;
            put_path(out, path)
        }
        Size::Bare { at, star, path } => {
            put_at(out, b"sizeof", at)?;
            put_at(out, b"*", star)?;
            put_path(out, path)
        }
    }
}

fn put_rhs(out: &mut Text, rhs: &Rhs) -> Mem<()> {
    match rhs {
        Rhs::Operand(operand) => put_operand(out, operand),
        Rhs::Malloc { cast, at, size } => {
            if let Some(cast) = cast {
                put_at(out, b"cast", &cast.at)?;
                put_name(out, &cast.name)?;
            }
            put_at(out, b"malloc", at)?;
            put_size(out, size)
        }
    }
}

fn put_simple(out: &mut Text, simple: &Simple) -> Mem<()> {
    match simple {
        Simple::Assign { to, from } => {
            put_path(out, to)?;
            out.put(b"=")?;
            put_rhs(out, from)
        }
        Simple::Call(call) => put_call(out, call),
        Simple::Free { at, path } => {
            put_at(out, b"free", at)?;
            put_path(out, path)
        }
    }
}

fn put_data(out: &mut Text, data: &Data) -> Mem<()> {
    match data {
        Data::Int { at } => put_at(out, b"int", at),
        Data::Enum { at, name } => {
            put_at(out, b"enum", at)?;
            put_name(out, name)
        }
    }
}

fn put_declarators(out: &mut Text, vars: &[Declarator]) -> Mem<()> {
    for declarator in vars {
        out.put(b" ")?;
        put_name(out, &declarator.name)?;
        if let Some(from) = &declarator.from {
            out.put(b"=")?;
            put_rhs(out, from)?;
        }
    }
    Ok(())
}

fn put_declare(out: &mut Text, declare: &Declare) -> Mem<()> {
    match declare {
        Declare::Pointers { at, name, vars } => {
            put_at(out, b"struct", at)?;
            put_name(out, name)?;
            put_declarators(out, vars.as_slice())
        }
        Declare::Datums { data, vars } => {
            put_data(out, data)?;
            put_declarators(out, vars.as_slice())
        }
    }
}

fn put_first(out: &mut Text, first: &First) -> Mem<()> {
    match first {
        First::Declare(declare) => put_declare(out, declare),
        First::Simple(simple) => put_simple(out, simple),
        First::Nothing => Ok(()),
    }
}

/// Puts the head of a `for`.
fn put_for(
    out: &mut Text,
    first: &First,
    cond: &Option<Cond>,
    next: &Option<Boxed<Simple>>,
) -> Mem<()> {
    put_first(out, first)?;
    out.put(b";")?;
    if let Some(cond) = cond {
        put_cond(out, cond)?;
    }
    out.put(b";")?;
    if let Some(next) = next {
        put_simple(out, next.get())?;
    }
    out.put(b")")
}

#[cycle(shown_stmt)]
fn put_block(out: &mut Text, block: &Block) -> Mem<()> {
    put_at(out, b"{", &block.at)?;
    for part in block.parts.as_slice() {
        out.put(b" ")?;
        put_part(out, part)?;
    }
    put_at(out, b" }", &block.close)
}

#[cycle(shown_stmt)]
fn put_part(out: &mut Text, part: &Part) -> Mem<()> {
    match part {
        Part::Declare(declare) => put_declare(out, declare),
        Part::Stmt(stmt) => put_stmt(out, stmt),
    }
}

/// Puts a condition in brackets.
fn put_closed(out: &mut Text, cond: &Cond) -> Mem<()> {
    out.put(b"(")?;
    put_cond(out, cond)?;
    out.put(b")")
}

#[cycle(shown_stmt)]
fn put_stmt(out: &mut Text, stmt: &Stmt) -> Mem<()> {
    match stmt {
        Stmt::Block(block) => put_block(out, block),
        Stmt::If {
            at,
            cond,
            then,
            other,
        } => {
            put_at(out, b"if", at)?;
            put_closed(out, cond)?;
            out.put(b"[")?;
            put_stmt(out, then.get())?;
            if let Some(other) = other {
                out.put(b" else ")?;
                put_stmt(out, other.get())?;
            }
            out.put(b"]")
        }
        Stmt::While { at, cond, body } => {
            put_at(out, b"while", at)?;
            put_closed(out, cond)?;
            put_stmt(out, body.get())
        }
        Stmt::Do { at, body, cond } => {
            put_at(out, b"do", at)?;
            out.put(b" ")?;
            put_stmt(out, body.get())?;
            put_closed(out, cond)
        }
        Stmt::For {
            at,
            first,
            cond,
            next,
            body,
        } => {
            put_at(out, b"for", at)?;
            out.put(b"(")?;
            put_for(out, first.get(), cond, next)?;
            put_stmt(out, body.get())
        }
        _ => put_flat(out, stmt),
    }
}

/// Puts a statement that has no other in it.
fn put_flat(out: &mut Text, stmt: &Stmt) -> Mem<()> {
    match stmt {
        Stmt::Empty { at } => put_at(out, b";", at),
        Stmt::Simple(simple) => put_simple(out, simple.get()),
        Stmt::Break { at } => put_at(out, b"break", at),
        Stmt::Continue { at } => put_at(out, b"continue", at),
        Stmt::Assert { at, cond } => {
            put_at(out, b"assert", at)?;
            put_closed(out, cond)
        }
        Stmt::Return { at, operand } => {
            put_at(out, b"return", at)?;
            match operand {
                Some(operand) => put_operand(out, operand),
                None => Ok(()),
            }
        }
        _ => Ok(()),
    }
}

fn put_names(out: &mut Text, names: &[Name]) -> Mem<()> {
    for name in names {
        out.put(b" ")?;
        put_name(out, name)?;
    }
    Ok(())
}

fn put_field(out: &mut Text, field: &Field) -> Mem<()> {
    match field {
        Field::Pointers { at, name, fields } => {
            put_at(out, b" struct", at)?;
            put_name(out, name)?;
            put_names(out, fields.as_slice())
        }
        Field::Datums { data, fields } => {
            out.put(b" ")?;
            put_data(out, data)?;
            put_names(out, fields.as_slice())
        }
    }
}

fn put_param(out: &mut Text, param: &Param) -> Mem<()> {
    match param {
        Param::Pointer { at, shape, name } => {
            put_at(out, b" struct", at)?;
            put_name(out, shape)?;
            put_name(out, name)
        }
        Param::Datum { data, name } => {
            out.put(b" ")?;
            put_data(out, data)?;
            put_name(out, name)
        }
    }
}

fn put_gives(out: &mut Text, gives: &ReturnType) -> Mem<()> {
    match gives {
        ReturnType::Void { at } => put_at(out, b"void", at),
        ReturnType::Data(data) => put_data(out, data),
        ReturnType::Pointer { at, name } => {
            put_at(out, b"struct", at)?;
            put_name(out, name)
        }
    }
}

fn put_head(out: &mut Text, head: &Head) -> Mem<()> {
    put_gives(out, &head.gives)?;
    out.put(b" ")?;
    put_name(out, &head.name)?;
    match &head.params {
        None => Ok(()),
        Some(Params::Void { at }) => put_at(out, b" void", at),
        Some(Params::List(params)) => {
            for param in params.as_slice() {
                put_param(out, param)?;
            }
            Ok(())
        }
    }
}

/// Puts an item.
pub fn put_item(out: &mut Text, item: &Item) -> Mem<()> {
    match item {
        Item::Struct { at, name, fields } => {
            put_at(out, b"struct", at)?;
            put_name(out, name)?;
            if let Some(fields) = fields {
                for field in fields.as_slice() {
                    put_field(out, field)?;
                }
            }
            Ok(())
        }
        Item::Enum { at, name, values } => {
            put_at(out, b"enum", at)?;
            put_name(out, name)?;
            put_names(out, values.as_slice())
        }
        Item::Proto { outer, head } => {
            if let Some(at) = outer {
                put_at(out, b"extern", at)?;
            }
            put_head(out, head)
        }
        Item::Function { head, body } => {
            put_head(out, head)?;
            put_block(out, body)
        }
        Item::Declare(declare) => put_declare(out, declare),
    }
}
