// The types of programs, and the fact that a typed program keeps.

use fore_base::boxed::Boxed;
use fore_base::list::List;
use fore_base::shape::Shapes;
use fore_base::text::Text;
use std::marker::Model;

/// A pointer: a variable, and the pointer fields that lead on from it, each by its number among the pointer fields of
/// the struct that stands there. No field means the variable itself.
#[derive(Drop)]
pub struct Path {
    /// The number of a pointer variable.
    pub var: u32,
    /// Pointer fields, the first arrow first.
    pub fields: List<u32>,
}

/// A datum: a data variable, or the data field of this number of the cell at the end of a path.
#[derive(Drop)]
pub enum DataPath {
    /// The data variable of this number.
    Var(u32),
    /// A data field, by its number among the data fields of its struct.
    Field { base: Path, field: u32 },
}

/// What is assigned to a pointer.
#[derive(Drop)]
pub enum PtrRhs {
    /// The pointer that stands there.
    Path(Path),
    /// The null pointer.
    Null,
    /// `malloc` of the struct of this number.
    New(u32),
}

/// What is assigned to a datum.
#[derive(Drop)]
pub enum DataRhs {
    /// The datum that stands there.
    Path(DataPath),
    /// A number, at most `DATUM`.
    Known(u8),
    /// `__VERIFIER_nondet_bool()`.
    Choice,
}

/// What a statement does.
#[derive(Drop)]
pub enum Act {
    /// An assignment to a pointer (ISO/IEC 9899:2011, 6.5.16.1).
    SetPtr { to: Path, from: PtrRhs },
    /// An assignment to a datum.
    SetData { to: DataPath, from: DataRhs },
    /// `free` of the pointer that stands there (7.22.3.3).
    Free(Path),
    /// A call that reports an error, or a false `assert`.
    Error,
    /// `exit` or `abort` (7.22.4).
    Halt,
    /// `return` of `main`, with the datum that it looks at, if any (6.8.6.4).
    Return(Option<DataPath>),
    /// `return` of the function of this number, with what it returns, if anything (6.8.6.4).
    Leave { func: u32, value: Option<Arg> },
    /// `break` (6.8.6.3).
    Break,
    /// `continue` (6.8.6.2).
    Continue,
}

/// A pointer in a comparison.
#[derive(Drop)]
pub enum PtrOp {
    /// The pointer that stands there.
    Path(Path),
    /// The null pointer.
    Null,
}

/// A datum in a comparison.
#[derive(Drop)]
pub enum DataOp {
    /// The datum that stands there.
    Path(DataPath),
    /// A number, at most `DATUM`.
    Known(u8),
}

/// A variable, by its number among those of its kind.
#[derive(Drop)]
pub enum VarRef {
    /// The pointer variable of this number.
    Ptr(u32),
    /// The data variable of this number.
    Data(u32),
}

/// What is given to a parameter, or returned (6.5.2.2, 6.8.6.4).
#[derive(Drop)]
pub enum Arg {
    /// A pointer.
    Ptr(PtrOp),
    /// A datum.
    Data(DataOp),
}

/// What the result of a call is assigned to (6.5.16.1).
#[derive(Drop)]
pub enum Dest {
    /// A pointer.
    Ptr(Path),
    /// A datum.
    Data(DataPath),
}

/// A test without parts.
#[derive(Drop)]
pub enum Atom {
    /// A call that gives a choice.
    Choice,
    /// A literal.
    Known(bool),
    /// A comparison of pointers, for equal or for not equal (6.5.9).
    Ptr {
        left: PtrOp,
        right: PtrOp,
        equal: bool,
    },
    /// A comparison of data, for equal or for not equal.
    Data {
        left: DataOp,
        right: DataOp,
        equal: bool,
    },
}

/// A condition. The line is that of the atom's first token.
#[derive(Drop)]
pub enum Cond {
    /// A test without parts.
    Atom { atom: Atom, line: u32 },
    /// `!` (6.5.3.3).
    Not(Boxed<Cond>),
    /// `&&` of one part or more.
    All(List<Cond>),
    /// `||` of one part or more.
    Any(List<Cond>),
}

/// A statement. The line is that of its first token, or of the declared name.
#[derive(Drop)]
pub enum Stmt {
    /// A statement without parts.
    Do {
        act: Act,
        line: u32,
    },
    /// `if`, or an `assert`, whose no side is an error (6.8.4.1).
    Branch {
        cond: Cond,
        yes: List<Stmt>,
        no: List<Stmt>,
    },
    /// `while` (6.8.5.1).
    While {
        cond: Cond,
        body: List<Stmt>,
    },
    /// `do` (6.8.5.2).
    DoWhile {
        cond: Cond,
        body: List<Stmt>,
    },
    /// `for`: what it does between its rounds is `next`; what it does first stands before it (6.8.5.3).
    For {
        cond: Cond,
        next: List<Stmt>,
        body: List<Stmt>,
    },
    /// A block, or a `for` that declares: what it holds, the variables that it declares, and the line of its end.
    Group {
        body: List<Stmt>,
        ptrs: List<u32>,
        datums: List<u32>,
        close: u32,
    },
    /// A call of the function of this number, with what is given to its parameters, in order, and what its result is
    /// assigned to, if anything (6.5.2.2).
    Call {
        func: u32,
        args: List<Arg>,
        to: Option<Dest>,
        line: u32,
    },
}

/// A pointer variable: its name, and the number of the struct to which it points.
#[derive(Drop)]
pub struct VarDef {
    /// The variable's name.
    pub name: Text,
    /// The number of a struct.
    pub shape: u32,
}

/// A function besides `main`. No function is ever active twice, so its parameters, its result and its local variables
/// are variables of the program.
#[derive(Drop)]
pub struct Func {
    /// The function's name.
    pub name: Text,
    /// Its parameters, in order.
    pub params: List<VarRef>,
    /// The variables that its body declares.
    pub locals: List<VarRef>,
    /// The variable that holds its result, if it has one.
    pub result: Option<VarRef>,
    /// The one group of its block.
    pub body: List<Stmt>,
}

/// A program: its structs, its pointer and data variables in order of declaration, its functions besides `main` in
/// order of definition, and the one group of main's block.
///
/// Every number in it is in range; each field on a path is one of the struct and kind that stands there; both sides of
/// an assignment or comparison, and a new cell and its target, agree in struct; a known datum is at most `DATUM`; each
/// `&&` and `||` has a part; each `break` and `continue` stands in the body of a loop of its function, and none in what
/// a `for` does between its rounds.
///
/// No function leads by calls to itself. Each call has an argument for each parameter, of its kind and struct, and
/// assigns a result only where there is one, to what is of its kind and struct. A `Leave` stands in the body of its
/// function, with a value of the kind and struct of the result exactly where there is one; a `Return` stands in `main`
/// alone. Parameters, results and local variables of functions are all different; a body names only variables of its
/// own, and no result; the local variables of a function are those that the groups of its body declare.
#[derive(Drop)]
pub struct Typed {
    /// The structs.
    pub shapes: Shapes,
    /// The pointer variables.
    pub vars: List<VarDef>,
    /// The names of the data variables.
    pub data_vars: List<Text>,
    /// The functions besides `main`.
    pub funcs: List<Func>,
    /// The one group of main's block.
    pub body: List<Stmt>,
}

impl Model for Typed {
    ghost use Rattle.std.specs.Prelude.{◌≡◌, true};
    ghost use Rattle.std.specs.Coded.{codes};
    ghost use Rattle.c_types.specs.Program.{Program, is_typed};
    ghost use Rattle.c_types.specs.contracts.program.Stmt as stmt;

    ghost Value = { Program };

    ghost coded = { Prim.hlevel (codes, stmt.the_row.coded) };

    ghost view = { λ p. record {
      shapes = p.shapes;
      vars = p.vars;
      data_vars = p.data_vars;
      funcs = p.funcs;
      body = p.body;
    } };

    ghost invariant = { λ p.
        is_typed
        (record {
          shapes = p.shapes;
          vars = p.vars;
          data_vars = p.data_vars;
          funcs = p.funcs;
          body = p.body;
        }) ≡ true };
}
