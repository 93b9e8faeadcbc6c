// The functions that a unit defines, of each name the first, and what heads say.
ghost use Rattle.std.specs.Prelude.{◌≡◌, ◌∷◌, ◌++◌, [], List, map, cond, IfOk, OnOk};
ghost use Rattle.c_ast.specs.declared.items.Head.{Head as AHead};
ghost use Rattle.c_typing.specs.Globals.{function_heads, function_name, function_of, functions_in, head_name, is_main};
ghost use Rattle.c_typing.specs.Globals.{main_head, maybe_function_of, param_kind, params_of, result_kind};
ghost use Rattle.c_typing.specs.Texts.{firsts};

use c_ast::{Head, Item, Param, Params, ReturnType};
pub use c_callees::is_main;
use c_callees::main_head;
use c_names::naming;
use c_typing::{FunctionDef, Kind};
use fore_base::list::{Copies, List};
use fore_base::memory::{Mem, beside};
use fore_base::names::Names;
use std::alloc::Global;

/// The parameters in brackets.
pub fn params_of(params: &Option<Params>) -> &[Param]
    ensures { result.now ≡ params_of params.now }
{
    match params {
        None | Some(Params::Void { .. }) => &[],
        Some(Params::List(params)) => params.as_slice(),
    }
}

/// What a function gives; `structs` are the names of all structs.
pub fn result_kind(structs: &Names, gives: &ReturnType) -> Option<Kind>
    ensures { result ≡ result_kind structs.now gives.now }
{
    match gives {
        ReturnType::Void { .. } => None,
        ReturnType::Data(_) => Some(Kind::Datum),
        ReturnType::Pointer { name, .. } => {
            Some(Kind::Points(naming::find(structs, name.text.as_slice())))
        }
    }
}

/// What a parameter holds; `structs` are the names of all structs.
pub fn param_kind(structs: &Names, param: &Param) -> Kind
    ensures { result ≡ param_kind structs.now param.now }
{
    match param {
        Param::Pointer { shape, .. } => Kind::Points(naming::find(structs, shape.text.as_slice())),
        Param::Datum { .. } => Kind::Datum,
    }
}

/// Functions besides `main`, and their names.
#[derive(Drop)]
pub struct Functions {
    pub names: Names,
    pub functions: List<FunctionDef>,
}

impl Functions {
    /// The functions of the items; `structs` are the names of all structs.
    pub fn of(alloc: Global, structs: &Names, items: &[Item]) -> Mem<Functions>
        ensures names { IfOk result (λ f. f.names ≡ map function_name f.functions) }
        ensures functions { IfOk result (λ f. f.functions
            ≡ map (function_of structs.now) (function_heads items.now)) }
    {
        let mut all = Functions {
            names: Names::new(alloc),
            functions: List::new(alloc),
        };
        for item in items {
            all.add_item(alloc, structs, item)?;
        }
        Ok(all)
    }

    fn add_item(&mut self, alloc: Global, structs: &Names, item: &Item) -> Mem<()>
        requires { self.old.names ≡ map function_name self.old.functions }
        ensures names { OnOk result (self.new.names ≡ map function_name self.new.functions) }
        ensures ok { OnOk result ((rest : List AHead)
            → self.new.functions ++ map (function_of structs.now) (firsts head_name self.new.names rest)
            ≡ self.old.functions
            ++ map (function_of structs.now) (firsts head_name self.old.names (functions_in item.now ++ rest))) }
    {
        match item {
            Item::Function { head, .. } => self.add_head(alloc, structs, head),
            Item::Struct { .. } | Item::Enum { .. } | Item::Proto { .. } | Item::Declare(_) => Ok(
                (),
            ),
        }
    }

    fn add_head(&mut self, alloc: Global, structs: &Names, head: &Head) -> Mem<()>
        requires { self.old.names ≡ map function_name self.old.functions }
        ensures names { OnOk result (self.new.names ≡ map function_name self.new.functions) }
        ensures ok { OnOk result ((rest : List AHead)
            → self.new.functions ++ map (function_of structs.now) (firsts head_name self.new.names rest)
            ≡ self.old.functions
            ++ map (function_of structs.now)
            (firsts head_name self.old.names (cond (is_main head.now) [] (head.now ∷ []) ++ rest))) }
    {
        if is_main(head) {
            return Ok(());
        }
        self.add(alloc, structs, head)
    }

    fn add(&mut self, alloc: Global, structs: &Names, head: &Head) -> Mem<()>
        requires { self.old.names ≡ map function_name self.old.functions }
        ensures names { OnOk result (self.new.names ≡ map function_name self.new.functions) }
        ensures ok { OnOk result ((rest : List AHead)
            → self.new.functions ++ map (function_of structs.now) (firsts head_name self.new.names rest)
            ≡ self.old.functions
            ++ map (function_of structs.now) (firsts head_name self.old.names (head.now ∷ rest))) }
    {
        if naming::add(&mut self.names, head.name.text.as_slice())? {
            let one = function(alloc, structs, head)?;
            self.functions.push(one)?;
            return Ok(());
        }
        Ok(())
    }
}

/// The first `main`, as its head tells it; `structs` are the names of all structs.
fn main_of(alloc: Global, structs: &Names, items: &[Item]) -> Mem<Option<FunctionDef>>
    ensures { IfOk result (λ main. main ≡ maybe_function_of structs.now (main_head items.now)) }
{
    match main_head(items) {
        Some(head) => {
            let main = function(alloc, structs, head)?;
            Ok(Some(main))
        }
        None => Ok(None),
    }
}

/// What the heads of all functions say: those besides `main`, and `main`.
#[derive(Drop)]
pub struct Heads {
    pub names: Names,
    pub functions: List<FunctionDef>,
    pub main: Option<FunctionDef>,
}

impl Heads {
    /// The heads of the items; `structs` are the names of all structs.
    pub fn of(alloc: Global, structs: &Names, items: &[Item]) -> Mem<Heads>
        ensures names { IfOk result (λ h. h.names ≡ map function_name h.functions) }
        ensures functions { IfOk result (λ h. h.functions
            ≡ map (function_of structs.now) (function_heads items.now)) }
        ensures main { IfOk result (λ h. h.main ≡ maybe_function_of structs.now (main_head items.now)) }
    {
        let all = Functions::of(alloc, structs, items)?;
        let main = main_of(alloc, structs, items);
        let (all, main) = beside(all, main)?;
        Ok(Heads {
            names: all.names,
            functions: all.functions,
            main,
        })
    }
}

/// What a head says of its function.
fn function(alloc: Global, structs: &Names, head: &Head) -> Mem<FunctionDef>
    ensures { IfOk result (λ one. one ≡ function_of structs.now head.now) }
{
    let params = kinds_of(alloc, structs, params_of(&head.params))?;
    let name = head.name.text.copy(alloc)?;
    Ok(FunctionDef {
        name,
        result: result_kind(structs, &head.gives),
        params,
    })
}

fn kinds_of(alloc: Global, structs: &Names, params: &[Param]) -> Mem<List<Kind>>
    ensures { IfOk result (λ kinds. kinds ≡ map (param_kind structs.now) params.now) }
{
    let mut kinds = List::new(alloc);
    for param in params {
        kinds.push(param_kind(structs, param))?;
    }
    Ok(kinds)
}
