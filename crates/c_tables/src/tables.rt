// What the items of a unit define, to be found by names.
ghost use Rattle.std.specs.Prelude.{◌≡◌, ◌+◌, length, map, IfOk};
ghost use Rattle.std.specs.Option.{option_copied};
ghost use Rattle.c_calls.specs.Calls.{leads_within};
ghost use Rattle.c_typing.specs.Globals.{globals_of, struct_number, field_use, value_of};
ghost use Rattle.c_typing.specs.Globals.{function_number, param_kind, result_at, result_kind, struct_names};
ghost use Rattle.c_typing.specs.Programs.{shape_of};
ghost use Rattle.c_typing.specs.Texts.{has};

use crate::functions::{self, Heads};
use c_ast::{Item, Param, ReturnType};
use c_callees::Calls;
use c_calls::CallGraph;
use c_defined::definitions::Definitions;
use c_names::naming;
use c_typing::{FieldUse, FunctionDef, Kind};
use fore_base::memory::{Mem, beside};
use fore_base::shape::Shapes;
use std::alloc::Global;
use std::marker::Model;

/// The structs, enumerations, enumerators and functions of a unit, of each name the first, to be found by their names,
/// and the calls of its functions.
#[derive(Drop)]
pub struct Tables {
    definitions: Definitions,
    heads: Heads,
    calls: Calls,
}

impl Model for Tables {
    ghost use Rattle.std.specs.Prelude.{◌≡◌, ◌+◌, length, map};
    ghost use Rattle.c_typing.specs.Globals.{Globals, function_name};

    ghost Value = { Globals };

    ghost view = { λ t. record {
      structs = t.definitions.structs;
      enums = t.definitions.enums;
      values = t.definitions.values;
      functions = t.heads.functions;
      main = t.heads.main;
      calls = t.calls;
    } };

    ghost invariant = { λ t. (t.heads.names ≡ map function_name t.heads.functions)
        × (length t.calls ≡ length t.heads.functions + 1) };
}

impl Tables {
    /// What the items define.
    ///
    /// # Errors
    ///
    /// Want of memory.
    pub fn of(alloc: Global, items: &[Item]) -> Mem<Tables>
        ensures { IfOk result (λ tables. tables ≡ globals_of items.now) }
    {
        let definitions = Definitions::of(alloc, items)?;
        let heads = Heads::of(alloc, definitions.struct_names(), items);
        let (definitions, heads) = beside(definitions, heads)?;
        let calls = Calls::of(alloc, items)?;
        Ok(Tables {
            definitions,
            heads,
            calls,
        })
    }

    /// The structs, as a program has them.
    ///
    /// # Errors
    ///
    /// Want of memory.
    pub fn shapes(&self, alloc: Global) -> Mem<Shapes>
        ensures { IfOk result (λ s. s.structs ≡ map shape_of self.now.structs) }
    {
        self.definitions.shapes(alloc)
    }

    /// The number of the struct of a name; None where none is defined.
    pub fn struct_of(&self, name: &[u8]) -> Option<u32>
        ensures { result ≡ struct_number self.now name.now }
    {
        self.definitions.struct_of(name)
    }

    /// The field of a name in the struct of a number; None where there is none.
    pub fn field_of(&self, shape: u32, name: &[u8]) -> Option<FieldUse>
        ensures { result ≡ field_use self.now shape name.now }
    {
        self.definitions.field_of(shape, name)
    }

    /// The value of the enumerator of a name; None where there is none.
    pub fn value_of(&self, name: &[u8]) -> Option<u8>
        ensures { result ≡ value_of self.now name.now }
    {
        self.definitions.value_of(name)
    }

    /// Whether an enumeration of this name is defined.
    pub fn has_enum(&self, name: &[u8]) -> bool
        ensures { result ≡ has name.now self.now.enums }
    {
        self.definitions.has_enum(name)
    }

    /// The number of the function of a name; None where none is defined, and for `main`.
    pub fn function_of(&self, name: &[u8]) -> Option<u32>
        ensures { result ≡ function_number self.now name.now }
    {
        naming::find(&self.heads.names, name)
    }

    /// What a function gives.
    pub fn result_kind(&self, gives: &ReturnType) -> Option<Kind>
        ensures { result ≡ result_kind (struct_names self.now) gives.now }
    {
        functions::result_kind(self.definitions.struct_names(), gives)
    }

    /// What a parameter holds.
    pub fn param_kind(&self, param: &Param) -> Kind
        ensures { result ≡ param_kind (struct_names self.now) param.now }
    {
        functions::param_kind(self.definitions.struct_names(), param)
    }

    /// What the function of this number returns, if anything.
    pub fn result_at(&self, function: u32) -> Option<Kind>
        ensures { result ≡ result_at self.now function }
    {
        match self.heads.functions.get(function as usize) {
            Some(one) => one.result,
            None => None,
        }
    }

    /// The functions besides `main`, by their numbers.
    pub fn functions(&self) -> &[FunctionDef]
        ensures { result.now ≡ self.now.functions }
    {
        self.heads.functions.as_slice()
    }

    /// The first `main`; None where there is none.
    pub fn main(&self) -> Option<&FunctionDef>
        ensures { option_copied result ≡ self.now.main }
    {
        match &self.heads.main {
            Some(main) => Some(main),
            None => None,
        }
    }

    /// Says that there are the calls of `main` besides those of each function, and does nothing.
    pub fn known(&self)
        ensures { length self.now.calls ≡ length self.now.functions + 1 }
    {
        let _calls = &self.calls;
    }

    /// The graph of the calls.
    pub fn graph(&self) -> &CallGraph
        ensures { result.now ≡ self.now.calls }
    {
        self.calls.graph()
    }

    /// Whether a function leads to another by calls, one or more, `main` having the number after the others.
    ///
    /// # Errors
    ///
    /// Want of memory.
    pub fn lead(&self, alloc: Global, from: u32, to: u32) -> Mem<bool>
        ensures { IfOk result (λ yes. yes ≡ leads_within self.now.calls (length self.now.calls) from to) }
    {
        self.calls.lead(alloc, from, to)
    }
}
