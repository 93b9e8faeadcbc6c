// The functions of a file: those besides `main` in order of their first definitions, and `main` after them.
ghost use Rattle.std.specs.Prelude.{◌≡◌, ◌∷◌, ◌++◌, [], List, map, cond, IfOk, OnOk};
ghost use Rattle.c_ast.specs.declared.items.Head.{Head as AHead};
ghost use Rattle.c_typing.specs.Globals.{function_heads, functions_in, head_name, is_main, names_of_calls};
ghost use Rattle.c_typing.specs.Texts.{firsts, has};

use c_ast::{Head, Item};
use c_names::naming;
use fore_base::list::List;
use fore_base::memory::Mem;
use fore_base::names::Names;
use fore_base::text::Text;
use std::alloc::Global;

/// Functions: their names to be found, and in order.
#[derive(Drop)]
pub struct Functions {
    pub names: Names,
    pub texts: List<Text>,
}

/// Whether the name is `main`.
pub fn is_main(head: &Head) -> bool
    ensures { result ≡ is_main head.now }
{
    head.name.text.as_slice() == b"main".as_slice()
}

impl Functions {
    /// The functions of the items.
    #[tactic(auto, using(c_typing::proofs::Firsts::main_new))]
    pub fn of(alloc: Global, items: &[Item]) -> Mem<Functions>
        ensures names { IfOk result (λ f. f.names ≡ names_of_calls items.now) }
        ensures texts { IfOk result (λ f. f.texts ≡ names_of_calls items.now) }
    {
        let mut all = Functions::besides_main(alloc, items)?;
        all.add(alloc, b"main".as_slice())?;
        Ok(all)
    }

    fn besides_main(alloc: Global, items: &[Item]) -> Mem<Functions>
        ensures names { IfOk result (λ f. f.names ≡ map head_name (function_heads items.now)) }
        ensures texts { IfOk result (λ f. f.texts ≡ f.names) }
    {
        let mut all = Functions {
            names: Names::new(alloc),
            texts: List::new(alloc),
        };
        for item in items {
            all.add_item(alloc, item)?;
        }
        Ok(all)
    }

    fn add_item(&mut self, alloc: Global, item: &Item) -> Mem<()>
        requires { self.old.texts ≡ self.old.names }
        ensures texts { OnOk result (self.new.texts ≡ self.new.names) }
        ensures names { OnOk result ((rest : List AHead)
            → self.new.names ++ map head_name (firsts head_name self.new.names rest)
            ≡ self.old.names ++ map head_name (firsts head_name self.old.names (functions_in item.now ++ rest))) }
    {
        match item {
            Item::Function { head, .. } => self.add_head(alloc, head),
            Item::Struct { .. } | Item::Enum { .. } | Item::Proto { .. } | Item::Declare(_) => Ok(
                (),
            ),
        }
    }

    fn add_head(&mut self, alloc: Global, head: &Head) -> Mem<()>
        requires { self.old.texts ≡ self.old.names }
        ensures texts { OnOk result (self.new.texts ≡ self.new.names) }
        ensures names { OnOk result ((rest : List AHead)
            → self.new.names ++ map head_name (firsts head_name self.new.names rest)
            ≡ self.old.names
            ++ map head_name (firsts head_name self.old.names (cond (is_main head.now) [] (head.now ∷ []) ++ rest))) }
    {
        if is_main(head) {
            return Ok(());
        }
        self.add_named(alloc, head)
    }

    fn add_named(&mut self, alloc: Global, head: &Head) -> Mem<()>
        requires { self.old.texts ≡ self.old.names }
        ensures texts { OnOk result (self.new.texts ≡ self.new.names) }
        ensures names { OnOk result ((rest : List AHead)
            → self.new.names ++ map head_name (firsts head_name self.new.names rest)
            ≡ self.old.names ++ map head_name (firsts head_name self.old.names (head.now ∷ rest))) }
    {
        self.add(alloc, head.name.text.as_slice())
    }

    /// Adds a name, if it is not there.
    fn add(&mut self, alloc: Global, name: &[u8]) -> Mem<()>
        requires { self.old.texts ≡ self.old.names }
        ensures texts { OnOk result (self.new.texts ≡ self.new.names) }
        ensures names { OnOk result
            (self.new.names ≡ cond (has name.now self.old.names) self.old.names (self.old.names ++ name.now ∷ [])) }
    {
        if naming::add(&mut self.names, name)? {
            let text = Text::from_slice(alloc, name)?;
            self.texts.push(text)?;
            return Ok(());
        }
        Ok(())
    }
}
