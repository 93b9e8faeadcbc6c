// The variables that are in scope, each found by its name at once.
ghost use Rattle.std.specs.Prelude.{◌≡◌, ◌<◌, ◌≤◌, [], ◌∷◌, ◌++◌, ℕ, length, reverse, slice_get, slice_set};
ghost use Rattle.std.specs.Prelude.{slice_index_or, IfOk, OnOk, OnErr, Some, None, map, nat_eq};
ghost use Rattle.fore_base.specs.Lists.{IsDistinct};
ghost use Rattle.c_typing.specs.Texts.{has};
ghost use Rattle.c_typing.specs.Scopes.{look_up, empty_scope, innermost, var_name, declared_so_far, declared, opened};
ghost use Rattle.c_typing.specs.Scopes.{next_ref, or_zero};
ghost use Rattle.c_typing.specs.Programs.{ptrs_of, datums_of};
ghost use Rattle.c_scopes.specs.InScope.{found_as, left, moved, next_number};
ghost use Rattle.c_scopes.specs.ScopeTables.{IsKept, scope_of, turned};
ghost use Rattle.c_scopes.specs.inner.Entries.{Grew, bound, datums_in, first_block, is_at, is_shut, more_data};
ghost use Rattle.c_scopes.specs.inner.Entries.{more_vars, name_at, ptrs_in, pushed, unbound, with_entry};

use c_types::{VarDef, VarRef};
use c_typing::Kind;
use fore_base::limits::VARIABLES;
use fore_base::list::List;
use fore_base::memory::Mem;
use fore_base::names::Names;
use fore_base::text::Text;
use std::alloc::{AllocError, Global};
use std::marker::Model;

/// What a name in scope means: a variable, by what it holds and its number among those of its kind.
#[derive(Clone, Copy)]
pub struct Found {
    pub kind: Kind,
    pub number: u32,
}

/// What a name means, and how many blocks are open where it was declared.
#[derive(Clone, Copy)]
struct Meant {
    what: Found,
    block: usize,
}

/// A variable of an open block: the number of its name, what the name means by it, and what it meant before.
#[derive(Clone, Copy)]
struct Entry {
    name: u32,
    meant: Meant,
    under: Option<Meant>,
}

/// The names that were declared so far, what each of them means now, the variables of the open blocks, innermost last,
/// and the function around.
#[derive(Drop)]
struct Table {
    names: Names,
    meant: List<Option<Meant>>,
    blocks: List<List<Entry>>,
    vars: List<VarDef>,
    data_vars: List<Text>,
    home: Option<u32>,
}

/// The number of a name, which is added with no meaning if it is new.
fn number_of(names: &mut Names, meant: &mut List<Option<Meant>>, name: &[u8]) -> Mem<u32>
    requires { length names.old ≤ length meant.old }
    ensures number { IfOk result (λ number. slice_get names.new number ≡ Some name.now) }
    ensures names { Grew names.old names.new name.now }
    ensures meant { Grew meant.old meant.new None }
    ensures room { length names.new ≤ length meant.new }
{
    if let Some(number) = names.find(name) {
        return Ok(number);
    }
    if names.len() >= 4294967295 {
        return Err(AllocError);
    }
    if meant.len() == names.len() {
        meant.push(None)?;
    }
    let number = names.number(name)?;
    Ok(number)
}

/// Whether the meaning is of the block of this number.
fn is_at(meant: Option<Meant>, block: usize) -> bool
    ensures { result ≡ is_at meant block }
{
    match meant {
        Some(meant) => meant.block == block,
        None => false,
    }
}

/// Whether no block is open, or the meaning is of the innermost one.
fn is_shut(meant: Option<Meant>, blocks: usize) -> bool
    ensures { result ≡ is_shut meant blocks }
{
    blocks == 0 || is_at(meant, blocks)
}

impl Table {
    /// The number of a name, which is added with no meaning if it is new.
    fn number(&mut self, name: &[u8]) -> Mem<u32>
        requires { IsKept self.old }
        ensures kept { IsKept self.new }
        ensures same { scope_of self.new ≡ scope_of self.old }
        ensures number { IfOk result (λ number. slice_get self.new.names number ≡ Some name.now) }
    {
        let number = number_of(&mut self.names, &mut self.meant, name)?;
        Ok(number)
    }

    /// Says that no name has two numbers, and does nothing.
    fn known_distinct(&self)
        ensures { IsDistinct self.now.names }
    {
        self.names.known_distinct();
    }

    /// What a name means.
    fn find(&self, name: &[u8]) -> Option<Found>
        requires { IsKept self.now }
        ensures { result ≡ found_as (look_up (scope_of self.now) name.now) }
    {
        self.names.known_distinct();
        match self.names.find(name) {
            Some(number) => match self.meant.get_or(number as usize, None) {
                Some(meant) => Some(meant.what),
                None => None,
            },
            None => None,
        }
    }
}

/// Adds an entry to the innermost block. Some block is open.
fn put(blocks: &mut List<List<Entry>>, entry: Entry) -> Mem<()>
    requires { 0 < length blocks.old }
    ensures ok { OnOk result (turned blocks.new ≡ with_entry entry (turned blocks.old)) }
    ensures err { OnErr result (blocks.new ≡ blocks.old) }
{
    let last = blocks.len() - 1;
    let block = blocks.at_mut(last);
    block.push(entry)?;
    Ok(())
}

/// Gives each name of a block back what it meant before.
fn unbind(meant: &mut List<Option<Meant>>, block: List<Entry>)
    ensures { meant.new ≡ unbound (reverse block) meant.old }
{
    let mut block = block;
    while let Some(entry) = block.pop() {
        meant.set_within(entry.name as usize, entry.under);
    }
}

/// A number of 32 bits.
fn narrow(number: usize) -> Mem<u32>
    ensures { IfOk result (λ narrow. narrow ≡ number) }
{
    if number < 4294967296 {
        Ok(number as u32)
    } else {
        Err(AllocError)
    }
}

/// The struct of this number, or 0 where it is not defined.
pub fn or_zero(to: Option<u32>) -> u32
    ensures { result ≡ or_zero to }
{
    match to {
        Some(shape) => shape,
        None => 0,
    }
}

/// The entries of the innermost block, the newest last.
fn innermost(blocks: &List<List<Entry>>) -> &[Entry]
    ensures { reverse result.now ≡ first_block (turned blocks.now) }
{
    let count = blocks.len();
    if count == 0 {
        return &[];
    }
    blocks.at(count - 1).as_slice()
}

/// The numbers of the pointers among entries.
fn ptrs_in(alloc: Global, block: &[Entry]) -> Mem<List<u32>>
    ensures { IfOk result (λ numbers. numbers ≡ ptrs_in (reverse block.now)) }
{
    let mut numbers = List::new(alloc);
    for entry in block {
        if let Kind::Points(_) = entry.meant.what.kind {
            numbers.push(entry.meant.what.number)?;
        }
    }
    Ok(numbers)
}

/// The numbers of the data among entries.
fn datums_in(alloc: Global, block: &[Entry]) -> Mem<List<u32>>
    ensures { IfOk result (λ numbers. numbers ≡ datums_in (reverse block.now)) }
{
    let mut numbers = List::new(alloc);
    for entry in block {
        if let Kind::Datum = entry.meant.what.kind {
            numbers.push(entry.meant.what.number)?;
        }
    }
    Ok(numbers)
}

impl Table {
    /// The number of the next variable of a kind, which is added to those of the file.
    fn add(&mut self, alloc: Global, name: &[u8], kind: Kind) -> Mem<u32>
        ensures number { IfOk result (λ number. number ≡ next_number kind self.old.vars self.old.data_vars) }
        ensures vars { OnOk result (self.new.vars ≡ more_vars kind name.now self.old.vars) }
        ensures data_vars { OnOk result (self.new.data_vars ≡ more_data kind name.now self.old.data_vars) }
        ensures names { self.new.names ≡ self.old.names }
        ensures meant { self.new.meant ≡ self.old.meant }
        ensures blocks { self.new.blocks ≡ self.old.blocks }
        ensures home { self.new.home ≡ self.old.home }
    {
        let name = Text::from_slice(alloc, name)?;
        match kind {
            Kind::Points(to) => {
                let number = narrow(self.vars.len())?;
                self.vars.push(VarDef {
                    name,
                    shape: or_zero(to),
                })?;
                Ok(number)
            }
            Kind::Datum => {
                let number = narrow(self.data_vars.len())?;
                self.data_vars.push(name)?;
                Ok(number)
            }
        }
    }

    /// Lets a name mean a variable of the innermost block, which has no variable of this name.
    fn push(&mut self, name: u32, what: Found, under: Option<Meant>) -> Mem<()>
        requires kept { IsKept self.old }
        requires within { name < length self.old.names }
        requires under { under ≡ slice_index_or self.old.meant name None }
        requires open { 0 < length self.old.blocks }
        ensures kept { IsKept self.new }
        ensures ok { OnOk result (scope_of self.new ≡ pushed (name_at self.old.names name) what (scope_of self.old)) }
    {
        let meant = Meant {
            what,
            block: self.blocks.len(),
        };
        put(&mut self.blocks, Entry { name, meant, under })?;
        self.meant.set_within(name as usize, Some(meant));
        Ok(())
    }

    /// Lets a name mean a variable, unless no block is open or the innermost one has a variable of this name.
    fn bind(&mut self, name: u32, what: Found) -> Mem<()>
        requires kept { IsKept self.old }
        requires within { name < length self.old.names }
        requires distinct { IsDistinct self.old.names }
        ensures kept { IsKept self.new }
        ensures ok { OnOk result (scope_of self.new ≡ bound (name_at self.old.names name) what (scope_of self.old)) }
    {
        let under = self.meant.get_or(name as usize, None);
        if is_shut(under, self.blocks.len()) {
            return Ok(());
        }
        self.push(name, what, under)?;
        Ok(())
    }

    /// Declares a variable in the innermost block.
    fn declare(&mut self, alloc: Global, name: &[u8], kind: Kind) -> Mem<()>
        requires { IsKept self.old }
        ensures kept { IsKept self.new }
        ensures ok { OnOk result (scope_of self.new ≡ declared (scope_of self.old) name.now kind) }
    {
        let number = self.add(alloc, name, kind)?;
        let name = self.number(name)?;
        self.known_distinct();
        self.bind(name, Found { kind, number })?;
        Ok(())
    }

    /// Whether the innermost block has a variable of this name.
    fn is_taken(&self, name: &[u8]) -> bool
        requires { IsKept self.now }
        ensures { result ≡ has name.now (map var_name (innermost (scope_of self.now).blocks)) }
    {
        self.names.known_distinct();
        match self.names.find(name) {
            Some(number) => is_at(self.meant.get_or(number as usize, None), self.blocks.len()),
            None => false,
        }
    }

    /// Whether as many variables as a program may have were declared.
    fn is_full(&self) -> bool
        ensures { result ≡ nat_eq (declared_so_far (scope_of self.now)) VARIABLES }
    {
        match self.vars.len().checked_add(self.data_vars.len()) {
            Some(count) => count == VARIABLES,
            None => false,
        }
    }

    /// The numbers of the pointers of the innermost block.
    fn ptrs(&self, alloc: Global) -> Mem<List<u32>>
        ensures { IfOk result (λ numbers. numbers ≡ ptrs_of (innermost (scope_of self.now).blocks)) }
    {
        ptrs_in(alloc, innermost(&self.blocks))
    }

    /// The numbers of the data of the innermost block.
    fn datums(&self, alloc: Global) -> Mem<List<u32>>
        ensures { IfOk result (λ numbers. numbers ≡ datums_of (innermost (scope_of self.now).blocks)) }
    {
        datums_in(alloc, innermost(&self.blocks))
    }

    /// Goes to the function of this number, or out of all. No block is open.
    fn move_to(&mut self, home: Option<u32>)
        requires kept { IsKept self.old }
        requires shut { (scope_of self.old).blocks ≡ [] }
        ensures kept { IsKept self.new }
        ensures moved { scope_of self.new ≡ moved home (scope_of self.old) }
    {
        self.home = home;
    }

    /// Opens a block.
    fn enter(&mut self, alloc: Global) -> Mem<()>
        requires { IsKept self.old }
        ensures kept { IsKept self.new }
        ensures ok { OnOk result (scope_of self.new ≡ opened (scope_of self.old)) }
    {
        self.blocks.push(List::new(alloc))?;
        Ok(())
    }

    /// Closes the innermost block.
    fn leave(&mut self)
        requires { IsKept self.old }
        ensures kept { IsKept self.new }
        ensures left { scope_of self.new ≡ left (scope_of self.old) }
    {
        if let Some(block) = self.blocks.pop() {
            unbind(&mut self.meant, block);
        }
    }
}

/// What is in scope at a place of a body. Contracts see the scope.
#[derive(Drop)]
pub struct Scope {
    table: Table,
}

impl Model for Scope {
    ghost use Rattle.c_typing.specs.Scopes.{Scope as AScope};
    ghost use Rattle.c_scopes.specs.ScopeTables.{scope_of, IsKept};

    ghost Value = { AScope };

    ghost view = { λ scope. scope_of scope.table };

    ghost invariant = { λ scope. IsKept scope.table };
}

impl Scope {
    /// Nothing in scope, and nothing declared. This takes no memory.
    pub fn new(alloc: Global) -> Scope
        ensures { result ≡ empty_scope }
    {
        let table = Table {
            names: Names::new(alloc),
            meant: List::new(alloc),
            blocks: List::new(alloc),
            vars: List::new(alloc),
            data_vars: List::new(alloc),
            home: None,
        };
        Scope { table }
    }

    /// The function around, by its number; None in `main` and outside of functions.
    pub fn home(&self) -> Option<u32>
        ensures { result ≡ self.now.home }
    {
        self.table.home
    }

    /// Begins the function of this number, or leaves all. No block is open.
    pub fn move_to(&mut self, home: Option<u32>)
        requires { self.old.blocks ≡ [] }
        ensures { self.new ≡ moved home self.old }
    {
        self.table.move_to(home);
    }

    /// The innermost variable of a name.
    pub fn find(&self, name: &[u8]) -> Option<Found>
        ensures { result ≡ found_as (look_up self.now name.now) }
    {
        self.table.find(name)
    }

    /// Opens a block.
    ///
    /// # Errors
    ///
    /// Want of memory.
    pub fn enter(&mut self, alloc: Global) -> Mem<()>
        ensures { OnOk result (self.new ≡ opened self.old) }
    {
        self.table.enter(alloc)
    }

    /// Closes the innermost block.
    pub fn leave(&mut self)
        ensures { self.new ≡ left self.old }
    {
        self.table.leave();
    }

    /// Declares a variable in the innermost block.
    ///
    /// # Errors
    ///
    /// Want of memory, also where the variable's number does not fit 32 bits.
    pub fn declare(&mut self, alloc: Global, name: &[u8], kind: Kind) -> Mem<()>
        ensures { OnOk result (self.new ≡ declared self.old name.now kind) }
    {
        self.table.declare(alloc, name, kind)
    }

    /// Whether the innermost block has a variable of this name.
    pub fn is_taken(&self, name: &[u8]) -> bool
        ensures { result ≡ has name.now (map var_name (innermost self.now.blocks)) }
    {
        self.table.is_taken(name)
    }

    /// Whether as many variables as a program may have were declared.
    pub fn is_full(&self) -> bool
        ensures { result ≡ nat_eq (declared_so_far self.now) VARIABLES }
    {
        self.table.is_full()
    }

    /// The number of the next variable of a kind.
    ///
    /// # Errors
    ///
    /// Want of memory, where the number does not fit 32 bits.
    pub fn next_number(&self, kind: Kind) -> Mem<u32>
        ensures { IfOk result (λ number. number ≡ next_number kind self.now.vars self.now.data_vars) }
    {
        match kind {
            Kind::Points(_) => narrow(self.table.vars.len()),
            Kind::Datum => narrow(self.table.data_vars.len()),
        }
    }

    /// The variable that the next declaration of this kind declares.
    ///
    /// # Errors
    ///
    /// Want of memory, where its number does not fit 32 bits.
    pub fn next_ref(&self, kind: Kind) -> Mem<VarRef>
        ensures { IfOk result (λ variable. variable ≡ next_ref kind self.now) }
    {
        let number = self.next_number(kind)?;
        match kind {
            Kind::Points(_) => Ok(VarRef::Ptr(number)),
            Kind::Datum => Ok(VarRef::Data(number)),
        }
    }

    /// The numbers of the pointers of the innermost block, in order of declaration.
    ///
    /// # Errors
    ///
    /// Want of memory.
    pub fn ptrs(&self, alloc: Global) -> Mem<List<u32>>
        ensures { IfOk result (λ numbers. numbers ≡ ptrs_of (innermost self.now.blocks)) }
    {
        self.table.ptrs(alloc)
    }

    /// The numbers of the data of the innermost block, in order of declaration.
    ///
    /// # Errors
    ///
    /// Want of memory.
    pub fn datums(&self, alloc: Global) -> Mem<List<u32>>
        ensures { IfOk result (λ numbers. numbers ≡ datums_of (innermost self.now.blocks)) }
    {
        self.table.datums(alloc)
    }

    /// The pointers and the data of the file, also of the blocks that are closed.
    pub fn into_variables(self) -> (List<VarDef>, List<Text>)
        ensures vars { result.0 ≡ self.vars }
        ensures data_vars { result.1 ≡ self.data_vars }
    {
        let Scope { table } = self;
        let Table {
            vars,
            data_vars,
            ..
        } = table;
        (vars, data_vars)
    }
}
