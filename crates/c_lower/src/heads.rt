// The loop heads of a program.
ghost use Rattle.std.specs.Prelude.{◌≡◌, ◌+◌, ◌++◌, true, false, replicate, OnOk, IfOk};
ghost use Rattle.fore_base.specs.Stores.{set_each};
ghost use Rattle.c_lower.specs.inner.Sites.{stmt_heads, all_heads, entries_of};

use crate::site::Site;
use c_links::sums::sum;
use c_types::program::Stmt;
use fore_base::list::List;
use fore_base::memory::Mem;
use std::alloc::Global;

impl<'p> Site<'p> {
    /// Adds the loop heads of a statement whose first location is given.
    #[cycle(stmt_heads)]
    #[tactic(auto, using(crate::proofs::Layers::loops, crate::proofs::Falling::falling))]
    fn add_heads_of(&self, heads: &mut List<u32>, stmt: &Stmt, at: u32) -> Mem<()>
        ensures { OnOk result (heads.new ≡ heads.old ++ stmt_heads self.now stmt.now at) }
    {
        match stmt {
            Stmt::Do { .. } => Ok(()),
            Stmt::Branch { cond, yes, no } => {
                let first = self.after_test(cond, at)?;
                let second = self.after_all(yes.as_slice(), first)?;
                self.add_heads(heads, yes.as_slice(), first)?;
                self.add_heads(heads, no.as_slice(), second)
            }
            Stmt::While { cond, body } => {
                let first = self.after_test(cond, at)?;
                heads.push(at)?;
                self.add_heads(heads, body.as_slice(), first)
            }
            Stmt::DoWhile { cond: _, body } => {
                let test = self.after_all(body.as_slice(), at)?;
                heads.push(test)?;
                self.add_heads(heads, body.as_slice(), at)
            }
            Stmt::For { cond, next, body } => {
                let first = self.after_test(cond, at)?;
                let between = self.after_all(body.as_slice(), first)?;
                heads.push(at)?;
                self.add_heads(heads, body.as_slice(), first)?;
                self.add_heads(heads, next.as_slice(), between)
            }
            Stmt::Group { body, .. } => self.add_heads(heads, body.as_slice(), at),
            Stmt::Call { func, args, .. } => match self.funcs.get(*func as usize) {
                None => Ok(()),
                Some(called) => {
                    let body = self.after_enter(called, args.as_slice(), at)?;
                    let stmts = self.reached(called.body.as_slice());
                    self.deeper().add_heads(heads, stmts, body)
                }
            },
        }
    }

    /// Adds the loop heads of statements whose first location is given.
    #[cycle(stmt_heads)]
    #[tactic(auto, using(crate::proofs::Layers::loops, crate::proofs::Falling::falling))]
    pub fn add_heads(&self, heads: &mut List<u32>, body: &[Stmt], at: u32) -> Mem<()>
        ensures { OnOk result (heads.new ≡ heads.old ++ all_heads self.now body.now at) }
    {
        let mut from = at;
        for stmt in body {
            let next = self.after_stmt(stmt, from)?;
            self.add_heads_of(heads, stmt, from)?;
            from = next;
        }
        Ok(())
    }

    /// The entries of `heads` for a program with this body, whose first location is 0: one for each location, with the
    /// exit.
    pub fn head_entries(&self, body: &[Stmt]) -> Mem<List<bool>>
        ensures { IfOk result (λ entries. entries ≡ entries_of self.now body.now) }
    {
        let mut heads = List::new(self.alloc);
        self.add_heads(&mut heads, body, 0)?;
        entries(self.alloc, sum(self.exit, 1)?, heads.as_slice())
    }
}

/// One entry for each location: whether it is one of these.
fn entries(alloc: Global, locations: u32, heads: &[u32]) -> Mem<List<bool>>
    ensures { IfOk result (λ entries. entries ≡ set_each (replicate locations false) heads.now true) }
{
    let mut entries = List::filled(alloc, false, locations as usize)?;
    for head in heads {
        entries.set_within(*head as usize, true);
    }
    Ok(entries)
}
