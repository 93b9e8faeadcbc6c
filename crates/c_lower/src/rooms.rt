// How many locations statements take.
ghost use Rattle.std.specs.Prelude.{◌≡◌, ◌+◌, IfOk};
ghost use Rattle.c_lower.specs.inner.Emitting.{close_width};
ghost use Rattle.c_lower.specs.inner.Sites.{act_room, test_room, stmt_room, room as all_room, enter_room, exit_room};

use crate::site::Site;
use crate::sizes::{act_size, enter_size, exit_size};
use c_links::sums::sum;
use c_types::program::{Act, Arg, Cond, Dest, Func, Stmt};
use fore_base::memory::Mem;

impl<'p> Site<'p> {
    /// The location after an act: it takes as many as it has links.
    #[tactic(auto, using(crate::proofs::Sized::sizes))]
    fn after_act(&self, act: &Act, at: u32) -> Mem<u32>
        ensures { IfOk result (λ next. next ≡ at + act_room self.now act.now) }
    {
        let room = act_size(self.alloc, &self.counts, self.funcs, act)?;
        sum(at, room)
    }

    /// The location after the enter of a call.
    pub fn after_enter(&self, called: &Func, args: &[Arg], at: u32) -> Mem<u32>
        ensures { IfOk result (λ next. next ≡ at + enter_room self.now called.now args.now) }
    {
        let room = enter_size(self.alloc, &self.counts, called.params.as_slice(), args)?;
        sum(at, room)
    }

    /// The location after the exit of a call.
    pub fn after_exit(&self, called: &Func, to: &Option<Dest>, at: u32) -> Mem<u32>
        ensures { IfOk result (λ next. next ≡ at + exit_room self.now called.now to.now) }
    {
        let params = called.params.as_slice();
        let room = exit_size(self.alloc, &self.counts, &called.result, params, to)?;
        sum(at, room)
    }

    /// The location after a test.
    pub fn after_test(&self, cond: &Cond, at: u32) -> Mem<u32>
        ensures { IfOk result (λ next. next ≡ at + test_room self.now cond.now) }
    {
        let room = self.cond_room(cond)?;
        sum(at, room)
    }

    /// The location after a statement.
    #[cycle(stmt_room)]
    #[tactic(auto, using(crate::proofs::Layers::rooms, crate::proofs::Falling::falling))]
    pub fn after_stmt(&self, stmt: &Stmt, at: u32) -> Mem<u32>
        ensures { IfOk result (λ next. next ≡ at + stmt_room self.now stmt.now) }
    {
        match stmt {
            Stmt::Do { act, line: _ } => self.after_act(act, at),
            Stmt::Branch { cond, yes, no } => {
                let first = self.after_test(cond, at)?;
                let second = self.after_all(yes.as_slice(), first)?;
                self.after_all(no.as_slice(), second)
            }
            Stmt::While { cond, body } => {
                let first = self.after_test(cond, at)?;
                self.after_all(body.as_slice(), first)
            }
            Stmt::DoWhile { cond, body } => {
                let test = self.after_all(body.as_slice(), at)?;
                self.after_test(cond, test)
            }
            Stmt::For { cond, next, body } => {
                let first = self.after_test(cond, at)?;
                let between = self.after_all(body.as_slice(), first)?;
                self.after_all(next.as_slice(), between)
            }
            Stmt::Group {
                body,
                ptrs,
                datums,
                ..
            } => {
                let end = self.after_all(body.as_slice(), at)?;
                sum(end, close_room(ptrs.as_slice(), datums.as_slice()))
            }
            Stmt::Call { func, args, to, .. } => match self.funcs.get(*func as usize) {
                None => Ok(at),
                Some(called) => {
                    let body = self.after_enter(called, args.as_slice(), at)?;
                    let stmts = self.reached(called.body.as_slice());
                    let end = self.deeper().after_all(stmts, body)?;
                    self.after_exit(called, to, end)
                }
            },
        }
    }

    /// The location after statements.
    #[cycle(stmt_room)]
    #[tactic(auto, using(crate::proofs::Layers::rooms, crate::proofs::Falling::falling))]
    pub fn after_all(&self, body: &[Stmt], at: u32) -> Mem<u32>
        ensures { IfOk result (λ next. next ≡ at + all_room self.now body.now) }
    {
        let mut next = at;
        for stmt in body {
            next = self.after_stmt(stmt, next)?;
        }
        Ok(next)
    }

    /// How many locations statements take.
    pub fn all_room(&self, body: &[Stmt]) -> Mem<u32>
        ensures { IfOk result (λ room. room ≡ all_room self.now body.now) }
    {
        self.after_all(body, 0)
    }
}

/// How many locations the end of a block takes: none, if no variable dies.
pub fn close_room(ptrs: &[u32], datums: &[u32]) -> u32
    ensures { result ≡ close_width ptrs.now datums.now }
{
    if ptrs.is_empty() && datums.is_empty() {
        0
    } else {
        1
    }
}
