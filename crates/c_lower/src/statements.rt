// The edges of statements.
ghost use Rattle.std.specs.Prelude.{◌≡◌, ◌++◌, OnOk, IfOk};
ghost use Rattle.c_lower.specs.inner.Emitting.{step_to, close_edges};
ghost use Rattle.c_lower.specs.inner.Sites.{act_edges, stmt_edges, all_edges, branch_test, branch_spans, loop_test};
ghost use Rattle.c_lower.specs.inner.Sites.{loop_spans, do_span, do_test, group_spans};

use crate::around::Around;
use crate::rooms::close_room;
use crate::site::{Site, Span, TwoSpans, first_of};
use c_cfg::graph::{Edge, Instr};
use c_edges::acts::act_links;
use c_links::chain::{add_chain, add_edge};
use c_types::program::{Act, Cond, Stmt};
use fore_base::list::{Copies, List};
use fore_base::memory::Mem;

impl<'p> Site<'p> {
    fn add_act(
        &self,
        edges: &mut List<Edge>,
        act: &Act,
        line: u32,
        around: &Around,
        span: Span,
    ) -> Mem<()>
        ensures { OnOk result (edges.new ≡ edges.old ++ act_edges self.now act.now line around.now span) }
    {
        let (ptrs, datums) = (&around.ptrs, &around.datums);
        let links = act_links(self.alloc, &self.counts, self.funcs, act, ptrs, datums)?;
        let to = self.act_to(act, around, span.then);
        add_chain(self.alloc, edges, line, links.as_slice(), span.from, to)
    }

    /// Where an act leads that stands before a location.
    fn act_to(&self, act: &Act, around: &Around, then: u32) -> u32
        ensures { result ≡ step_to self.now.funcs.now self.now.exit around.now act.now then }
    {
        match act {
            Act::SetPtr { .. } => then,
            Act::SetData { .. } => then,
            Act::Free(_) => then,
            Act::Error => self.exit,
            Act::Halt => self.exit,
            Act::Return(_) => self.exit,
            Act::Leave { func, .. } => match self.funcs.get(*func as usize) {
                None => self.exit,
                Some(_) => around.back,
            },
            Act::Break => around.leave,
            Act::Continue => around.again,
        }
    }

    /// Adds the edges of a statement with this around it.
    #[cycle(stmt)]
    #[tactic(auto, using(crate::proofs::Layers::statements, crate::proofs::Falling::falling))]
    fn add_stmt(&self, edges: &mut List<Edge>, stmt: &Stmt, around: &Around, span: Span) -> Mem<()>
        ensures { OnOk result (edges.new ≡ edges.old ++ stmt_edges self.now stmt.now around.now span) }
    {
        match stmt {
            Stmt::Do { act, line } => self.add_act(edges, act, *line, around, span),
            Stmt::Branch { cond, yes, no } => {
                let sides = self.add_branch(edges, cond, yes.as_slice(), no.as_slice(), span)?;
                self.add_all(edges, yes.as_slice(), around, sides.first)?;
                self.add_all(edges, no.as_slice(), around, sides.second)
            }
            Stmt::While { cond, body } => {
                let round = self.add_loop(edges, cond, &[], body.as_slice(), span)?;
                let inner = Around::in_loop(self.alloc, span.then, round.first.then, around.back);
                self.add_all(edges, body.as_slice(), &inner, round.first)
            }
            Stmt::DoWhile { cond, body } => {
                let round = self.do_span(body.as_slice(), span.from)?;
                let inner = Around::in_loop(self.alloc, span.then, round.then, around.back);
                self.add_all(edges, body.as_slice(), &inner, round)?;
                self.add_do_test(edges, cond, body.as_slice(), round, span.then)
            }
            Stmt::For { cond, next, body } => {
                let round = self.add_loop(edges, cond, next.as_slice(), body.as_slice(), span)?;
                let inner = Around::in_loop(self.alloc, span.then, round.first.then, around.back);
                self.add_all(edges, body.as_slice(), &inner, round.first)?;
                self.add_all(edges, next.as_slice(), around, round.second)
            }
            Stmt::Group {
                body,
                ptrs,
                datums,
                close,
            } => {
                let spans = self.group_spans(body.as_slice(), ptrs, datums, span)?;
                let inner = around.with_closed(self.alloc, ptrs.as_slice(), datums.as_slice())?;
                self.add_all(edges, body.as_slice(), &inner, spans.first)?;
                self.add_close(edges, ptrs, datums, *close, spans.second)
            }
            Stmt::Call {
                func,
                args,
                to,
                line,
            } => match self.funcs.get(*func as usize) {
                None => Ok(()),
                Some(called) => {
                    let spans = self.call_spans(called, args.as_slice(), span)?;
                    let end = spans.second;
                    self.add_enter(
                        edges,
                        called,
                        args.as_slice(),
                        *line,
                        span.from,
                        spans.first.from,
                    )?;
                    let inner = around.in_call(self.alloc, end.from);
                    let stmts = self.reached(called.body.as_slice());
                    self.deeper().add_all(edges, stmts, &inner, spans.first)?;
                    self.add_exit(edges, called, to, *line, end)
                }
            },
        }
    }

    /// Adds the edges of statements with this around them.
    #[cycle(stmt)]
    #[tactic(auto, using(crate::proofs::Layers::statements, crate::proofs::Falling::falling))]
    pub fn add_all(
        &self,
        edges: &mut List<Edge>,
        body: &[Stmt],
        around: &Around,
        span: Span,
    ) -> Mem<()>
        ensures { OnOk result (edges.new ≡ edges.old ++ all_edges self.now body.now around.now span) }
    {
        let end = self.after_all(body, span.from)?;
        let rests = self.rests(around, body)?;
        let mut from = span.from;
        for at in 0..body.len() {
            let stmt = &body[at];
            let next = self.after_stmt(stmt, from)?;
            let then = first_of(end - next, next, span.then);
            let inner = self.rest_at(&rests, around, body, at);
            self.add_stmt(edges, stmt, inner, Span { from, then })?;
            from = next;
        }
        Ok(())
    }

    /// Adds the test of a branch, and tells where its sides stand.
    fn add_branch(
        &self,
        edges: &mut List<Edge>,
        cond: &Cond,
        yes: &[Stmt],
        no: &[Stmt],
        span: Span,
    ) -> Mem<TwoSpans>
        ensures edges { OnOk result (edges.new ≡ edges.old ++ branch_test self.now cond.now yes.now no.now span) }
        ensures spans { IfOk result (λ spans. spans ≡ branch_spans self.now cond.now yes.now span) }
    {
        let then = span.then;
        let first = self.after_test(cond, span.from)?;
        let second = self.after_all(yes, first)?;
        let on_yes = first_of(second - first, first, then);
        let on_no = first_of(self.all_room(no)?, second, then);
        self.add_cond(edges, cond, span.from, on_yes, on_no)?;
        Ok(TwoSpans {
            first: Span { from: first, then },
            second: Span { from: second, then },
        })
    }

    /// Adds the test of a `while` or `for`, and tells where its body stands and where what is done between the rounds
    /// does.
    fn add_loop(
        &self,
        edges: &mut List<Edge>,
        cond: &Cond,
        next: &[Stmt],
        body: &[Stmt],
        span: Span,
    ) -> Mem<TwoSpans>
        ensures edges { OnOk result (edges.new ≡ edges.old ++ loop_test self.now cond.now next.now body.now span) }
        ensures spans { IfOk result (λ spans. spans ≡ loop_spans self.now cond.now next.now body.now span) }
    {
        let head = span.from;
        let first = self.after_test(cond, head)?;
        let between = self.after_all(body, first)?;
        let again = first_of(self.all_room(next)?, between, head);
        let on_yes = first_of(between - first, first, again);
        self.add_cond(edges, cond, head, on_yes, span.then)?;
        Ok(TwoSpans {
            first: Span {
                from: first,
                then: again,
            },
            second: Span {
                from: between,
                then: head,
            },
        })
    }

    /// Where the body of a `do` stands.
    fn do_span(&self, body: &[Stmt], from: u32) -> Mem<Span>
        ensures { IfOk result (λ span. span ≡ do_span self.now body.now from) }
    {
        let then = self.after_all(body, from)?;
        Ok(Span { from, then })
    }

    /// Adds the test of a `do`.
    fn add_do_test(
        &self,
        edges: &mut List<Edge>,
        cond: &Cond,
        body: &[Stmt],
        round: Span,
        then: u32,
    ) -> Mem<()>
        ensures { OnOk result (edges.new ≡ edges.old ++ do_test self.now cond.now body.now round then) }
    {
        let on_yes = first_of(self.all_room(body)?, round.from, round.then);
        self.add_cond(edges, cond, round.then, on_yes, then)
    }

    /// Where a block's statements stand, and where its end does.
    fn group_spans(
        &self,
        body: &[Stmt],
        ptrs: &List<u32>,
        datums: &List<u32>,
        span: Span,
    ) -> Mem<TwoSpans>
        ensures { IfOk result (λ spans. spans ≡ group_spans self.now body.now ptrs.now datums.now span) }
    {
        let end = self.after_all(body, span.from)?;
        let room = close_room(ptrs.as_slice(), datums.as_slice());
        Ok(TwoSpans {
            first: Span {
                from: span.from,
                then: first_of(room, end, span.then),
            },
            second: Span {
                from: end,
                then: span.then,
            },
        })
    }

    /// Adds the end of a block, if variables die there.
    fn add_close(
        &self,
        edges: &mut List<Edge>,
        ptrs: &List<u32>,
        datums: &List<u32>,
        line: u32,
        span: Span,
    ) -> Mem<()>
        ensures { OnOk result (edges.new ≡ edges.old ++ close_edges ptrs.now datums.now line span.from span.then) }
    {
        if ptrs.is_empty() && datums.is_empty() {
            return Ok(());
        }
        let ptrs = ptrs.copy(self.alloc)?;
        let datums = datums.copy(self.alloc)?;
        add_edge(
            edges,
            line,
            span.from,
            span.then,
            Instr::Kill { ptrs, datums },
        )
    }
}
