// The parts of a call: its enter, the body of its function, lowered in place, and its exit.
ghost use Rattle.std.specs.Prelude.{◌≡◌, ◌+◌, ◌++◌, OnOk, IfOk};
ghost use Rattle.c_lower.specs.inner.Sites.{body_room, call_spans, enter_edges, exit_edges};

use crate::site::{Site, Span, TwoSpans};
use c_cfg::graph::Edge;
use c_edges::steps::{Step, add_enter, add_exit};
use c_types::program::{Arg, Dest, Func};
use fore_base::list::List;
use fore_base::memory::Mem;

impl<'p> Site<'p> {
    /// Where the body of a call stands, and where its exit does.
    pub fn call_spans(&self, called: &Func, args: &[Arg], span: Span) -> Mem<TwoSpans>
        ensures { IfOk result (λ spans. spans ≡ call_spans self.now called.now args.now span) }
    {
        let body = self.after_enter(called, args, span.from)?;
        let end = self.after_body(called, body)?;
        Ok(TwoSpans {
            first: Span {
                from: body,
                then: end,
            },
            second: Span {
                from: end,
                then: span.then,
            },
        })
    }

    /// The location after the body of a called function.
    fn after_body(&self, called: &Func, at: u32) -> Mem<u32>
        ensures { IfOk result (λ next. next ≡ at + body_room self.now called.now) }
    {
        let stmts = self.reached(called.body.as_slice());
        self.deeper().after_all(stmts, at)
    }

    /// Adds the edges of an enter, which leads to the body.
    pub fn add_enter(
        &self,
        edges: &mut List<Edge>,
        called: &Func,
        args: &[Arg],
        line: u32,
        from: u32,
        to: u32,
    ) -> Mem<()>
        ensures { OnOk result (edges.new ≡ edges.old ++ enter_edges self.now called.now args.now line from to) }
    {
        let step = Step { line, from, to };
        let params = called.params.as_slice();
        add_enter(self.alloc, edges, &self.counts, params, args, step)
    }

    /// Adds the edges of an exit, which leads to what comes after the call.
    pub fn add_exit(
        &self,
        edges: &mut List<Edge>,
        called: &Func,
        to: &Option<Dest>,
        line: u32,
        span: Span,
    ) -> Mem<()>
        ensures { OnOk result (edges.new ≡ edges.old ++ exit_edges self.now called.now to.now line span) }
    {
        let step = Step {
            line,
            from: span.from,
            to: span.then,
        };
        let params = called.params.as_slice();
        add_exit(
            self.alloc,
            edges,
            &self.counts,
            &called.result,
            params,
            to,
            step,
        )
    }
}
