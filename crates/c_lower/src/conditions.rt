// The edges of conditions.
ghost use Rattle.std.specs.Prelude.{◌≡◌, ◌++◌, ◌∷◌, [], None, OnOk, IfOk};
ghost use Rattle.c_cfg.specs.Lowering.{edge};
ghost use Rattle.c_lower.specs.inner.Sites.{atom_room, test_room, joined_room, atom_edges_at, test_edges, joined_edges};

use crate::site::Site;
use crate::sizes::atom_size;
use c_cfg::graph::{Edge, Instr};
use c_edges::comparison::{of_data, of_ptrs};
use c_joints::Joint;
use c_links::chain::{add_choice, add_edge};
use c_links::sums::sum;
use c_types::program::{Atom, Cond};
use fore_base::list::List;
use fore_base::memory::Mem;

impl<'p> Site<'p> {
    #[tactic(auto, using(crate::proofs::Sized::sizes))]
    fn atom_room(&self, atom: &Atom) -> Mem<u32>
        ensures { IfOk result (λ room. room ≡ atom_room self.now atom.now) }
    {
        atom_size(atom)
    }

    /// How many locations a condition takes.
    #[cycle(cond_room)]
    #[tactic(auto, using(crate::proofs::CondLayers::rooms))]
    pub fn cond_room(&self, cond: &Cond) -> Mem<u32>
        ensures { IfOk result (λ room. room ≡ test_room self.now cond.now) }
    {
        match cond {
            Cond::Atom { atom, .. } => self.atom_room(atom),
            Cond::Not(part) => self.cond_room(part.get()),
            Cond::All(parts) => self.joined_room(parts.as_slice()),
            Cond::Any(parts) => self.joined_room(parts.as_slice()),
        }
    }

    #[cycle(cond_room)]
    #[tactic(auto, using(crate::proofs::CondLayers::rooms))]
    fn joined_room(&self, parts: &[Cond]) -> Mem<u32>
        ensures { IfOk result (λ room. room ≡ joined_room self.now parts.now) }
    {
        if parts.is_empty() {
            return Ok(1);
        }
        let mut room = 0;
        for part in parts {
            room = sum(room, self.cond_room(part)?)?;
        }
        Ok(room)
    }

    fn add_atom(
        &self,
        edges: &mut List<Edge>,
        atom: &Atom,
        line: u32,
        at: u32,
        yes: u32,
        no: u32,
    ) -> Mem<()>
        ensures { OnOk result (edges.new ≡ edges.old ++ atom_edges_at self.now atom.now line at yes no) }
    {
        match atom {
            Atom::Choice => {
                add_choice(edges, line, at, no, Instr::Choose { to: None }, 0)?;
                add_choice(edges, line, at, yes, Instr::Choose { to: None }, 1)
            }
            Atom::Known(true) => self.add_step(edges, line, at, yes),
            Atom::Known(false) => self.add_step(edges, line, at, no),
            Atom::Ptr { left, right, equal } => {
                let parts = of_ptrs(self.alloc, &self.counts, left, right)?;
                if *equal {
                    parts.add_to(self.alloc, edges, line, at, yes, no)
                } else {
                    parts.add_to(self.alloc, edges, line, at, no, yes)
                }
            }
            Atom::Data { left, right, equal } => {
                let parts = of_data(self.alloc, &self.counts, left, right)?;
                if *equal {
                    parts.add_to(self.alloc, edges, line, at, yes, no)
                } else {
                    parts.add_to(self.alloc, edges, line, at, no, yes)
                }
            }
        }
    }

    /// Adds an edge that does nothing.
    fn add_step(&self, edges: &mut List<Edge>, line: u32, at: u32, to: u32) -> Mem<()>
        ensures { OnOk result (edges.new ≡ edges.old ++ edge line at to (Instr.Kill [] []) None ∷ []) }
    {
        let ptrs = List::new(self.alloc);
        let datums = List::new(self.alloc);
        add_edge(edges, line, at, to, Instr::Kill { ptrs, datums })
    }

    /// Adds the edges of a condition from a location on, to the locations of its sides.
    #[cycle(cond)]
    #[tactic(auto, using(crate::proofs::CondLayers::tests))]
    pub fn add_cond(
        &self,
        edges: &mut List<Edge>,
        cond: &Cond,
        at: u32,
        yes: u32,
        no: u32,
    ) -> Mem<()>
        ensures { OnOk result (edges.new ≡ edges.old ++ test_edges self.now cond.now at yes no) }
    {
        match cond {
            Cond::Atom { atom, line } => self.add_atom(edges, atom, *line, at, yes, no),
            Cond::Not(part) => self.add_cond(edges, part.get(), at, no, yes),
            Cond::All(parts) => self.add_parts(edges, Joint::All, parts.as_slice(), at, yes, no),
            Cond::Any(parts) => self.add_parts(edges, Joint::Any, parts.as_slice(), at, yes, no),
        }
    }

    #[cycle(cond)]
    #[tactic(auto, using(crate::proofs::CondLayers::tests))]
    fn add_parts(
        &self,
        edges: &mut List<Edge>,
        joint: Joint,
        parts: &[Cond],
        at: u32,
        yes: u32,
        no: u32,
    ) -> Mem<()>
        ensures { OnOk result (edges.new ≡ edges.old ++ joined_edges self.now joint parts.now at yes no) }
    {
        if parts.is_empty() {
            return self.add_step(edges, 0, at, yes);
        }
        let mut from = at;
        let mut left = parts.len();
        for part in parts {
            left -= 1;
            if left == 0 {
                return self.add_cond(edges, part, from, yes, no);
            }
            let next = sum(from, self.cond_room(part)?)?;
            let (on_yes, on_no) = (joint.yes_side(next, yes), joint.no_side(next, no));
            self.add_cond(edges, part, from, on_yes, on_no)?;
            from = next;
        }
        Ok(())
    }
}
