// Laws of cases, each the contract of a function that does nothing.

ghost use Rattle.std.specs.Prelude.{◌≡◌, List};
ghost use Rattle.fore_base.specs.declared.store.Store.{Store};
ghost use Rattle.fa_core.specs.Member.{Regroups, Stands};
ghost use Rattle.fa_core.specs.declared.boxes.BoxDef.{BoxDef};
ghost use Rattle.fa_core.specs.declared.faces.Face.{Face};
ghost use Rattle.fa_core.specs.declared.forest.Forest.{Forest};
ghost use Rattle.c_cfg.specs.declared.graph.Edge.{Edge};
ghost use Rattle.c_cfg.specs.declared.graph.Instr.{Instr};
ghost use Rattle.sym_core.specs.Cases.{BadAt, CaseOf, IsTrueBad};
ghost use Rattle.sym_core.specs.Kept.{Keeps};
ghost use Rattle.sym_core.specs.Refined.{Refines};

/// A forest that keeps the box edges that an edge does not need is a case of it.
pub fn kept_cases_are_cases()
    ensures { (face : Face) (T : List BoxDef) (F M : Forest) (e : Edge) → Keeps face T F e M → CaseOf face T F e M }
{}

/// A forest that is regrouped refines the first for each edge, and one that refines a refined forest refines the first.
pub fn refining_goes_on()
    ensures regrouped { (face : Face) (T : List BoxDef) (i : Instr) (F G : Forest) → Regroups T F G
        → Refines face T i F G }
    ensures on { (face : Face) (T : List BoxDef) (i : Instr) (F G H : Forest) → Refines face T i F G
        → Refines face T i G H → Refines face T i F H }
{}

/// What a refined forest becomes along the edge, the first one becomes: its members are the first one's, what keeps its
/// box edges keeps those of the first, and its true faults are true faults of the first.
pub fn refined_cases_are_cases()
    ensures members { (face : Face) (T : List BoxDef) (i : Instr) (F G : Forest) → Refines face T i F G → (s : Store)
        → Stands face.shapes.structs T G s → Stands face.shapes.structs T F s }
    ensures keeps { (face : Face) (T : List BoxDef) (e : Edge) (F G M : Forest) → Refines face T e.instr F G
        → Keeps face T G e M → Keeps face T F e M }
    ensures bads { (face : Face) (T : List BoxDef) (e : Edge) (F G : Forest) (b : BadAt) → Refines face T e.instr F G
        → IsTrueBad face T G e b → IsTrueBad face T F e b }
{}
