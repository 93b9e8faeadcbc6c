// Laws of steps, each the contract of a function that does nothing.

ghost use Rattle.std.specs.Prelude.{◌≡◌, ℕ, List, length};
ghost use Rattle.fore_base.specs.Lists.{Every};
ghost use Rattle.fore_base.specs.declared.fault.Fault.TheVariants.{Leak};
ghost use Rattle.fore_base.specs.declared.store.Store.{Store};
ghost use Rattle.ta_core.specs.Auto.{IsRanked};
ghost use Rattle.fa_core.specs.Boxes.{IsTableOf};
ghost use Rattle.fa_core.specs.Filled.{IsFilled, IsSound};
ghost use Rattle.fa_core.specs.Member.{Stands};
ghost use Rattle.fa_core.specs.declared.boxes.BoxDef.{BoxDef};
ghost use Rattle.fa_core.specs.declared.faces.Face.{Face};
ghost use Rattle.fa_core.specs.declared.forest.Forest.{Forest};
ghost use Rattle.fa_core.specs.declared.forest.Target.TheVariants.{At};
ghost use Rattle.fa_split.specs.Split.{CanSplit, split_cells};
ghost use Rattle.fa_opening.specs.Opened.{HasFieldsAlone};
ghost use Rattle.c_cfg.specs.Edges.{Faulted, gstep};
ghost use Rattle.c_cfg.specs.declared.graph.Edge.{Edge};
ghost use Rattle.c_cfg.specs.declared.graph.Instr.TheVariants.{Free};
ghost use Rattle.sym_core.specs.Explicit.{target_at};
ghost use Rattle.sym_step.specs.Freed.{NeverLeadsBack};

/// Where a cell of its own stands in a field of a root's cell, whose slots are fields, and no way back leads to that
/// cell, nothing names it once the cell of the root is freed: every member, for each table over the face, meets a leak,
/// whatever stands in the other fields and whatever refers to the root.
pub fn freeing_above_a_cell_leaks()
    ensures { (face : Face) (T : List BoxDef) (F : Forest) (r p b : ℕ) (e : Edge) (s : Store) → IsTableOf face T
        → IsSound face F → Every IsRanked F.autos → CanSplit F r p → HasFieldsAlone F r
        → IsFilled face (split_cells F r p) → NeverLeadsBack face.boxes (split_cells F r p) (length F.autos)
        → e.instr ≡ Free b → target_at F b ≡ At r → Stands face.shapes.structs T (split_cells F r p) s
        → gstep face.shapes.structs e s ≡ Faulted Leak }
{}
