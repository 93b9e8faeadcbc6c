// Laws of texts: what those of boxes have in common with files of boxes, and which stores can be printed.
ghost use Rattle.std.specs.Prelude.{List};
ghost use Rattle.fore_base.specs.declared.shape.Shapes.{Shapes};
ghost use Rattle.fore_base.specs.declared.store.Store.{Store};
ghost use Rattle.c_types.specs.Program.{Program};
ghost use Rattle.fa_core.specs.Boxes.{Boxes};
ghost use Rattle.fa_lines.specs.declared.line.Line.{Line};
ghost use Rattle.fa_print.specs.Conditions.{IsPrintedStore};
ghost use Rattle.fa_print.specs.Returned.{AreReadAsPrinted, IsPrintedAsRead};
ghost use Rattle.fa_sound.specs.Soundness.{SoundForest};
ghost use Rattle.fa_written.specs.declared.draft.BoxDraft.{BoxDraft};

/// The boxes of a file whose rules stand in order of state are printed by the lines of the file, without those that
/// are passed over.
pub fn boxes_are_printed_as_read()
    ensures { (shapes : Shapes) (bs : List BoxDraft) (table : Boxes) → IsPrintedAsRead shapes bs table }
{}

/// Printed lines that may be written are read as the lines that were printed.
pub fn lines_are_read_as_printed()
    ensures { (lines : List Line) → AreReadAsPrinted lines }
{}

/// Each member of a sound forest that is printed with a program is a store that can be printed with it.
pub fn members_can_be_printed()
    ensures { (table : Boxes) (p : Program) (F : SoundForest) (s : Store) → IsPrintedStore table p F s }
{}
