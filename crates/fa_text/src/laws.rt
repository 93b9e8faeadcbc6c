// What holds of texts of sound boxes.
ghost use Rattle.std.specs.Prelude.{◌≡◌, ℕ, List};
ghost use Rattle.fore_base.specs.declared.shape.Shapes.{Shapes};
ghost use Rattle.fa_core.specs.Boxes.{Boxes};
ghost use Rattle.fa_text.specs.Files.{IsBoxFile, IsFirst};
ghost use Rattle.fa_text.specs.declared.fault.BoxFault.{BoxFault};

use fa_written::laws::{no_line_is_in_the_way, one_line_is_first, texts_write_one_list};

/// A text has at most one table over the structs of a program.
pub fn texts_have_one_table()
    ensures { (text : List ℕ) (shapes : Shapes) (one other : Boxes) → IsBoxFile text shapes one
        → IsBoxFile text shapes other → one ≡ other }
{
    texts_write_one_list();
    one_line_is_first();
    no_line_is_in_the_way();
}

/// A text breaks at most one rule first.
pub fn one_rule_is_first()
    ensures { (text : List ℕ) (shapes : Shapes) (one other : BoxFault) → IsFirst text shapes one
        → IsFirst text shapes other → one ≡ other }
{
    texts_write_one_list();
    one_line_is_first();
    no_line_is_in_the_way();
}

/// A text that has a table breaks no rule.
pub fn tables_break_none()
    ensures { (text : List ℕ) (shapes : Shapes) (table : Boxes) (fault : BoxFault) → IsBoxFile text shapes table
        → IsFirst text shapes fault → ⊥ }
{
    texts_write_one_list();
    one_line_is_first();
    no_line_is_in_the_way();
}
