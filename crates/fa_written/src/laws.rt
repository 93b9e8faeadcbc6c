// What holds of texts of boxes.
ghost use Rattle.std.specs.Prelude.{◌≡◌, ℕ, List};
ghost use Rattle.fa_written.specs.Drafts.{IsText, IsFirstBad};
ghost use Rattle.fa_written.specs.declared.draft.BoxDraft.{BoxDraft};

use fa_lines::laws::lines_say_one_thing;

/// A text is that of at most one list of boxes.
pub fn texts_write_one_list()
    ensures { (text : List ℕ) (one other : List BoxDraft) → IsText text one → IsText text other → one ≡ other }
{
    lines_say_one_thing();
}

/// At most one line is the first that is in the way.
pub fn one_line_is_first()
    ensures { (text : List ℕ) (one other : ℕ) → IsFirstBad text one → IsFirstBad text other → one ≡ other }
{
    lines_say_one_thing();
}

/// No line is in the way in a text of boxes.
pub fn no_line_is_in_the_way()
    ensures { (text : List ℕ) (boxes : List BoxDraft) (line : ℕ) → IsText text boxes → IsFirstBad text line → ⊥ }
{
    lines_say_one_thing();
}
