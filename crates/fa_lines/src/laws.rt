// What holds of lines.
ghost use Rattle.std.specs.Prelude.{◌≡◌, ℕ, List};
ghost use Rattle.fa_lines.specs.Says.{Says};
ghost use Rattle.fa_lines.specs.declared.line.Line.{Line};

/// A line says at most one thing.
pub fn lines_say_one_thing()
    ensures { (bytes : List ℕ) (one other : Line) → Says bytes one → Says bytes other → one ≡ other }
{}
