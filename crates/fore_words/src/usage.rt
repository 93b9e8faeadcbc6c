// What is printed where the words ask nothing.
ghost use Rattle.std.specs.Prelude.{◌≡◌};
ghost use Rattle.fore_words.specs.Usage.{usage_text};

/// The usage text: a line for each command.
pub fn usage_text() -> &'static [u8]
    ensures { result.now ≡ usage_text }
{
    b"forester verify FILE [--boxes FILE] [--height N] [--steps N] [--jobs N] [--malloc-null]
forester run FILE [--choices LIST] [--steps N] [--malloc-null]
forester gen KIND N
"
}
