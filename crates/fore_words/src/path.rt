//! Paths of files.
ghost use Rattle.std.specs.Prelude.{◌≡◌};

use std::marker::Model;

/// The path of a file, which lies in the words; contracts see its bytes.
#[derive(Drop)]
pub struct FilePath<'a> {
    text: &'a str,
}

impl<'a> Model for FilePath<'a> {
    ghost use Rattle.std.specs.Prelude.{List, ℕ};
    ghost use Rattle.std.specs.Coded.{coded_list, coded_ℕ};

    ghost Value = { List ℕ };

    ghost coded = { coded_list coded_ℕ };

    ghost view = { λ path. path.text.now };
}

impl<'a> FilePath<'a> {
    /// The path that a word is.
    pub fn new(text: &'a str) -> FilePath<'a>
        ensures { result ≡ text.entry.now }
    {
        FilePath { text }
    }

    /// The path, to be read.
    pub fn as_str(&self) -> &'a str
        ensures { result.now ≡ self.now }
    {
        self.text
    }
}
