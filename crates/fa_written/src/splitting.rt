// The first line of a text.
ghost use Rattle.std.specs.Prelude.{◌≡◌, ◌≤◌, ◌<◌, ◌∷◌, length};
ghost use Rattle.std.specs.List.{prefix_len};
ghost use Rattle.c_lexer.specs.Bytes.{is_no_newline};
ghost use Rattle.fa_lines.specs.Pieces.{lines_of};
ghost use Rattle.fa_written.specs.inner.Reached.{behind_newline};

use c_lexer::bytes::is_newline;

/// The number of bytes before the first newline.
#[tactic(auto, unfolding(c_lexer::specs::Bytes::is_newline, c_lexer::specs::Bytes::is_no_newline))]
fn line_size(text: &[u8]) -> usize
    ensures value { result ≡ prefix_len is_no_newline text.now }
    ensures within { result ≤ length text.now }
{
    for (i, byte) in text.iter().enumerate() {
        if is_newline(*byte) {
            return i;
        }
    }
    text.len()
}

/// What stands behind the newline in front.
fn behind_newline(text: &[u8]) -> &[u8]
    ensures value { result.now ≡ behind_newline text.now }
    ensures within { length result.now ≤ length text.now }
    ensures less { 0 < length text.now → length result.now < length text.now }
{
    match text {
        [_, others @ ..] => others,
        [] => text,
    }
}

/// The first line of a text that is not empty, without its newline, and the text behind it.
#[tactic(auto, using(crate::proofs::SplitLemmas::line_front))]
pub fn split_line(text: &[u8]) -> (&[u8], &[u8])
    requires { 0 < length text.now }
    ensures lines { lines_of text.now ≡ result.0.now ∷ lines_of result.1.now }
    ensures less { length result.1.now < length text.now }
{
    let size = line_size(text);
    let (line, rest) = text.split_at(size);
    (line, behind_newline(rest))
}
