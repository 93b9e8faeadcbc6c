// Generated programs, whole.
ghost use Rattle.std.specs.Prelude.{◌≡◌, ◌++◌, IfOk, OnOk};
ghost use Rattle.std.specs.List.{repeat};
ghost use Rattle.fore_gen.specs.Programs.{count_lines, phase_text, program_text};

use crate::parts;
use fore_base::memory::Mem;
use fore_base::text::Text;
use fore_words::Kind;
use std::alloc::Global;

/// The text of the program of this kind with so many phases. A phase builds a structure of any size, as long as the
/// surroundings say so, and takes it apart again. Err is want of memory.
pub fn generate(alloc: Global, kind: Kind, phases: u32) -> Mem<Text>
    ensures { IfOk result (λ text. text ≡ program_text kind phases) }
{
    let mut text = Text::new(alloc);
    text.put(parts::head_text(kind))?;
    put_phases(&mut text, parts::phase_text(kind), phases)?;
    text.put(parts::tail_text())?;
    Ok(text)
}

/// Puts the phase so many times.
fn put_phases(text: &mut Text, phase: &[u8], phases: u32) -> Mem<()>
    ensures { OnOk result (text.new ≡ text.old ++ repeat phases phase.now) }
{
    for _ in 0..phases {
        text.put(phase)?;
    }
    Ok(())
}

/// How many lines a text has: one for each newline.
pub fn count_lines(text: &[u8]) -> usize
    ensures { result ≡ count_lines text.now }
{
    let mut lines = 0;
    for byte in text {
        if *byte == b'\n' {
            lines += 1;
        }
    }
    lines
}
