//! The text of a sample: a program of any size to try the tool on.

ghost use Rattle.std.specs.Prelude.{◌≡◌, ◌≤◌, IfOk};
ghost use Rattle.ba_samples.specs.Text.{sample_text};

use ba_text::push_number;
use std::alloc::{AllocError, Global};

/// The text of the program with this many additions, 1 to 500. Each addition could repair it alone, and so
/// could its first statement.
///
/// The only error is out of memory.
pub fn sample_text(alloc: Global, additions: u32) -> Result<Vec<u8>, AllocError>
    requires { additions ≤ 500 }
    ensures { IfOk result (λ text. text.items ≡ sample_text additions) }
{
    let mut text = Vec::new(alloc);
    text.extend_from_slice(b"int main(void) {\n    int s = 0;\n")?;
    let line: &[u8] = b"    s = s + 1;\n";
    let lines = line.repeat(alloc, additions as usize)?;
    text.extend_from_slice(lines.as_slice())?;
    text.extend_from_slice(b"    assert(s == ")?;
    push_number(u64::from(additions) + 1, &mut text)?;
    text.extend_from_slice(b");\n    return 0;\n}\n")?;
    Ok(text)
}
