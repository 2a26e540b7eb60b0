ghost use Rattle.std.specs.Prelude.{◌≡◌, IfOk, map, string_bytes};
ghost use Rattle.explain.specs.Comments.{comments};

use std::alloc::{AllocError, Global};

/// The lines as a text of comments.
pub(crate) fn commented(alloc: Global, lines: &[String]) -> Result<String, AllocError>
    ensures { IfOk result (λ text. string_bytes text ≡ comments (map string_bytes lines.now)) }
{
    let mut text = String::new(alloc);
    for line in lines {
        text.push_str("# ")?;
        text.push_str(line)?;
        text.push_str("\n")?;
    }
    Ok(text)
}

/// One line more.
pub(crate) fn add_line(lines: &mut Vec<String>, line: String) -> Result<(), AllocError> {
    lines.push(line)?;
    Ok(())
}
