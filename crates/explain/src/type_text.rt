ghost use Rattle.std.specs.Prelude.{◌≡◌, ◌<◌, ◌≤◌, false, IfOk, string_len};

use itoa::Buffer;
use rows::TypeRow;
use std::alloc::{AllocError, Global};

/// So many bytes of a type are written at most; behind them the mark of a cut stands for the rest.
const MOST: usize = 200;

/// Stands for what is left out.
const CUT: &str = "...";

/// How deep rows are written: a part stands one deeper than the row that owns it, and the content of an element much deeper.
const DEEPEST: u32 = 96;

const CONTENT: u32 = 24;

/// What a type stands in, which says whether it needs brackets.
#[derive(Clone, Copy, PartialEq, Eq)]
enum Around {
    Choice,
    Sequence,
    Repetition,
}

/// The type of a row, in words, of any rows whatever: `*` binds most tightly, then `,` and then `|`. What is too deep or too long is left
/// out, `...` in its place, and `?` stands for a row that is not there. That the words are the right ones is tested and not proved; it
/// is proved that they are few.
pub fn write_type(alloc: Global, rows: &[TypeRow], row: u32) -> Result<String, AllocError>
    ensures { IfOk result (λ text. string_len text ≤ 203) }
{
    let mut writer = TypeText {
        rows,
        text: String::new(alloc),
        cut: false,
    };
    writer.write_row(row, Around::Choice, DEEPEST)?;
    Ok(writer.text)
}

/// What writes types of some rows, and the text so far.
#[derive(Drop)]
struct TypeText<'a> {
    rows: &'a [TypeRow],
    text: String,
    /// Whether the text is full, and has its mark.
    cut: bool,
    ghost open: { cut ≡ false → string_len text ≤ 200 },
    ghost short: { string_len text ≤ 203 },
}

impl TypeText<'_> {
    /// Writes a word, or the mark of a cut where it is too long; behind that mark nothing is written any more.
    fn push(&mut self, word: &str) -> Result<(), AllocError> {
        if self.cut {
            return Ok(());
        }
        if word.len() > MOST - self.text.len() {
            self.cut = true;
            return self.text.push_str(CUT);
        }
        self.text.push_str(word)
    }

    /// Writes the type of a row, `depth` rows deep.
    #[cycle(writing)]
    fn write_row(&mut self, row: u32, around: Around, depth: u32) -> Result<(), AllocError> {
        if self.cut {
            return Ok(());
        }
        if depth == 0 {
            return self.push(CUT);
        }
        match self.rows.get(row as usize).copied() {
            None => self.push("?"),
            Some(TypeRow::EmptyChoice) => self.push("nothing"),
            Some(TypeRow::EmptySequence) => self.push("()"),
            Some(TypeRow::Integer) => self.push("Integer"),
            Some(TypeRow::String) => self.push("String"),
            Some(TypeRow::Boolean) => self.push("Boolean"),
            Some(TypeRow::Element { tag, content }) => {
                self.push(Buffer::new().format(tag))?;
                self.write_content(content, depth)
            }
            Some(TypeRow::AnyElement { content }) => {
                self.push("any")?;
                self.write_content(content, depth)
            }
            Some(TypeRow::Sequence { first, second }) => {
                let brackets = around == Around::Repetition;
                self.write_two(first, second, Around::Sequence, brackets, depth)
            }
            Some(TypeRow::Choice { first, second }) => {
                let brackets = around != Around::Choice;
                self.write_two(first, second, Around::Choice, brackets, depth)
            }
            Some(TypeRow::Repetition { part }) => {
                self.write_row(part, Around::Repetition, depth - 1)?;
                self.push("*")
            }
        }
    }

    /// Writes the content of an element of this depth.
    #[cycle(writing)]
    fn write_content(&mut self, content: u32, depth: u32) -> Result<(), AllocError>
        requires { 0 < depth }
    {
        self.push("[")?;
        self.write_row(content, Around::Choice, depth.saturating_sub(CONTENT))?;
        self.push("]")
    }

    /// Writes both parts of a row of this depth, a sequence or a choice.
    #[cycle(writing)]
    fn write_two(
        &mut self,
        first: u32,
        second: u32,
        of: Around,
        brackets: bool,
        depth: u32,
    ) -> Result<(), AllocError>
        requires { 0 < depth }
    {
        self.push(if brackets { "(" } else { "" })?;
        self.write_row(first, of, depth - 1)?;
        self.push(if of == Around::Choice { " | " } else { ", " })?;
        self.write_row(second, of, depth - 1)?;
        self.push(if brackets { ")" } else { "" })
    }
}
