// The memory line, the draw line, and the name of an axis line, each over the line's bytes.
#![tactic(auto)]

ghost use Rattle.std.specs.Prelude.{◌≡◌};
ghost use Rattle.text.specs.Text.{fields_of};
ghost use Rattle.line.specs.Tests.{is_pair};
ghost use Rattle.line.specs.Line.{size_of, memory_of, draw_of, name_of};

// The words of a `memory` line: 0 for any other line.
pub fn memory_of(line: &[u8]) -> u64
    ensures { result ≡ memory_of (fields_of line.now) }
{
    if !is_pair(line, b"memory") {
        return 0;
    }
    size_of(tabs::field_value(tabs::second(line)))
}

// The number of a `draw` line's drawing: DRAWING_COUNT for any other line.
pub fn draw_of(line: &[u8]) -> u64
    ensures { result ≡ draw_of (fields_of line.now) }
{
    if !is_pair(line, b"draw") {
        return names::DRAWING_COUNT;
    }
    let list = names::drawings();
    tabs::index_of(&list, tabs::second(line))
}

// The number of an `axis` line's name: COUNT where it is unknown.
pub fn name_of(line: &[u8]) -> u64
    ensures { result ≡ name_of (fields_of line.now) }
{
    let list = names::list();
    tabs::index_of(&list, tabs::second(line))
}

// A memory's size: 0 for a number above PLAN_WORDS.
fn size_of(n: u64) -> u64
    ensures { result ≡ size_of n }
{
    if n <= names::PLAN_WORDS as u64 {
        return n;
    }
    0
}

// Are there two fields, the first of which is this word?
fn is_pair(line: &[u8], word: &[u8]) -> bool
    ensures { result ≡ is_pair word.now (fields_of line.now) }
{
    (tabs::count(line, 0) == 2) & (text::part(line, 0, ascii::TAB) == word)
}
