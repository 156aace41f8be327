// The fields of a line, parted by one tab: which and how many there are, and each as a number.
#![tactic(auto)]

ghost use Rattle.std.specs.Prelude.{◌≡◌, [], ◌+◌, ◌≤◌, length, get_or};
ghost use Rattle.lists.specs.Search.{first};
ghost use Rattle.ascii.specs.Ascii.{tab};
ghost use Rattle.text.specs.Text.{fields_of, same};
ghost use Rattle.text.specs.Part.{PartOf};
ghost use Rattle.tabs.specs.Fields.{fields_from, behind, third_at, field_value, no_number};

// The second field, as that part of the line: empty where there is none.
pub fn second(line: &[u8]) -> &[u8]
    ensures { let l = line.now in
        (result.now ≡ get_or (fields_of l) 1 []) × PartOf line.entry result (behind l 0) tab }
{
    text::part(line, behind(line, 0), ascii::TAB)
}

// The place of the third field: past the line's end where there is none.
pub fn third_at(line: &[u8]) -> usize
    ensures { result ≡ third_at line.now }
{
    behind(line, behind(line, 0))
}

// How many fields there are from a place on.
pub fn count(line: &[u8], from: usize) -> u64
    ensures { result ≡ length (fields_from line.now from) }
{
    let Some(rest) = line.get(from..) else {
        return 0;
    };
    rest.split(|c| *c == ascii::TAB).count() as u64
}

// Which field of a list, from 0, is the same as this word: as many as there are where none is.
pub fn index_of(list: &[u8], word: &[u8]) -> u64
    ensures { result ≡ first (same word.now) (fields_of list.now) }
{
    match list.split(|c| *c == ascii::TAB).position(|f| word == f) {
        Some(n) => n as u64,
        None => count(list, 0),
    }
}

// A field as a number: 0 where it is none.
pub fn field_value(field: &[u8]) -> u64
    ensures { result ≡ field_value field.now }
{
    text::parse(field).unwrap_or(0)
}

// Is a field no number?
pub fn no_number(field: &[u8]) -> bool
    ensures { result ≡ no_number field.now }
{
    text::parse(field).is_none()
}

// The place behind the field at a place.
fn behind(line: &[u8], p: usize) -> usize
    requires { p ≤ length line.now + 1 }
    ensures { result ≡ behind line.now p }
{
    text::part_end(line, p, ascii::TAB) + 1
}
