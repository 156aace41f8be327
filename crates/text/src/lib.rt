// Text: the part up to a mark, and decimal numbers.
#![tactic(auto)]

ghost use Rattle.std.specs.Prelude.{◌≡◌, ◌+◌, length, drop};
ghost use Rattle.text.specs.Text.{up_to};
ghost use Rattle.text.specs.Part.{PartOf};
ghost use Rattle.text.specs.Number.{pushed, digits_of, number_of};

// Where the part that starts at `from` ends: at the next mark, or at the text's end.
pub fn part_end(text: &[u8], from: usize, mark: u8) -> usize
    ensures { result ≡ from + length (up_to mark (drop from text.now)) }
{
    if text.len() <= from {
        return from;
    }
    // many parts are empty
    if text[from] == mark {
        return from;
    }
    let rest = &text[from + 1..];
    from + 1 + rest.iter().position(|c| *c == mark).unwrap_or(rest.len())
}

// The part that starts at `from`, as that part of the text: an empty one past the text's end.
pub fn part(text: &[u8], from: usize, mark: u8) -> &[u8]
    ensures { PartOf text.entry result from mark }
{
    if text.len() < from {
        return &text[..0];
    }
    let end = part_end(text, from, mark);
    &text[from..end]
}

// A field as a number: none where it is no number.
pub fn parse(field: &[u8]) -> Option<u64>
    ensures { result ≡ number_of field.now }
{
    if field.is_empty() {
        return None;
    }
    if (1 < field.len()) & (field[0] == ascii::DIGIT_0) {
        return None;
    }
    digits(field)
}

// Bytes as digits, leading zeros allowed.
fn digits(field: &[u8]) -> Option<u64>
    ensures { result ≡ digits_of 0 field.now }
{
    let mut v = 0;
    for c in field {
        v = push(v, *c)?;
    }
    Some(v)
}

// A value with a digit more.
fn push(v: u64, c: u8) -> Option<u64>
    ensures { result ≡ pushed v c }
{
    if (c < ascii::DIGIT_0) | (ascii::DIGIT_9 < c) {
        return None;
    }
    v.checked_mul(10)?
        .checked_add(u64::from(c - ascii::DIGIT_0))
}
