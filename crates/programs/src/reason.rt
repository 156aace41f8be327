// Why a plan is refused, in words: one line on standard error, `PLAN:LINE: refused N: words`, with
// the word at fault where it is known.
use crate::arguments::Argument;
use crate::program::MESSAGE;
use crate::writer::Writer;
use crate::{arguments, stream};
use answers::Refused;
use plan::BadPlan;

// The line of the plan that argument i names, and whose text this is.
pub fn tell(rt: &HostRuntime, i: usize, text: &[u8], bad: BadPlan) {
    let argument = Argument::of(rt, i);
    let mut space = [0u8; MESSAGE];
    let mut line = Writer::over(&mut space);
    if arguments::is(rt, i, b"-") {
        line.bytes(b"standard input");
    } else {
        line.path(argument.text());
    }
    line.bytes(b":")
        .number(bad.line, b':')
        .named(b" refused ", u64::from(u32::from(bad.refused)), b':')
        .bytes(words_of(bad.refused));
    let word = fault_in(line_of(text, bad.line), bad.refused).unwrap_or(&[]);
    if !word.is_empty() {
        line.bytes(b": ").word(word);
    }
    line.bytes(b"\n");
    stream::complain(rt, line.text());
}

// What a refusal of a plan means.
fn words_of(refused: Refused) -> &'static [u8] {
    match refused {
        Refused::Form => b" a line has a wrong form",
        Refused::Name => b" a name is unknown or came before",
        Refused::Value => b" a value is too large for its name or stands twice",
        Refused::Count => b" more than 8 axes, or more than 64 values on one",
        _ => b"",
    }
}

// A line of a text, the lines counted from 1: an empty one where there are fewer.
fn line_of(text: &[u8], line: u64) -> &[u8] {
    let mut lines = text.split(|c| *c == ascii::LINE_END);
    lines.nth(line.saturating_sub(1) as usize).unwrap_or(&[])
}

// The word at fault, where it is known: the name of 21, and a value of 20 and of 22.
fn fault_in(line: &[u8], refused: Refused) -> Option<&[u8]> {
    match refused {
        Refused::Form => values_of(line)?
            .split(is_tab)
            .find(|field| tabs::no_number(field)),
        Refused::Name => Some(tabs::second(line)),
        Refused::Value => too_large_or_twice(line, values_of(line)?),
        _ => None,
    }
}

// The values of an `axis` line.
fn values_of(line: &[u8]) -> Option<&[u8]> {
    if text::part(line, 0, ascii::TAB) != b"axis".as_slice() {
        return None;
    }
    line.get(tabs::third_at(line)..)
}

// The first of a line's values that is too large for its name or stands before. All are numbers, as
// 20 comes first, and a number has one writing.
fn too_large_or_twice<'a>(line: &[u8], values: &'a [u8]) -> Option<&'a [u8]> {
    let greatest = names::greatest(line::name_of(line));
    for (i, field) in values.split(is_tab).enumerate() {
        let mut before = values.split(is_tab).take(i);
        if greatest < tabs::field_value(field) || before.any(|earlier| earlier == field) {
            return Some(field);
        }
    }
    None
}

fn is_tab(c: &u8) -> bool {
    *c == ascii::TAB
}
