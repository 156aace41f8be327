// Whether a line can be the listing's line of a point, seen without drawing: everything but
// `changed` is as it must be. The public function has no requires.
#![tactic(auto)]

ghost use Rattle.std.specs.Prelude.{◌≡◌, ◌≤◌, length, drop};
ghost use Rattle.text.specs.Text.{same};
ghost use Rattle.tabs.specs.Fields.{third_at};
ghost use Rattle.run.specs.Run.{ran_for, line_of};
ghost use Rattle.run.specs.Lines.{longest};
ghost use Rattle.beginning.specs.Beginning.{with_changed, changed_in, ended, could_be};

use run::Ran;

// A line without its first two fields: empty where there are no more.
fn later(line: &[u8]) -> &[u8]
    ensures { let l = line.now in result.now ≡ drop (third_at l) l }
{
    line.get(tabs::third_at(line)..).unwrap_or(&[])
}

// The number in the place of `changed`: that of the fifth field, 0 where there is none.
fn changed_in(line: &[u8]) -> u64
    ensures { result ≡ changed_in line.now }
{
    let rest = later(later(line));
    tabs::field_value(text::part(rest, 0, ascii::TAB))
}

// What an experiment gives over so many words of memory, with this number in the place of
// `changed`: all the others are those of a dry run.
fn ran_with(values: &[u64], draw: u64, words: usize, changed: u64) -> Ran
    ensures { result ≡ with_changed changed (ran_for words draw values.now) }
{
    let s = settings::settings_of(values);
    let op = operation::operation_of(draw);
    let o = drawing::outcome_for(op, s, 0, false, drawing::UNLIMITED, words);
    let time = fill_timing::fill_time(op, s, o.visited);
    Ran {
        answer: o.answer,
        visited: o.visited,
        v: o.v,
        changed,
        states: time.states,
    }
}

// Is a line, with a line end behind it, that of a point which gives this?
fn is_line(line: &[u8], point: u64, ran: Ran) -> bool
    requires { length (line_of point ran) ≤ longest }
    ensures { result ≡ same (ended line.now) (line_of point ran) }
{
    let mut text = [0u8; run::LINE];
    let end = put_lines::numbers(&mut text, 0, &ran.numbers(point)) - 1;
    line == &text[..end]
}

// Can a line be that of a point with these values?
fn like(values: &[u64], draw: u64, words: usize, point: u64, line: &[u8]) -> bool
    ensures { let l = line.now in let ran = ran_for words draw values.now in
        result ≡ same (ended l) (line_of point (with_changed (changed_in l) ran)) }
{
    let changed = changed_in(line);
    let ran = ran_with(values, draw, words, changed);
    is_line(line, point, ran)
}

// Can a line, without its line end, be that of a point over so many words of memory? False where
// the number is not below the count of the table's axes, the memory is none, or the drawing is
// above 7.
pub fn could_be(table: &[u64], axes: u64, draw: u64, words: usize, point: u64, line: &[u8]) -> bool
    ensures { let t = table.now in
        result ≡ could_be words draw axes t point line.now }
{
    if memory::no_memory(words) | (names::DRAWING_COUNT <= draw) {
        return false;
    }
    let mut values = [0u64; names::COUNT];
    if decoding::experiment(table, axes, point, &mut values).is_err() {
        return false;
    }
    like(&values, draw, words, point, line)
}
