// Plans: a text is read into a table of its axes. The first bad line decides.
#![tactic(auto)]

ghost use Rattle.std.specs.Prelude.{◌≡◌, ◌+◌, ◌<◌, ◌≤◌, ◌^◌, length};
ghost use Rattle.text.specs.Text.{fields_of};
ghost use Rattle.names.specs.Names.{name_count};
ghost use Rattle.points.specs.Axes.{most_axes, most_values};
ghost use Rattle.points.specs.Table.{entry_of};
ghost use Rattle.answers.specs.declared.Refused.TheVariants.{Form};
ghost use Rattle.axis.specs.Axis.{axis_of, stored_at};
ghost use Rattle.plan.specs.Reading.{text_limit};
ghost use Rattle.plan.specs.Table.{room, plan_of, stored_axes, table_after};
ghost use Rattle.plan.specs.Cursor.{line_at, skipped_at, PositionIn, NextLine, axes_read};
ghost use Rattle.plan.specs.State.{nothing_read};
ghost use Rattle.plan.specs.State.{after_memory, after_draw, after_axis, after_end, held_after};
ghost use Rattle.plan.specs.State.{StartsAt, LinesRead, LineRead, PlanRead};

use answers::Refused;

// A table with room for the axes of every plan has so many numbers.
pub const ROOM: usize = 528;

// A plan's text is no longer.
pub const TEXT: usize = 65536;

// An accepted plan: the memory's words, the drawing's number in the scope's order, and how many
// axes and points there are.
#[derive(Clone, Copy)]
pub struct Plan {
    pub words: u64,
    pub draw: u64,
    pub axes: u64,
    pub points: u64,
}

// A refused plan: the refusal, and its line, 0 where the table is too short.
#[derive(Clone, Copy)]
pub struct BadPlan {
    pub refused: Refused,
    pub line: u64,
}

// The plan of a text. The axes of an accepted one are stored at the table's start; a refused one
// leaves the table as lent. 9 where that has no room.
pub fn read(text: &[u8], table: &mut [u64]) -> Result<Plan, BadPlan>
    ensures { let x = text.now in let t = table.old in
        (result ≡ plan_of x (length t)) × (table.new ≡ table_after x t) }
{
    if table.len() < ROOM {
        return Err(BadPlan {
            refused: Refused::Arguments,
            line: 0,
        });
    }
    if TEXT < text.len() {
        return Err(bad_form(1));
    }
    let s = read_lines(text)?;
    store_axes(text, table, s.starts, s.plan.axes);
    Ok(s.plan)
}

// A line of the text: where it starts, where it ends, and its number.
#[derive(Clone, Copy)]
struct Cursor {
    at: usize,
    end: usize,
    line: u64,
}

// A reader of a plan: its text, the place where its next line starts, and that line's number.
#[derive(Clone, Copy)]
struct Reader<'a> {
    text: &'a [u8],
    at: usize,
    line: u64,
}

// What is held of the lines read so far: the plan up to here, which names came, and where each axis
// line starts. Before the memory line the plan has no words, before the draw line DRAWING_COUNT for
// the drawing.
#[derive(Clone, Copy)]
struct State {
    plan: Plan,
    seen: [bool; names::COUNT],
    starts: [usize; 8],
}

// The first pass: one reader is carried through its text, and each line that is not skipped is
// taken in. The first bad line ends the loop, or what follows the last line, and no count.
fn read_lines(text: &[u8]) -> Result<State, BadPlan>
    requires { length text.now ≤ text_limit }
    ensures { PlanRead text.now result }
{
    let mut r = reader_of(text);
    let mut s = nothing_read();
    loop {
        let c = next(r);
        if text.len() <= c.end {
            return at_end(s, c.at < text.len(), c.line);
        }
        s = taken(text, c, s)?;
        r = behind(r, c);
    }
}

// A reader at its text's start.
fn reader_of<'a>(text: &'a [u8]) -> Reader<'a>
    ensures { (result.text ≡ text.entry) × ((result.at ≡ 0) × (result.line ≡ 1)) }
{
    Reader {
        text,
        at: 0,
        line: 1,
    }
}

// The reader's next line that is not skipped, or what follows the last line.
fn next<'a>(r: Reader<'a>) -> Cursor
    requires { PositionIn r.text.now r.at r.line }
    ensures { NextLine r.entry.text.now r.entry.at r.entry.line result }
{
    line_from(r.text, r.at, r.line)
}

// The reader behind a line.
fn behind<'a>(r: Reader<'a>, c: Cursor) -> Reader<'a>
    requires { (c.end + 1 < 2 ^ 64) × (c.line + 1 < 2 ^ 64) }
    ensures { (result.text ≡ r.entry.text)
        × ((result.at ≡ c.end + 1) × (result.line ≡ c.line + 1)) }
{
    Reader {
        text: r.text,
        at: c.end + 1,
        line: c.line + 1,
    }
}

// The work: the lines from a place on are passed while they are skipped ones. A loop by places of
// the text, since the line's place and number are handed back.
fn line_from(text: &[u8], from: usize, number: u64) -> Cursor
    requires { PositionIn text.now from number }
    ensures { NextLine text.now from number result }
{
    let mut at = from;
    let mut end = text::part_end(text, from, ascii::LINE_END);
    let mut line = number;
    while is_skipped(text, at, end) {
        at = end + 1;
        end = text::part_end(text, at, ascii::LINE_END);
        line += 1;
    }
    Cursor { at, end, line }
}

// Is this a line, and empty or starting with #?
fn is_skipped(text: &[u8], at: usize, end: usize) -> bool
    requires { (at ≤ length text.now) × (end ≡ at + length (line_at text.now at)) }
    ensures { result ≡ skipped_at text.now at end }
{
    if text.len() <= end {
        return false;
    }
    if at == end {
        return true;
    }
    text[at] == ascii::HASH
}

// The second pass, over an accepted plan: the axes whose lines start at these places are stored at
// the table's start.
fn store_axes(text: &[u8], table: &mut [u64], starts: [usize; 8], axes: u64)
    requires { (room ≤ length table.old) × StartsAt text.now starts axes }
    ensures { table.new
        ≡ stored_axes (axes_read text.now) table.old }
{
    let mut used = 0;
    for at in &starts[..axes as usize] {
        let line = text::part(text, *at, ascii::LINE_END);
        used = store_axis(line, table, used);
    }
}

// Stores an axis from an index on: its name, its length and its values. Hands back the index behind
// it.
fn store_axis(line: &[u8], table: &mut [u64], at: usize) -> usize
    requires { at + length (entry_of (axis_of (fields_of line.now))) ≤ length table.old }
    ensures after { let entry = entry_of (axis_of (fields_of line.now)) in
        result ≡ at + length entry }
    ensures entered { let entry = entry_of (axis_of (fields_of line.now)) in
        table.new ≡ stored_at at entry table.old }
{
    table[at] = line::name_of(line);
    let count = axis::store_values(line, table, at + 2);
    table[at + 1] = count;
    at + 2 + count as usize
}

// Before the first line.
fn nothing_read() -> State
    ensures { result ≡ nothing_read }
{
    let plan = Plan {
        words: 0,
        draw: names::DRAWING_COUNT,
        axes: 0,
        points: 1,
    };
    State {
        plan,
        seen: [false; names::COUNT],
        starts: [0; 8],
    }
}

// The next line that is not skipped is taken in.
fn taken(text: &[u8], c: Cursor, s: State) -> Result<State, BadPlan>
    requires { (c.end < length text.now)
        × (NextLine text.now c.at c.line c)
        × LinesRead text.now s c.at c.line }
    ensures { LineRead text.now c result }
{
    let plan = s.plan;
    let line = &text[c.at..c.end];
    if plan.words == 0 {
        return with_memory(s, line::memory_of(line), c.line);
    }
    if plan.draw == names::DRAWING_COUNT {
        return with_draw(s, line::draw_of(line), c.line);
    }
    with_axis(s, line, c)
}

// The memory line: 20 where its words are 0.
fn with_memory(s: State, words: u64, line: u64) -> Result<State, BadPlan>
    ensures { result ≡ after_memory s words line }
{
    if words == 0 {
        return Err(bad_form(line));
    }
    let plan = Plan {
        words,
        draw: names::DRAWING_COUNT,
        axes: 0,
        points: 1,
    };
    Ok(State { plan, ..s })
}

// The draw line: 20 where it has none of the eight drawings.
fn with_draw(s: State, draw: u64, line: u64) -> Result<State, BadPlan>
    ensures { result ≡ after_draw s draw line }
{
    if names::DRAWING_COUNT <= draw {
        return Err(bad_form(line));
    }
    let plan = Plan {
        words: s.plan.words,
        draw,
        axes: 0,
        points: 1,
    };
    Ok(State { plan, ..s })
}

// An axis line: its refusal, or an axis more.
fn with_axis(s: State, line: &[u8], c: Cursor) -> Result<State, BadPlan>
    requires { s.plan.points ≤ most_values ^ s.plan.axes }
    ensures { result ≡ after_axis s (fields_of line.now) c }
{
    match axis::axis_of(line, s.seen, s.plan.axes) {
        Ok(a) => Ok(with_values(s, a.name, a.count, c.at)),
        Err(refused) => Err(BadPlan {
            refused,
            line: c.line,
        }),
    }
}

// With an axis more, of a name and so many values, whose line starts at a place.
fn with_values(s: State, name: u64, count: u64, at: usize) -> State
    requires { (name < name_count)
        × (count ≤ most_values)
        × (s.plan.axes < most_axes)
        × (s.plan.points ≤ most_values ^ s.plan.axes) }
    ensures { result ≡ held_after s name count at }
{
    let mut seen = s.seen;
    let mut starts = s.starts;
    let plan = s.plan;
    seen[name as usize] = true;
    starts[plan.axes as usize] = at;
    let plan = Plan {
        words: plan.words,
        draw: plan.draw,
        axes: plan.axes + 1,
        points: plan.points * count,
    };
    State { plan, seen, starts }
}

// Behind the last line: 20 where something is left, or where the memory line or the draw line is
// missing.
fn at_end(s: State, left: bool, line: u64) -> Result<State, BadPlan>
    ensures { result ≡ after_end s left line }
{
    if left | (s.plan.draw == names::DRAWING_COUNT) {
        return Err(bad_form(line));
    }
    Ok(s)
}

// 20 on a line.
fn bad_form(line: u64) -> BadPlan
    ensures { result ≡ record { refused = Form; line = line } }
{
    BadPlan {
        refused: Refused::Form,
        line,
    }
}
