// The axis line, over the line's bytes: its refusal, its name, and its values.
#![tactic(auto)]

ghost use Rattle.std.specs.Prelude.{◌≡◌, false, ◌||◌, ◌+◌, ◌-◌, eqb, leb, length, get_or, take, drop};
ghost use Rattle.lists.specs.Search.{any, any_pair};
ghost use Rattle.text.specs.Text.{fields_of};
ghost use Rattle.points.specs.Axes.{most_axes};
ghost use Rattle.tabs.specs.Fields.{no_number};
ghost use Rattle.values.specs.Block.{values_from, BlockAt};
ghost use Rattle.axis.specs.Axis.{values_of, bad_form, bad_name, axis_line, stored_at};

use answers::Refused;
use points::AXES;
use values::Block;

// What an `axis` line says: its name's number, and how many values it has.
#[derive(Clone, Copy)]
pub struct AxisLine {
    pub name: u64,
    pub count: u64,
}

// An `axis` line after so many axes, where these names came before. Its first 64 values are read
// once.
pub fn axis_of(line: &[u8], seen: [bool; names::COUNT], axes: u64) -> Result<AxisLine, Refused>
    ensures { result
        ≡ axis_line (λ name. get_or seen name false) axes (fields_of line.now) }
{
    let values = tabs::third_at(line);
    let name = line::name_of(line);
    let most = names::greatest(name);
    let b = values::block_at(line, values, most);
    let behind = b.behind;
    let bad = b.bad | values::any_no_number(line, behind);
    if bad_form(line, bad) {
        return Err(Refused::Form);
    }
    if bad_name(name, came(seen, name)) {
        return Err(Refused::Name);
    }
    if bad_values(line, values, most, b) {
        return Err(Refused::Value);
    }
    if too_many(axes, behind <= line.len()) {
        return Err(Refused::Count);
    }
    Ok(AxisLine {
        name,
        count: b.count as u64,
    })
}

// Stores the values of an `axis` line from an index on, as far as there is room. Hands back how
// many these are.
pub fn store_values(line: &[u8], table: &mut [u64], at: usize) -> u64
    ensures told { let values = values_of (fields_of line.now) in
        result ≡ length (take (length table.old - at) values) }
    ensures entered { let values = values_of (fields_of line.now) in
        table.new ≡ stored_at at values table.old }
{
    let mut p = tabs::third_at(line);
    for i in at..table.len() {
        if line.len() < p {
            return (i - at) as u64;
        }
        let end = text::part_end(line, p, ascii::TAB);
        table[i] = tabs::field_value(&line[p..end]);
        p = end + 1;
    }
    table.len().saturating_sub(at) as u64
}

// 20: another form, an empty name, a value that is no number, as told.
fn bad_form(line: &[u8], bad: bool) -> bool
    requires { bad ≡ any no_number (drop 2 (fields_of line.now)) }
    ensures { result ≡ bad_form (fields_of line.now) }
{
    if line.len() < tabs::third_at(line) {
        return true;
    }
    let other = text::part(line, 0, ascii::TAB) != b"axis".as_slice();
    let empty = tabs::second(line).is_empty();
    other | empty | bad
}

// 21: the name is unknown or came before.
fn bad_name(name: u64, came: bool) -> bool
    ensures { result ≡ bad_name (λ _. came) name }
{
    (names::COUNT as u64 <= name) | came
}

// Did the name come?
fn came(seen: [bool; names::COUNT], name: u64) -> bool
    ensures { result ≡ get_or seen name false }
{
    seen.get(name as usize).copied().unwrap_or(false)
}

// 22: a value from a place on is above this one, or stands twice, where the first block of them is
// known.
fn bad_values(line: &[u8], from: usize, most: u64, b: Block) -> bool
    requires { BlockAt line.now from most b }
    ensures { let values = values_from line.now from in
        result ≡ (any (leb (most + 1)) values || any_pair eqb values) }
{
    let values = b.values;
    let count = b.count;
    let behind = b.behind;
    if b.above | values::any_same(&values[..count]) {
        return true;
    }
    let above = values::any_above(line, behind, most);
    if above | values::any_among(line, behind, &values[..count]) {
        return true;
    }
    values::any_twice(line, behind)
}

// 23: more than 8 axes, or more than 64 values on one: some are left behind the first block.
fn too_many(axes: u64, left: bool) -> bool
    ensures { result ≡ (leb most_axes axes || left) }
{
    (AXES <= axes) | left
}
