// How many points the axes of a lent table give (`Rattle.points.specs.Table`). No public function
// has a requires.
#![tactic(auto)]

ghost use Rattle.std.specs.Prelude.{◌≡◌, leb};
ghost use Rattle.lists.specs.Search.{any};
ghost use Rattle.names.specs.Names.{limit};
ghost use Rattle.points.specs.Table.{holds_axis, points_in};

use points::{AXES, VALUES};

// Is a value too large for the name? The limits are powers of two, so that one test of the values
// joined bit by bit says it of all.
fn too_large(name: u64, values: &[u64]) -> bool
    ensures { result ≡ any (leb (limit name)) values.now }
{
    let mut all = 0;
    for v in values {
        all |= *v;
    }
    names::greatest(name) < all
}

// Does the table start with an axis: a name, and 1 to 64 values, none of which is too large for it?
fn holds_axis(table: &[u64]) -> bool
    ensures { result ≡ holds_axis table.now }
{
    let len = table.len() as u64;
    if len < 2 {
        return false;
    }
    let name = table[0];
    let values = entry::length(table);
    if !((name < names::COUNT as u64) & (1 <= values) & (values <= VALUES) & (values <= len - 2)) {
        return false;
    }
    let end = 2 + values as usize;
    !too_large(name, &table[2..end])
}

// The count of points; 0 where the table does not hold the axes, or more than 8 are asked for.
pub fn points(table: &[u64], axes: u64) -> u64
    ensures { result ≡ points_in axes table.now }
{
    if axes > AXES {
        return 0;
    }
    let mut count: u64 = 1;
    let mut at = 0;
    for i in 0..axes {
        let rest = &table[at..];
        if !holds_axis(rest) {
            return 0;
        }
        count *= entry::length(rest);
        at += entry::end(rest);
    }
    count
}
