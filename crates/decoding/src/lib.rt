// A point's number decoded to its experiment, from a lent table of axes
// (`Rattle.points.specs.Table`). No public function has a requires.
#![tactic(auto)]

ghost use Rattle.std.specs.Prelude.{◌≡◌, true, ◌+◌, ◌<◌, ◌≤◌, length};
ghost use Rattle.answers.specs.Answer.{answer};
ghost use Rattle.names.specs.Names.{name_count};
ghost use Rattle.points.specs.Axes.{count};
ghost use Rattle.points.specs.Points.{indices, assigned};
ghost use Rattle.points.specs.Table.{value_in, axes_in, holds, with_defaults, answer_for, out_after};

use answers::Refused;

// Gives each axis's name the value at its index: the first index is the number divided by the count
// of the later axes, the rest of the number is decoded over these. `total` is the count of all the
// axes: divided by the first one's length it is that of the later ones. Of the last axis the number
// itself is the index: no division is needed.
fn decode(table: &[u64], axes: u64, total: u64, number: u64, out: &mut [u64])
    requires { (holds axes table.now ≡ true)
        × (total ≡ count (axes_in axes table.now))
        × (number < total)
        × (name_count ≤ length out.old) }
    ensures { let held = axes_in axes table.now in
        out.new ≡ assigned held (indices held number) out.old }
{
    if axes == 0 {
        return;
    }
    let name = table[0] as usize;
    if axes == 1 {
        out[name] = value(table, number);
        return;
    }
    let values = table[1];
    let later = total / values;
    out[name] = value(table, number / later);
    let end = 2 + values as usize;
    decode(&table[end..], axes - 1, later, number % later, out);
}

// The value at an index of the table's first axis. What is known of the table here spares the tests
// of `entry`, which would cost a tenth of the time.
fn value(table: &[u64], index: u64) -> u64
    requires { 2 + index < length table.now }
    ensures { result ≡ value_in table.now index }
{
    let at = 2 + index as usize;
    table[at]
}

// Sets the fourteen values to their defaults.
fn set_defaults(out: &mut [u64])
    requires { name_count ≤ length out.old }
    ensures { out.new ≡ with_defaults out.old }
{
    out[..names::COUNT].fill(0);
    out[names::PSIZE] = names::PSIZE_DEFAULT;
}

// The fourteen values of a point. Refused are a list with fewer than fourteen elements (Arguments),
// and a number that is not below the count (Point); the list then stays as lent.
pub fn experiment(table: &[u64], axes: u64, number: u64, out: &mut [u64]) -> Result<(), Refused>
    ensures { let t = table.now in let o = out.old in
        (answer result ≡ answer_for axes t number o) × (out.new ≡ out_after axes t number o) }
{
    if out.len() < names::COUNT {
        return Err(Refused::Arguments);
    }
    let count = counting::points(table, axes);
    if number >= count {
        return Err(Refused::Point);
    }
    set_defaults(out);
    decode(table, axes, count, number, out);
    Ok(())
}
