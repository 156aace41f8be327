// The first axis of a lent table (`Rattle.points.specs.Table`): its length, and where its numbers
// end. No public function has a requires.
#![tactic(auto)]

ghost use Rattle.std.specs.Prelude.{◌≡◌, min, length};
ghost use Rattle.points.specs.Table.{length_in, size_in};

// Its length; 0 where the table is too short to say.
pub fn length(table: &[u64]) -> u64
    ensures { result ≡ length_in table.now }
{
    table.get(1).copied().unwrap_or(0)
}

// Where its numbers end, which is the table's own end at most.
pub fn end(table: &[u64]) -> usize
    ensures { result ≡ min (size_in table.now) (length table.now) }
{
    length(table).saturating_add(2).min(table.len() as u64) as usize
}
