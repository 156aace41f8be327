// The eight drawings: where they draw to and what they draw from.
#![tactic(auto)]

ghost use Rattle.std.specs.Prelude.{◌≡◌};
ghost use Rattle.operation.specs.Operation.{operation_of, to_xy, from_xy, source_of};
ghost use Rattle.operation.specs.Operation.{walks_to_corner, copies, copies_pixels};

use plot::Source;

// The eight drawings, in the scope's order.
#[derive(Clone, Copy)]
pub enum Operation {
    FillL,
    FillXY,
    PixbltLL,
    PixbltLXY,
    PixbltXYL,
    PixbltXYXY,
    PixbltBL,
    PixbltBXY,
}

// The drawing of a number: 0 to 7 in the scope's order, and the last one for any other.
pub fn operation_of(number: u64) -> Operation
    ensures { result ≡ operation_of number }
{
    match number {
        0 => Operation::FillL,
        1 => Operation::FillXY,
        2 => Operation::PixbltLL,
        3 => Operation::PixbltLXY,
        4 => Operation::PixbltXYL,
        5 => Operation::PixbltXYXY,
        6 => Operation::PixbltBL,
        _ => Operation::PixbltBXY,
    }
}

// Is the destination XY?
pub fn to_xy(op: Operation) -> bool
    ensures { result ≡ to_xy op }
{
    matches!(
        op,
        Operation::FillXY | Operation::PixbltLXY | Operation::PixbltXYXY | Operation::PixbltBXY
    )
}

// Is the source XY?
pub fn from_xy(op: Operation) -> bool
    ensures { result ≡ from_xy op }
{
    matches!(op, Operation::PixbltXYL | Operation::PixbltXYXY)
}

// Does the model walk to the chosen corner?
pub fn walks_to_corner(op: Operation) -> bool
    ensures { result ≡ walks_to_corner op }
{
    matches!(
        op,
        Operation::PixbltLXY | Operation::PixbltXYL | Operation::PixbltXYXY
    )
}

// What it draws from.
pub fn source_of(op: Operation) -> Source
    ensures { result ≡ source_of op }
{
    match op {
        Operation::FillL | Operation::FillXY => Source::Color,
        Operation::PixbltLL | Operation::PixbltLXY | Operation::PixbltXYL | Operation::PixbltXYXY =>
            Source::Pixels,
        Operation::PixbltBL | Operation::PixbltBXY => Source::Bits,
    }
}

// Is there a source array?
pub fn copies(source: Source) -> bool
    ensures { result ≡ copies source }
{
    matches!(source, Source::Pixels | Source::Bits)
}

// Is there a source array of pixels?
pub fn copies_pixels(source: Source) -> bool
    ensures { result ≡ copies_pixels source }
{
    matches!(source, Source::Pixels)
}
