// The four starting corners of an array of pixels. No public function asks anything of its
// arguments.
#![tactic(auto)]

ghost use Rattle.std.specs.Prelude.{◌≡◌};
ghost use Rattle.corner.specs.Corner.{walked, turned, corner_of, from_corner};

use walk::Walk;

// An array's walk in the chosen order, from its upper left start.
#[tactic(auto, unfolding(crate::specs::Corner::from_corner))]
pub fn from_corner(pbh: bool, pbv: bool, cols: u16, rows: u16, w: Walk) -> Walk
    ensures { result ≡ from_corner pbh pbv cols rows w }
{
    let row = corner_of(pbv, rows);
    let column = corner_of(pbh, cols);
    let start = walk::address_at(w, row, column);
    turned(pbh, pbv, Walk { start, ..w })
}

// The same from a start that is the chosen corner's pixel itself.
pub fn turned(pbh: bool, pbv: bool, w: Walk) -> Walk
    ensures { result ≡ turned pbh pbv w }
{
    let pitch = walked(pbv, w.pitch);
    let step = walked(pbh, w.step);
    Walk { pitch, step, ..w }
}

// A distance as it is walked.
fn walked(falls: bool, distance: u32) -> u32
    ensures { result ≡ walked falls distance }
{
    if falls {
        distance.wrapping_neg()
    } else {
        distance
    }
}

// The corner's row or column.
fn corner_of(last: bool, n: u16) -> u32
    ensures { result ≡ corner_of last n }
{
    if last {
        u32::from(n.saturating_sub(1))
    } else {
        0
    }
}
