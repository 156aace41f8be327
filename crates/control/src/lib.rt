// CONTROL, taken apart. No public function asks anything of its arguments. Each field is one shift
// and one remainder, so a function of its place and width, to share among them, is no plainer.
#![tactic(auto)]

ghost use Rattle.std.specs.Prelude.{◌≡◌};
ghost use Rattle.control.specs.Control.{transparency, windowing, right_to_left, bottom_to_top};
ghost use Rattle.control.specs.Control.{processing, disabled, bad_control};

// The last of the operations that PP counts from 0.
pub const LAST_OPERATION: u16 = 21;

// T: does a result of 0 leave the pixel as it is?
pub fn transparency(control: u16) -> bool
    ensures { result ≡ transparency control }
{
    (control >> 5) % 2 == 1
}

// W: what the window does.
pub fn windowing(control: u16) -> u16
    ensures { result ≡ windowing control }
{
    (control >> 6) % 4
}

// PBH: is a row walked from its right end?
pub fn right_to_left(control: u16) -> bool
    ensures { result ≡ right_to_left control }
{
    (control >> 8) % 2 == 1
}

// PBV: are the rows walked from the last one up?
pub fn bottom_to_top(control: u16) -> bool
    ensures { result ≡ bottom_to_top control }
{
    (control >> 9) % 2 == 1
}

// PP: the number of the operation.
pub fn processing(control: u16) -> u16
    ensures { result ≡ processing control }
{
    (control >> 10) % 32
}

// CD: is the cache disabled?
pub fn disabled(control: u16) -> bool
    ensures { result ≡ disabled control }
{
    (control >> 15) % 2 == 1
}

// Refusal 12: is PP above 21?
pub fn bad_control(control: u16) -> bool
    ensures { result ≡ bad_control control }
{
    LAST_OPERATION < processing(control)
}
