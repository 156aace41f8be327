// What the calls for C share: the answer to bad arguments, flags as numbers, results in an output
// array, and the settings as thirteen numbers of an array.
#![tactic(auto)]

ghost use Rattle.std.specs.Prelude.{◌≡◌, ◌≤◌, get_or};
ghost use Rattle.std.proofs.lemmas.List.Edits.{sets};
ghost use Rattle.settings.specs.Settings.{settings_of};
ghost use Rattle.c_arrays.specs.Out.{flag_number};
ghost use Rattle.c_arrays.specs.Settings.{too_large_at, bad_settings};

use settings::Settings;
use std::array;

// The answer to bad arguments (`bad_call` of the specs, BH_BAD_ARGUMENT of the header).
pub const BAD_CALL: u32 = 9;

// A flag as a number.
pub fn flag_number(flag: bool) -> u32
    ensures { (result ≡ flag_number flag) × (result ≤ 1) }
{
    u32::from(flag)
}

// Stores numbers at the array's start, as far as it reaches.
pub fn store_numbers<T: Copy>(out: &mut [T], numbers: &[T])
    ensures { out.new ≡ sets out.old 0 numbers.now }
{
    let n = out.len().min(numbers.len());
    out[..n].copy_from_slice(&numbers[..n]);
}

// A number of an array; one past the end is 0.
pub fn number_at(numbers: &[u32], at: usize) -> u32
    ensures { result ≡ get_or numbers.now at 0 }
{
    numbers.get(at).copied().unwrap_or(0)
}

// Are there fewer than thirteen numbers, or is one of the last three too large for its place?
pub fn bad_settings(settings: &[u32]) -> bool
    ensures { result ≡ bad_settings settings.now }
{
    let control = too_large(settings, names::CONTROL);
    let psize = too_large(settings, names::PSIZE);
    let pmask = too_large(settings, names::PMASK);
    (settings.len() < names::SETTINGS) | (control | (psize | pmask))
}

// Is the number at a name's place too large for the name?
fn too_large(settings: &[u32], number: usize) -> bool
    ensures { result ≡ too_large_at settings.now number }
{
    names::greatest(number as u64) < u64::from(number_at(settings, number))
}

// The settings that the array's first thirteen numbers are.
pub fn settings_in(settings: &[u32]) -> Settings
    ensures { result ≡ settings_of settings.now }
{
    let numbers: [u64; names::SETTINGS] = array::from_fn(|at| u64::from(number_at(settings, at)));
    settings::settings_of(&numbers)
}
