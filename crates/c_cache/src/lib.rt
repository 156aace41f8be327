// The instruction cache for C: a fetch on lent arrays.
#![tactic(auto)]

ghost use Rattle.std.specs.Prelude.{◌≡◌};
ghost use Rattle.c_cache.specs.Fetch.{FetchCall, fetch_number, state_after};

use answers::Refused;
use c_arrays::BAD_CALL;
use c_state::STATE_NUMBERS;
use cache::{Fetched, Kind};

// A fetch over the twelve numbers of a cache state; out[0] is the number of its kind.
pub fn fetch(state: &mut [u32], address: u32, control: u16, out: &mut [u32]) -> u32
    ensures { FetchCall state.old address control out.old
        result state.new out.new }
{
    if (out.len() < 1) | (state.len() < STATE_NUMBERS) {
        return BAD_CALL;
    }
    let fetched = c_state::cache_of(state).fetch(address, control);
    out[0] = fetch_number(fetched);
    hand_back(state, fetched);
    answers::answer(&fetched)
}

// The number of a fetch's kind, or of its refusal.
fn fetch_number(fetched: Result<Fetched, Refused>) -> u32
    ensures { result ≡ fetch_number fetched }
{
    match fetched {
        Ok(f) => u32::from(f.kind),
        Err(refused) => u32::from(refused),
    }
}

// Stores the state after a fetch, where it does not stay: with CD 1 it does.
fn hand_back(state: &mut [u32], fetched: Result<Fetched, Refused>)
    ensures { state.new ≡ state_after state.old fetched }
{
    if let Ok(f) = fetched
        && f.kind != Kind::Disabled
    {
        c_state::store_state(state, f.cache);
    }
}
