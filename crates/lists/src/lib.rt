// Searches in lists: their definitions and laws, and one search that the library lacks.
#![tactic(auto)]

ghost use Rattle.std.specs.Prelude.{◌≡◌, Bool};
ghost use Rattle.lists.specs.Search.{any_pair};

// Does some item stand in the relation to a later one?
pub fn any_pair<T: Copy, F: Fn(T, T) -> bool>(items: &[T], related: F) -> bool
    requires { F.IsAlwaysCallable related }
    ensures { (r : T → T → Bool) → ((x y : T) (b : Bool) → F.post related x y b → b ≡ r x y)
        → result ≡ any_pair r items.now }
{
    let mut rest = items;
    while let Some((x, others)) = rest.split_first() {
        if others.iter().any(|y| related(*x, *y)) {
            return true;
        }
        rest = others;
    }
    false
}
