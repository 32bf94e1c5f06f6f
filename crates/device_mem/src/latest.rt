//! Which call wrote each page last: its number, by container and page.

ghost use Rattle.std.specs.Prelude.{◌≡◌, ℕ, Some, None, true, false, nat_eq, IsSome, if◌then◌else◌, ◌==◌};
ghost use Rattle.std.specs.HashMap.{get};
ghost use Rattle.device_mem.specs.Latest.{latest_in};

use std::alloc::Global;
use std::collections::HashMap;

pub type Latest = HashMap<u32, HashMap<u32, usize>>;

/// The number of the call that wrote the page last.
pub fn number(latest: &Latest, c: u32, p: u32) -> Option<usize>
    ensures { result ≡ latest_in latest.now c p }
{
    match latest.get(&c) {
        Some(pages) => pages.get(&p).copied(),
        None => None,
    }
}

/// Makes room for a container's pages. Where there is no memory all is as before.
pub fn make(latest: &mut Latest, alloc: Global, c: u32) -> bool
    ensures same { (d q : ℕ) → latest_in latest.new d q ≡ latest_in latest.old d q }
    ensures there { result ≡ true → IsSome (get nat_eq latest.new c) }
{
    latest.contains_key(&c) || latest.insert(c, HashMap::new(alloc)).is_ok()
}

/// Notes which call wrote a page last, of a container with room. Where there is no memory all is as before.
pub fn note(latest: &mut Latest, c: u32, p: u32, n: usize) -> bool
    ensures yes { result ≡ true → (d q : ℕ) → latest_in latest.new d q ≡ (if c == d then (if p == q then Some n else latest_in latest.old d q) else latest_in latest.old d q) }
    ensures otherwise { result ≡ false → (d q : ℕ) → latest_in latest.new d q ≡ latest_in latest.old d q }
{
    match latest.get_mut(&c) {
        Some(pages) => note_page(pages, p, n),
        None => false,
    }
}

fn note_page(pages: &mut HashMap<u32, usize>, p: u32, n: usize) -> bool
    ensures yes { result ≡ true → (q : ℕ) → get nat_eq pages.new q ≡ (if p == q then Some n else get nat_eq pages.old q) }
    ensures otherwise { result ≡ false → (q : ℕ) → get nat_eq pages.new q ≡ get nat_eq pages.old q }
{
    pages.insert(p, n).is_ok()
}

/// Forgets a container's pages.
pub fn forget(latest: &mut Latest, c: u32)
    ensures { (d q : ℕ) → latest_in latest.new d q ≡ (if c == d then None else latest_in latest.old d q) }
{
    latest.remove(&c);
}
