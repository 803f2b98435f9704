//! How much room the lines of a trace take.

ghost use Rattle.std.specs.Prelude.{◌≡◌, ◌≤◌, ◌<◌, ◌^◌, [], ℕ, IfNone, IfSome, length};
ghost use Rattle.std.specs.Fmt.{decimal};
ghost use Rattle.sap_check.specs.Checked.{levels_in, tree_in};
ghost use Rattle.sap_check.specs.Sites.{sites_of};
ghost use Rattle.sap_check.specs.SiteTexts.{site_word};
ghost use Rattle.sap_trace.specs.Rooms.{HoldsCycle, HoldsLine, site_room};

use sap_check::Checked;
use sap_check::site::SiteKind;
use sap_stim::longest_level;
use sap_text::digits::Digits;

// How many digits the number of a site has.
fn digits(site: u32) -> usize
    ensures count { result ≡ length (decimal site) }
    ensures few { result ≤ 10 }
{
    Digits::new(u64::from(site)).as_bytes().len()
}

// How many bytes are in the word for a kind of site.
fn word(kind: SiteKind) -> usize
    ensures size { result ≡ length (site_word kind) }
    ensures short { result ≤ 6 }
{
    match kind {
        SiteKind::Write => 5,
        SiteKind::SetTag => 6,
        SiteKind::Goto => 4,
        SiteKind::Fall => 4,
    }
}

// How many bytes the line of a site takes beside its level.
fn beside_level(checked: &Checked, site: u32) -> usize
    requires from_one { 1 ≤ site }
    requires within { site ≤ length (sites_of (tree_in checked.now)) }
    ensures { result ≡ site_room (tree_in checked.now) site [] }
{
    let at = checked.site(site);
    let name = checked.entity(at.entity).as_bytes().len();
    name + word(at.kind) + digits(site) + 40
}

// The most bytes that the line of a site takes beside its level.
fn most_beside_level(checked: &Checked) -> usize
    ensures most { (k : ℕ) → 1 ≤ k → k ≤ length (sites_of (tree_in checked.now)) → site_room (tree_in checked.now) k [] ≤ result }
    ensures least { (other : ℕ) → ((k : ℕ) → 1 ≤ k → k ≤ length (sites_of (tree_in checked.now)) → site_room (tree_in checked.now) k [] ≤ other) → result ≤ other }
{
    let mut most = 0usize;
    for k in 0..checked.site_count() {
        most = beside_level(checked, k + 1).max(most);
    }
    most
}

/// For how many bytes a buffer has room at least that takes the line of any check site of a design, with the name of any
/// level, or with any number where that is the code of none. There is no answer where they are 2^64 or more.
pub fn site_room(checked: &Checked) -> Option<usize>
    ensures holds { IfSome result (HoldsLine (levels_in checked.now) (tree_in checked.now)) }
    ensures least { IfSome result (λ room. (other : ℕ) → HoldsLine (levels_in checked.now) (tree_in checked.now) other → room ≤ other) }
    ensures none { IfNone result ((other : ℕ) → HoldsLine (levels_in checked.now) (tree_in checked.now) other → 2 ^ 64 ≤ other) }
{
    if checked.site_count() == 0 {
        return Some(0);
    }
    let lattice = checked.lattice();
    lattice.lawful();
    let level = longest_level(lattice);
    let room = most_beside_level(checked).checked_add(level)?;
    Some(room)
}

/// For how many bytes a buffer has room at least that takes as many such lines as a design has check sites, and so those of
/// any cycle. There is no answer where they are 2^64 or more.
pub fn cycle_room(checked: &Checked) -> Option<usize>
    ensures holds { IfSome result (HoldsCycle (levels_in checked.now) (tree_in checked.now)) }
    ensures least { IfSome result (λ room. (other : ℕ) → HoldsCycle (levels_in checked.now) (tree_in checked.now) other → room ≤ other) }
    ensures none { IfNone result ((other : ℕ) → HoldsCycle (levels_in checked.now) (tree_in checked.now) other → 2 ^ 64 ≤ other) }
{
    let line = site_room(checked)?;
    let room = line.checked_mul(checked.site_count() as usize)?;
    Some(room)
}
