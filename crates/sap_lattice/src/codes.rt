// The codes of levels.

ghost use Rattle.std.specs.Prelude.{◌≡◌, ◌<◌, ◌&&◌, ◌==◌, length, filter, map, All, IfOk};
ghost use Rattle.std.specs.List.{list_any};
ghost use Rattle.sap_lattice.specs.Levels.{numbers};
ghost use Rattle.sap_lattice.specs.Codes.{is_strictly_below, is_upper_cover, is_meet_irreducible, meet_irreducibles, is_in_code, number_of};
ghost use Rattle.sap_lattice.specs.Rows.{order_in};

use crate::relation::Relation;
use std::alloc::{AllocError, Global};

/// Whether x is below y, and not y itself.
fn is_strictly_below(order: &Relation, x: usize, y: usize) -> bool
    requires left { x < length order.now }
    requires right { y < length order.now }
    ensures { result ≡ is_strictly_below (order_in order.now) x y }
{
    order.le(x, y) && x != y
}

/// Whether z is strictly between x and y.
fn is_between(order: &Relation, x: usize, z: usize, y: usize) -> bool
    requires left { x < length order.now }
    requires middle { z < length order.now }
    requires right { y < length order.now }
    ensures { let o = order_in order.now in result ≡ (is_strictly_below o x z && is_strictly_below o z y) }
{
    is_strictly_below(order, x, z) && is_strictly_below(order, z, y)
}

/// Whether a level is strictly between x and y.
fn has_between(order: &Relation, x: usize, y: usize) -> bool
    requires left { x < length order.now }
    requires right { y < length order.now }
    ensures { let o = order_in order.now in result ≡ list_any (λ z. is_strictly_below o x z && is_strictly_below o z y) (numbers (length order.now)) }
{
    (0..order.count()).any(|z| is_between(order, x, z, y))
}

/// Whether y is an upper cover of x.
fn is_upper_cover(order: &Relation, x: usize, y: usize) -> bool
    requires left { x < length order.now }
    requires right { y < length order.now }
    ensures { result ≡ is_upper_cover (order_in order.now) x y }
{
    is_strictly_below(order, x, y) && !has_between(order, x, y)
}

fn upper_cover_count(order: &Relation, x: usize) -> usize
    requires { x < length order.now }
    ensures { result ≡ length (filter (is_upper_cover (order_in order.now) x) (numbers (length order.now))) }
{
    (0..order.count())
        .filter(|y| is_upper_cover(order, x, *y))
        .count()
}

/// Whether the level is meet-irreducible: not the top, and with exactly one upper cover.
fn is_meet_irreducible(order: &Relation, top: usize, x: usize) -> bool
    requires level { x < length order.now }
    requires top { top ≡ (order_in order.now).top }
    ensures { result ≡ is_meet_irreducible (order_in order.now) x }
{
    x != top && upper_cover_count(order, x) == 1
}

/// The meet-irreducible levels, in the order of their places.
pub fn meet_irreducibles(
    alloc: Global,
    order: &Relation,
    top: usize,
) -> Result<Vec<usize>, AllocError>
    requires { top ≡ (order_in order.now).top }
    ensures { IfOk result (λ found. found.items ≡ filter (is_meet_irreducible (order_in order.now)) (numbers (length order.now))) }
{
    (0..order.count())
        .filter(|x| is_meet_irreducible(order, top, *x))
        .collect(alloc)
}

/// The code of a level: bit i is set where it is not at or below the i-th of the meet-irreducibles.
fn code_of(order: &Relation, irreducibles: &[usize], x: usize) -> u64
    requires level { x < length order.now }
    requires levels { All (λ m. m < length order.now) irreducibles.now }
    requires width { length irreducibles.now < 64 }
    ensures { result ≡ number_of (map (is_in_code (order_in order.now) x) irreducibles.now) }
{
    let mut code = 0;
    for (i, m) in irreducibles.iter().enumerate() {
        if !order.le(x, *m) {
            code |= 1 << i;
        }
    }
    code
}

/// The codes of all levels, in the order of their places.
pub fn codes_of(
    alloc: Global,
    order: &Relation,
    irreducibles: &[usize],
) -> Result<Vec<u64>, AllocError>
    requires levels { All (λ m. m < length order.now) irreducibles.now }
    requires width { length irreducibles.now < 64 }
    ensures { IfOk result (λ codes.
        codes.items
        ≡ map (λ x. number_of (map (is_in_code (order_in order.now) x) irreducibles.now)) (numbers (length order.now))) }
{
    (0..order.count())
        .map(|x| code_of(order, irreducibles, x))
        .collect(alloc)
}
