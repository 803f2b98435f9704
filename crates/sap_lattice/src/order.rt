// What a relation that is an order has: bounds, joins, a least and a greatest level.

ghost use Rattle.std.specs.Prelude.{◌≡◌, ◌<◌, ◌||◌, ℕ, not, length, find, MatchOption};
ghost use Rattle.std.specs.List.{list_any};
ghost use Rattle.sap_lattice.specs.Levels.{numbers, every, is_upper_bound, is_join, is_least, is_greatest};
ghost use Rattle.sap_lattice.specs.Pairs.{breaks, IsBroken};
ghost use Rattle.sap_lattice.specs.Rows.{order_in};
ghost use Rattle.sap_lattice.specs.Rules.{IsFirstPair};

use crate::relation::Relation;

/// A rule on two levels of an order.
#[derive(Clone, Copy)]
pub enum PairRule {
    /// Not each of the two is at or below the other.
    Apart,
    /// The two have a least upper bound.
    Joined,
}

fn is_upper_bound(order: &Relation, x: usize, y: usize, u: usize) -> bool
    requires left { x < length order.now }
    requires right { y < length order.now }
    requires bound { u < length order.now }
    ensures { result ≡ is_upper_bound (order_in order.now).le x y u }
{
    order.le(x, u) && order.le(y, u)
}

// Whether j is below u where u is above x and y.
fn is_below_bound(order: &Relation, x: usize, y: usize, j: usize, u: usize) -> bool
    requires left { x < length order.now }
    requires right { y < length order.now }
    requires bound { j < length order.now }
    requires other { u < length order.now }
    ensures { let le = (order_in order.now).le in result ≡ (not (is_upper_bound le x y u) || le j u) }
{
    !is_upper_bound(order, x, y, u) || order.le(j, u)
}

/// Whether j is below every level that is above x and y.
fn is_below_bounds(order: &Relation, x: usize, y: usize, j: usize) -> bool
    requires left { x < length order.now }
    requires right { y < length order.now }
    requires bound { j < length order.now }
    ensures { let le = (order_in order.now).le in
        result ≡ every (length order.now) (λ u. not (is_upper_bound le x y u) || le j u) }
{
    (0..order.count()).all(|u| is_below_bound(order, x, y, j, u))
}

/// Whether j is the least upper bound of x and y.
fn is_join(order: &Relation, x: usize, y: usize, j: usize) -> bool
    requires left { x < length order.now }
    requires right { y < length order.now }
    requires bound { j < length order.now }
    ensures { result ≡ is_join (length order.now) (order_in order.now).le x y j }
{
    is_upper_bound(order, x, y, j) && is_below_bounds(order, x, y, j)
}

fn has_join(order: &Relation, x: usize, y: usize) -> bool
    requires left { x < length order.now }
    requires right { y < length order.now }
    ensures { result ≡ list_any (is_join (length order.now) (order_in order.now).le x y) (numbers (length order.now)) }
{
    (0..order.count()).any(|j| is_join(order, x, y, j))
}

fn breaks(order: &Relation, rule: PairRule, x: usize, y: usize) -> bool
    requires left { x < length order.now }
    requires right { y < length order.now }
    ensures { result ≡ breaks (length order.now) (order_in order.now).le rule x y }
{
    match rule {
        PairRule::Apart => order.le(x, y) && order.le(y, x),
        PairRule::Joined => !has_join(order, x, y),
    }
}

/// The first two levels that break the rule, by the place of the earlier and then of the later.
pub fn first_broken(order: &Relation, rule: PairRule) -> Option<(usize, usize)>
    ensures { let Broken = IsBroken (length order.now) (order_in order.now).le rule in
        MatchOption result ((x y : ℕ) → ¬ Broken x y) (λ p. IsFirstPair Broken p.0 p.1) }
{
    for x in 0..order.count() {
        for y in x + 1..order.count() {
            if breaks(order, rule, x, y) {
                return Some((x, y));
            }
        }
    }
    None
}

fn is_least(order: &Relation, b: usize) -> bool
    requires { b < length order.now }
    ensures { result ≡ is_least (length order.now) (order_in order.now).le b }
{
    (0..order.count()).all(|x| order.le(b, x))
}

/// The level that is below every level.
pub fn least(order: &Relation) -> Option<usize>
    ensures { result ≡ find (is_least (length order.now) (order_in order.now).le) (numbers (length order.now)) }
{
    (0..order.count()).find(|b| is_least(order, *b))
}

fn is_greatest(order: &Relation, t: usize) -> bool
    requires { t < length order.now }
    ensures { result ≡ is_greatest (length order.now) (order_in order.now).le t }
{
    (0..order.count()).all(|x| order.le(x, t))
}

/// The level that is above every level.
pub fn greatest(order: &Relation) -> Option<usize>
    ensures { result ≡ find (is_greatest (length order.now) (order_in order.now).le) (numbers (length order.now)) }
{
    (0..order.count()).find(|t| is_greatest(order, *t))
}
