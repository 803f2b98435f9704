//! Points.

use sap_tree::place::Place;

/// A word on which entities hang.
#[derive(Clone, Copy, PartialEq, Eq, Debug)]
pub enum PointKind {
    If,
    Otherwise,
    Fall,
    Then,
    Case,
}

/// An `if`, `otherwise`, `fall`, `then` or `case`, and its place.
#[derive(Clone, Copy, PartialEq, Eq, Debug)]
pub struct Point {
    pub kind: PointKind,
    pub place: Place,
}
