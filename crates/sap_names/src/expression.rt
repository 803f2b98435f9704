//! Faults of expressions.

ghost use Rattle.std.specs.Prelude.{◌≡◌, ◌&&◌, not};
ghost use Rattle.sap_names.specs.Widths as widths;
ghost use Rattle.sap_names.specs.NameFaults as faults;
ghost use Rattle.sap_names.specs.Best.{best_of};
ghost use Rattle.sap_names.specs.Entities.{what_is};
ghost use Rattle.sap_tree.specs.Trees.{expression_of, expressions_of};

use crate::entities::Entities;
use crate::fault::{Fault, note};
use crate::kind::{Code, Use};
use crate::usage::note_use;
use crate::width::{
    asked_left, asked_one, asked_right, else_of, family, index_width, own, sound_width,
};
use sap_tree::syntax::Expr;

fn unsettled(own: Option<u64>, asked: Option<u64>) -> bool
    ensures { result ≡ faults.unsettled own asked }
{
    match own {
        Some(w) => match asked {
            Some(r) => w != r,
            None => false,
        },
        None => asked.is_none(),
    }
}

pub fn too_large(width: Option<u64>, value: u64) -> bool
    ensures { result ≡ faults.too_large width value }
{
    match width {
        Some(w) => holds_no(w, value),
        None => false,
    }
}

fn holds_no(width: u64, value: u64) -> bool
    ensures { result ≡ faults.too_large (Some width) value }
{
    if width < 64 {
        value >= 1 << width
    } else {
        false
    }
}

// There is no own width, though all operands have one.
fn lacks(mine: Option<u64>, operands: bool) -> bool
    ensures { result ≡ (not (widths.is_sound mine) && operands) }
{
    mine.is_none() && operands
}

/// Notes the faults of an expression where its place asks for a width, or for none.
#[cycle(faults)]
#[tactic(auto, using(sap_tree::proofs::Views::views, crate::proofs::Faults::noting), unfolding(sap_tree::specs::Spots::first_of, sap_tree::specs::Spots::spot_of))]
pub fn expression_faults(names: &Entities, e: &Expr, asked: Option<u64>, best: &mut Option<Fault>)
    ensures { best.new ≡ best_of best.old (faults.expression_faults (what_is names.now) (expression_of e.now) asked) }
{
    let mine = own(names, e);
    note(best, unsettled(mine, asked), Code::E7, e.first());
    match e {
        Expr::Number(spot, value) => note(best, too_large(asked, *value), Code::E8, spot.at),
        Expr::Sized(spot, width, value) => {
            let sound = sound_width(*width);
            note(best, sound.is_none(), Code::E7, spot.at);
            note(best, too_large(sound, *value), Code::E8, spot.at);
        }
        Expr::Read(spot, name) => note_use(best, Use::Read, names.look(name), spot.at),
        Expr::Cell(spot, name, index) => {
            let what = names.look(name);
            note_use(best, Use::Indexed, what, spot.at);
            expression_faults(names, index, index_width(what), best);
        }
        Expr::Unary(_, operator, operand) => {
            let whole = else_of(mine, asked);
            expression_faults(names, operand, asked_one(*operator, whole), best);
        }
        Expr::Binary(_, operator, left, right) => {
            let whole = else_of(mine, asked);
            let one = own(names, left);
            let other = own(names, right);
            expression_faults(
                names,
                left,
                asked_left(family(*operator), whole, one, other),
                best,
            );
            expression_faults(
                names,
                right,
                asked_right(family(*operator), whole, one, other),
                best,
            );
        }
        Expr::Choose(_, condition, one, other) => {
            let whole = else_of(mine, asked);
            expression_faults(names, condition, Some(1), best);
            expression_faults(names, one, whole, best);
            expression_faults(names, other, whole, best);
        }
        Expr::Slice(spot, operand, _, _) => {
            let inner = own(names, operand);
            note(
                best,
                mine.is_none() && inner.is_some(),
                Code::E7,
                spot.first,
            );
            expression_faults(names, operand, None, best);
        }
        Expr::Concat(spot, parts) => {
            let list = parts.as_slice();
            let operands = all_sound(names, list);
            note(best, lacks(mine, operands), Code::E7, spot.first);
            parts_faults(names, list, best);
        }
        Expr::Zext(spot, operand, _) => {
            let inner = own(names, operand);
            note(
                best,
                mine.is_none() && inner.is_some(),
                Code::E7,
                spot.first,
            );
            expression_faults(names, operand, None, best);
        }
    }
}

#[cycle(faults)]
#[tactic(auto, using(crate::proofs::Parts::parts, crate::proofs::Faults::noting))]
fn parts_faults(names: &Entities, parts: &[Expr], best: &mut Option<Fault>)
    ensures { best.new ≡ best_of best.old (faults.parts_faults (what_is names.now) (expressions_of parts.now)) }
{
    match parts {
        [first, rest @ ..] => {
            expression_faults(names, first, None, best);
            parts_faults(names, rest, best);
        }
        [] => (),
    }
}

fn and_sound(width: Option<u64>, others: bool) -> bool
    ensures { result ≡ (widths.is_sound width && others) }
{
    width.is_some() && others
}

fn all_sound(names: &Entities, parts: &[Expr]) -> bool
    ensures { result ≡ widths.all_sound (what_is names.now) (expressions_of parts.now) }
{
    match parts {
        [first, rest @ ..] => {
            let width = own(names, first);
            let others = all_sound(names, rest);
            and_sound(width, others)
        }
        [] => true,
    }
}
