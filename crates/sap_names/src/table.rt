//! The names of a design.

ghost use Rattle.std.specs.Prelude.{◌≡◌, ◌<◌, [], length, slice_get, option_map, IfOk, OnOk, IsErrOf, Some};
ghost use Rattle.sap_lattice.specs.Levels.{order_of};
ghost use Rattle.sap_names.specs.Entities.{HaveWidths, declared_width, dynamic_of, enforced_of, entities_of, find, kind_of_declared, number_of, what_is};
ghost use Rattle.sap_names.specs.Fault.{First};
ghost use Rattle.sap_names.specs.NameFaults.{design_name_faults};
ghost use Rattle.sap_names.specs.declared.kind.Code.{Code};
ghost use Rattle.sap_names.specs.declared.fault.CheckFault.TheVariants.{Rule};
ghost use Rattle.sap_text.specs.declared.place.Place.{Place};
ghost use Rattle.sap_names.specs.Widths.{own};
ghost use Rattle.sap_tree.specs.Designs.{design_of};
ghost use Rattle.sap_tree.specs.Trees.{expression_of};

use crate::design::first_fault;
use crate::entities::Entities;
use crate::entity::Entity;
use crate::fault::CheckFault;
use crate::kind::{Declared, EntityKind};
use crate::width::own;
use sap_lattice::lattice::Lattice;
use sap_tree::design::Design;
use sap_tree::name::Name;
use sap_tree::syntax::Expr;
use sap_tree::whole::design_is_whole;
use std::alloc::Global;
use std::marker::Model;

/// The names of a design with what they stand for, numbered from 0 in the order of the text.
#[derive(Drop)]
pub struct Names {
    entities: Entities,
}

impl Model for Names {
    ghost use Rattle.std.specs.Prelude.{List, length, ◌<◌, ◌^◌};
    ghost use Rattle.sap_names.specs.Entities.{Entity, HaveWidths};

    ghost Value = { List Entity };

    ghost view = { λ n. n.entities };

    ghost invariant = { λ n. (length n.entities < 2 ^ 32) × HaveWidths n.entities };
}

impl Names {
    /// The names of a design that has no fault of names and widths. Otherwise the first of its faults, by place and then by code.
    pub fn build(alloc: Global, design: &Design, lattice: &Lattice) -> Result<Names, CheckFault>
        ensures names { IfOk result (λ n. n ≡ entities_of (design_of design.now)) }
        ensures faultless { OnOk result (design_name_faults lattice.now.names (order_of lattice.now).le (design_of design.now) ≡ []) }
        ensures first { (code : Code) (place : Place) → IsErrOf result (Rule code place)
            → First (Some (record { code = code; place = place })) (design_name_faults lattice.now.names (order_of lattice.now).le (design_of design.now)) }
    {
        let entities = Entities::new(alloc, design)?;
        match first_fault(lattice, &entities, design) {
            Some(fault) => Err(CheckFault::Rule(fault.code, fault.place)),
            None => {
                design_is_whole(design);
                Ok(Names { entities })
            }
        }
    }

    /// Inputs, registers and memories have widths from 1 to 64.
    pub fn have_widths(&self)
        ensures { HaveWidths self.now }
    {
        let _ = &self.entities;
    }

    /// How many names there are.
    pub fn count(&self) -> u32
        ensures { result ≡ length self.now }
    {
        self.entities.as_slice().len() as u32
    }

    /// The entity of this number.
    pub fn entity(&self, entity: u32) -> &Entity
        requires { entity < length self.now }
        ensures { slice_get self.now entity ≡ Some result.now }
    {
        &self.entities.as_slice()[entity as usize]
    }

    pub fn name(&self, entity: u32) -> &Name
        requires { entity < length self.now }
        ensures { option_map (λ e. e.name.name) (slice_get self.now entity) ≡ Some result.now }
    {
        &self.entity(entity).name.name
    }

    pub fn kind(&self, entity: u32) -> EntityKind
        requires { entity < length self.now }
        ensures { option_map (λ e. kind_of_declared e.what) (slice_get self.now entity) ≡ Some result }
    {
        self.entity(entity).what.kind()
    }

    /// The declared width; 0 for a state.
    pub fn width(&self, entity: u32) -> u32
        requires { entity < length self.now }
        ensures { option_map (λ e. declared_width e.what) (slice_get self.now entity) ≡ Some result }
    {
        self.have_widths();
        self.entity(entity).what.width() as u32
    }

    /// The number of the entity whose name is this text; none where there is no such entity.
    pub fn find(&self, name: &str) -> Option<u32>
        ensures { result ≡ number_of self.now name.now }
    {
        let number = self.entities.number(name.as_bytes())?;
        Some(number as u32)
    }

    /// The number of the entity whose name is this text; none where there is no such entity.
    pub fn number(&self, name: &Name) -> Option<u32>
        ensures { result ≡ number_of self.now name.now }
    {
        let number = self.entities.number(name.as_bytes())?;
        Some(number as u32)
    }

    /// What a name stands for.
    pub fn look(&self, name: &Name) -> Option<Declared>
        ensures { result ≡ what_is self.now name.now }
    {
        self.entities.look(name)
    }

    /// The own width of an expression.
    pub fn own_width(&self, e: &Expr) -> Option<u64>
        ensures { result ≡ own (what_is self.now) (expression_of e.now) }
    {
        own(&self.entities, e)
    }

    /// Whether a name stands for a dynamic entity.
    pub fn is_dynamic(&self, name: &Name) -> bool
        ensures { result ≡ dynamic_of (find self.now name.now) }
    {
        match self.entities.find(name.as_bytes()) {
            Some(entity) => entity.dynamic,
            None => false,
        }
    }

    /// Whether a name stands for an enforced entity.
    pub fn is_enforced(&self, name: &Name) -> bool
        ensures { result ≡ enforced_of (find self.now name.now) }
    {
        match self.entities.find(name.as_bytes()) {
            Some(entity) => !entity.dynamic,
            None => false,
        }
    }
}
