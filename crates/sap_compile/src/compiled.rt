//! What compiling gives.

use sap_check::Checked;
use sap_desk::Bytes;
use sap_hang::HangTable;
use sap_net::netlist::Netlist;

/// A well-formed design with what hangs in it, its netlist and the text of its module.
#[derive(Drop)]
pub struct Compiled {
    pub(crate) checked: Checked,
    pub(crate) hang: HangTable,
    pub(crate) netlist: Netlist,
    pub(crate) module: Bytes,
}

impl Compiled {
    ghost use Rattle.std.specs.Prelude.{◌≡◌};
    ghost use Rattle.sap_compile.specs.Parts.{checked_of, hang_of, netlist_of, module_of};

    /// The text of the module.
    pub fn module(&self) -> &Bytes
        ensures { result.now ≡ module_of self.now }
    {
        &self.module
    }

    pub fn checked(&self) -> &Checked
        ensures { result.now ≡ checked_of self.now }
    {
        &self.checked
    }

    /// What hangs on the points of the design.
    pub fn hang(&self) -> &HangTable
        ensures { result.now ≡ hang_of self.now }
    {
        &self.hang
    }

    pub fn netlist(&self) -> &Netlist
        ensures { result.now ≡ netlist_of self.now }
    {
        &self.netlist
    }

    /// The checked design and its netlist; the rest is let go.
    pub fn into_parts(self) -> (Checked, Netlist)
        ensures checked { result.0 ≡ checked_of self }
        ensures netlist { result.1 ≡ netlist_of self }
    {
        let Compiled {
            checked,
            netlist,
            hang: _,
            module: _,
        } = self;
        (checked, netlist)
    }
}
