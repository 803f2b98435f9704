//! Whole netlists.

ghost use Rattle.std.specs.Prelude.{◌≡◌, ◌≤◌, length, IfOk};
ghost use Rattle.sap_maps.specs.Scope.{find};
ghost use Rattle.sap_net.specs.IsNetlist.{IsNetlist};
ghost use Rattle.sap_share.specs.Sets.{AreSame};
ghost use Rattle.sap_fold.specs.Settled.{Orderly};
ghost use Rattle.sap_trim.specs.Alike.{DeclaresAlike, RunsAlike};
ghost use Rattle.sap_trim.specs.Built.{built};
ghost use Rattle.sap_trim.specs.Few.{HasFewWires, most_left};
ghost use Rattle.sap_trim.specs.Folded.{IsFolded};
ghost use Rattle.sap_trim.specs.Names.{lasting_names, port_names};
ghost use Rattle.sap_trim.specs.Needed.{MarksNeeded};
ghost use Rattle.sap_trim.specs.Reads.{ReadsWires};
ghost use Rattle.sap_share.specs.Copying.{CopiesPorts};
ghost use Rattle.sap_trim.specs.Trimmed.{FoldsWires, NamesWires, NumbersWires, SharesWires};
ghost use Rattle.sap_trim.specs.Stays.{AllStay};
ghost use Rattle.sap_trim.specs.Tidied.{SettledNet, Tidied};
ghost use Rattle.sap_trim.specs.Walked.{Begins, state_of};

use crate::build::build;
use crate::left::wires_left;
use crate::names;
use crate::needed::needed;
use crate::stays::{Stay, count_kept, folded_stays, stays};
use crate::unwritten::without_reads;
use crate::walk::Walk;
use sap_fold::wires::Wires;
use sap_net::netlist::Netlist;
use sap_net::parts::{Operand, Wire};
use sap_share::name_set::NameSet;
use sap_share::table::Table;
use std::alloc::{AllocError, Global};

// The names that stay, and those of ports, of a netlist and of all that it becomes.
#[derive(Drop)]
struct Known {
    lasting: NameSet,
    shown: NameSet,
}

fn known_of(alloc: Global, netlist: &Netlist) -> Result<Known, AllocError>
    ensures lasting { IfOk result (λ k. AreSame k.lasting (lasting_names netlist.now)) }
    ensures shown { IfOk result (λ k. AreSame k.shown (port_names netlist.now)) }
{
    let lasting = names::lasting(alloc, netlist)?;
    let shown = names::ports(alloc, netlist)?;
    Ok(Known { lasting, shown })
}

// The wires that are made of those of a netlist, and what its names stand for over them.
#[derive(Drop)]
struct Made {
    wires: Vec<Wire>,
    stands: Table<Operand>,
}

// What is left of a walk at its end.
fn made_by(walk: Walk) -> Made
    ensures wires { result.wires.items ≡ walk.wires.list.items }
    ensures stands { result.stands ≡ walk.stands }
{
    let Walk { wires, stands } = walk;
    let Wires {
        list,
        numbers: _,
        next: _,
    } = wires;
    Made {
        wires: list,
        stands,
    }
}

// The wires with their right sides folded and shared.
fn folded_wires(
    alloc: Global,
    netlist: &Netlist,
    stays: Table<Stay>,
    lasting: &NameSet,
) -> Result<Made, AllocError>
    requires stays { AllStay netlist.now.wires (find stays) }
    requires lasting { AreSame lasting.now (lasting_names netlist.now) }
    ensures rules { IfOk result (λ m. IsNetlist (built netlist.now m.wires.items (find m.stands))) }
    ensures declares { IfOk result (λ m. DeclaresAlike netlist.now (built netlist.now m.wires.items (find m.stands))) }
    ensures same { IfOk result (λ m. RunsAlike netlist.now (built netlist.now m.wires.items (find m.stands))) }
    ensures folded { IfOk result (λ m. IsFolded (built netlist.now m.wires.items (find m.stands))) }
{
    netlist.rules();
    let mut walk = Walk::with_starts(alloc, netlist, stays)?;
    walk.fold_all(alloc, lasting, netlist.wires())?;
    Ok(made_by(walk))
}

/// The netlist with right sides folded and shared.
fn fold_wires(
    alloc: Global,
    netlist: &Netlist,
    stays: Table<Stay>,
    known: &Known,
) -> Result<Netlist, AllocError>
    requires stays { AllStay netlist.now.wires (find stays) }
    requires lasting { AreSame known.now.lasting (lasting_names netlist.now) }
    requires shown { AreSame known.now.shown (port_names netlist.now) }
    ensures declares { IfOk result (λ n. DeclaresAlike netlist.now n) }
    ensures same { IfOk result (λ n. RunsAlike netlist.now n) }
    ensures folded { IfOk result (λ n. IsFolded n) }
{
    let made = folded_wires(alloc, netlist, stays, &known.lasting)?;
    let Made { wires, stands } = made;
    let parts = build(alloc, netlist, &known.lasting, &known.shown, &stands, wires)?;
    Ok(Netlist::new(parts))
}

// How often a netlist is folded by what its wires say, at most.
const ROUNDS: usize = 8;

// A netlist with right sides folded and shared, and a mark for each of its wires, which those have that are needed.
#[derive(Drop)]
struct Folded {
    netlist: Netlist,
    kept: Vec<bool>,
}

fn folded_of(
    alloc: Global,
    netlist: &Netlist,
    stays: Table<Stay>,
    known: &Known,
) -> Result<Folded, AllocError>
    requires stays { AllStay netlist.now.wires (find stays) }
    requires lasting { AreSame known.now.lasting (lasting_names netlist.now) }
    requires shown { AreSame known.now.shown (port_names netlist.now) }
    ensures declares { IfOk result (λ f. DeclaresAlike netlist.now f.netlist) }
    ensures same { IfOk result (λ f. RunsAlike netlist.now f.netlist) }
    ensures folded { IfOk result (λ f. IsFolded f.netlist) }
    ensures kept { IfOk result (λ f. MarksNeeded f.netlist f.kept.items) }
{
    let folded = fold_wires(alloc, netlist, stays, known)?;
    let kept = needed(alloc, &folded)?;
    Ok(Folded {
        netlist: folded,
        kept,
    })
}

// The wires that are kept, folded each by itself and numbered in order.
fn kept_wires(
    alloc: Global,
    netlist: &Netlist,
    lasting: &NameSet,
    kept: Vec<bool>,
    mut walk: Walk,
) -> Result<Made, AllocError>
    requires lasting { AreSame lasting.now (lasting_names netlist.now) }
    requires kept { MarksNeeded netlist.now kept.items }
    requires begins { Begins netlist.now (state_of walk) }
    requires orderly { Orderly walk.wires.numbers walk.wires.list.items }
    ensures { IfOk result (λ m. Tidied netlist.now (state_of walk) (built netlist.now m.wires.items (find m.stands))) }
{
    netlist.rules();
    walk.settle_kept(alloc, lasting, &kept, netlist.wires())?;
    Ok(made_by(walk))
}

/// The netlist without the wires that are not kept, the others folded each by itself and numbered in order.
fn keep(
    alloc: Global,
    netlist: &Netlist,
    known: &Known,
    kept: Vec<bool>,
    walk: Walk,
) -> Result<Netlist, AllocError>
    requires lasting { AreSame known.now.lasting (lasting_names netlist.now) }
    requires shown { AreSame known.now.shown (port_names netlist.now) }
    requires kept { MarksNeeded netlist.now kept.items }
    requires begins { Begins netlist.now (state_of walk) }
    requires orderly { Orderly walk.wires.numbers walk.wires.list.items }
    ensures { IfOk result (λ n. Tidied netlist.now (state_of walk) n) }
{
    let made = kept_wires(alloc, netlist, &known.lasting, kept, walk)?;
    let Made { wires, stands } = made;
    let parts = build(alloc, netlist, &known.lasting, &known.shown, &stands, wires)?;
    Ok(Netlist::new(parts))
}

// The wires each folded by itself, with each register that keeps its start as that number.
fn settled_wires(alloc: Global, netlist: &Netlist, lasting: &NameSet) -> Result<Made, AllocError>
    requires { AreSame lasting.now (lasting_names netlist.now) }
    ensures { IfOk result (λ m. SettledNet netlist.now (built netlist.now m.wires.items (find m.stands))) }
{
    netlist.rules();
    let stays = stays(alloc, netlist.registers(), netlist.wires())?;
    let mut walk = Walk::with_starts(alloc, netlist, stays)?;
    walk.settle_all(alloc, lasting, netlist.wires())?;
    Ok(made_by(walk))
}

/// The netlist with each right side folded by itself, and each register that keeps its start as that number.
fn share(alloc: Global, netlist: Netlist, known: &Known) -> Result<Netlist, AllocError>
    requires lasting { AreSame known.now.lasting (lasting_names netlist) }
    requires shown { AreSame known.now.shown (port_names netlist) }
    ensures { IfOk result (λ n. SettledNet netlist n) }
{
    let made = settled_wires(alloc, &netlist, &known.lasting)?;
    let Made { wires, stands } = made;
    let parts = build(
        alloc,
        &netlist,
        &known.lasting,
        &known.shown,
        &stands,
        wires,
    )?;
    drop(netlist);
    Ok(Netlist::new(parts))
}

/// The folded netlist without the wires that nothing reads, the others numbered in order. Inputs and registers stand for themselves here, so that nothing is
/// left to fold.
fn number(
    alloc: Global,
    netlist: Netlist,
    known: &Known,
    kept: Vec<bool>,
) -> Result<Netlist, AllocError>
    requires folded { IsFolded netlist }
    requires lasting { AreSame known.now.lasting (lasting_names netlist) }
    requires shown { AreSame known.now.shown (port_names netlist) }
    requires kept { MarksNeeded netlist kept.items }
    ensures declares { IfOk result (λ n. DeclaresAlike netlist n) }
    ensures same { IfOk result (λ n. RunsAlike netlist n) }
    ensures named { IfOk result (λ n. NamesWires n) }
    ensures numbered { IfOk result (λ n. NumbersWires n) }
    ensures shared { IfOk result (λ n. SharesWires n) }
    ensures settled { IfOk result (λ n. FoldsWires n) }
    ensures copies { IfOk result (λ n. CopiesPorts n) }
    ensures read { IfOk result (λ n. ReadsWires n) }
    ensures left { IfOk result (λ n. length n.wires ≤ most_left netlist) }
{
    let walk = Walk::new(alloc, &netlist)?;
    let numbered = keep(alloc, &netlist, known, kept, walk);
    drop(netlist);
    numbered
}

/// A netlist with right sides folded and shared, and without wires that nothing reads. Folding by what the wires say that
/// a right side reads may need wires that the netlist before has not, so a round of it counts only where it leaves no more; and it goes on while more registers
/// turn out to keep their start. At no time are there more than two netlists, or one and what is made of it.
fn fold(alloc: Global, netlist: Netlist) -> Result<Netlist, AllocError>
    ensures declares { IfOk result (λ n. DeclaresAlike netlist n) }
    ensures same { IfOk result (λ n. RunsAlike netlist n) }
    ensures named { IfOk result (λ n. NamesWires n) }
    ensures numbered { IfOk result (λ n. NumbersWires n) }
    ensures shared { IfOk result (λ n. SharesWires n) }
    ensures folded { IfOk result (λ n. FoldsWires n) }
    ensures copies { IfOk result (λ n. CopiesPorts n) }
    ensures read { IfOk result (λ n. ReadsWires n) }
    ensures few { IfOk result (λ n. HasFewWires netlist n) }
{
    let known = known_of(alloc, &netlist)?;
    let mut small = share(alloc, netlist, &known)?;
    let mut kept = needed(alloc, &small)?;
    let mut left = wires_left(&small, &known.shown, &kept);
    let mut before = 0;
    for round in 0..ROUNDS {
        small.rules();
        let stays = folded_stays(alloc, &small)?;
        let stay = count_kept(alloc, &stays, small.registers())?;
        if round > 0 && stay <= before {
            break;
        }
        before = stay;
        let folded = folded_of(alloc, &small, stays, &known)?;
        let now = wires_left(&folded.netlist, &known.shown, &folded.kept);
        if left < now {
            break;
        }
        let Folded {
            netlist,
            kept: marks,
        } = folded;
        small = netlist;
        kept = marks;
        left = now;
    }
    small.rules();
    number(alloc, small, &known, kept)
}

/// A small netlist of which the same is seen: reads of memories that nothing writes are numbers, right sides are folded and shared, and wires that nothing
/// reads are dropped.
pub fn trim(alloc: Global, netlist: Netlist) -> Result<Netlist, AllocError>
    ensures declares { IfOk result (λ n. DeclaresAlike netlist n) }
    ensures same { IfOk result (λ n. RunsAlike netlist n) }
    ensures named { IfOk result (λ n. NamesWires n) }
    ensures numbered { IfOk result (λ n. NumbersWires n) }
    ensures shared { IfOk result (λ n. SharesWires n) }
    ensures folded { IfOk result (λ n. FoldsWires n) }
    ensures copies { IfOk result (λ n. CopiesPorts n) }
    ensures read { IfOk result (λ n. ReadsWires n) }
    ensures few { IfOk result (λ n. HasFewWires netlist n) }
{
    netlist.rules();
    let read = without_reads(alloc, netlist)?;
    read.rules();
    fold(alloc, read)
}
