//! Runs of commands and of states.

ghost use Rattle.std.specs.Prelude.{◌≡◌, ◌<◌, ◌≤◌, ℕ, IsTrue, [], ◌∷◌, find, option_map, slice_set};
ghost use Rattle.sap_meaning.specs.Checks as checks;
ghost use Rattle.sap_meaning.specs.Does.{is_constant};
ghost use Rattle.sap_meaning.specs.Program as program;
ghost use Rattle.sap_meaning.specs.Runs.{listed_alone};
ghost use Rattle.sap_program.specs.Hangs.{flags, rises};
ghost use Rattle.sap_program.specs.Views as views;
ghost use Rattle.sap_run.specs.Runs.{ArmsAble, BlockAble, CommandAble, GroupAble, HomeAble, StateAble, attempt_run, block_run, choose_run, command_run, entered, marked, picked_in, select_run, state_run, taken};
ghost use Rattle.sap_store.specs.Able.{AbleStep, AbleTerm};
ghost use Rattle.sap_store.specs.Code.{entities_in, home_in, store_in, world_in};
ghost use Rattle.sap_store.specs.Kept.{Ready};

use crate::checks::{guard, test};
use crate::effects::{Situation, act};
use sap_lattice::level::Level;
use sap_program::home::Home;
use sap_program::program::{Arm, Command, Number, State, Step};
use sap_store::entries::{child, raise};
use sap_store::environment::Environment;
use sap_store::store::Store;
use sap_store::terms::see;

/// The commands of a list, in order.
#[cycle(run)]
#[tactic(auto, using(crate::proofs::Runs::blocks, crate::proofs::Marks::marks, crate::proofs::Weights::weights))]
fn commands(
    environment: &Environment<'_>,
    at: &Home<'_>,
    store: &mut Store,
    marks: &mut [Option<Level>],
    list: &[Command],
    context: Level,
)
    requires ready { Ready (world_in environment.now) store.old }
    requires home { HomeAble environment.now at.now }
    requires able { BlockAble environment.now list.now }
    ensures store { store_in environment.now store.new ≡ (block_run environment.now at.now list.now context (store_in environment.now store.old)).store }
    ensures marks { marks.new ≡ marked (block_run environment.now at.now list.now context (store_in environment.now store.old)).refused marks.old }
    ensures ready { Ready (world_in environment.now) store.new }
{
    for one in list {
        command(environment, at, store, marks, one, context);
    }
}

#[cycle(run)]
#[tactic(auto, using(crate::proofs::Runs::commands, crate::proofs::Weights::weights))]
fn command(
    environment: &Environment<'_>,
    at: &Home<'_>,
    store: &mut Store,
    marks: &mut [Option<Level>],
    one: &Command,
    context: Level,
)
    requires ready { Ready (world_in environment.now) store.old }
    requires home { HomeAble environment.now at.now }
    requires able { CommandAble environment.now one.now }
    ensures store { store_in environment.now store.new ≡ (command_run environment.now at.now one.now context (store_in environment.now store.old)).store }
    ensures marks { marks.new ≡ marked (command_run environment.now at.now one.now context (store_in environment.now store.old)).refused marks.old }
    ensures ready { Ready (world_in environment.now) store.new }
{
    match one {
        Command::Do(step) => {
            let itself = [at.state];
            let hang = raised_alone(environment, at, &itself, step);
            attempt(environment, at, store, marks, hang, step, &[], &[], context);
        }
        Command::Try {
            step,
            hang,
            handler,
        } => {
            let handler = handler.as_slice();
            attempt(
                environment,
                at,
                store,
                marks,
                hang.numbers(),
                step,
                &[],
                handler,
                context,
            );
        }
        Command::If {
            hang,
            condition,
            yes,
            no,
        } => {
            let yes = yes.as_slice();
            let no = no.as_slice();
            let numbers = hang.numbers();
            select(
                environment,
                at,
                store,
                marks,
                numbers,
                condition,
                yes,
                no,
                context,
            );
        }
        Command::TryThen {
            step,
            hang,
            accepted,
            refused,
        } => {
            let accepted = accepted.as_slice();
            let refused = refused.as_slice();
            let numbers = hang.numbers();
            attempt(
                environment,
                at,
                store,
                marks,
                numbers,
                step,
                accepted,
                refused,
                context,
            );
        }
        Command::Case {
            hang,
            number,
            arms,
            last,
        } => {
            let arms = arms.as_slice();
            let last = last.as_slice();
            let numbers = hang.numbers();
            choose(
                environment,
                at,
                store,
                marks,
                numbers,
                number,
                arms,
                last,
                context,
            );
        }
    }
}

/// What a step with no handler raises.
fn raised_alone<'a>(
    environment: &Environment<'_>,
    at: &Home<'_>,
    itself: &'a [usize],
    step: &'a Step,
) -> &'a [usize]
    requires home { HomeAble environment.now at.now }
    requires itself { itself.now ≡ at.now.state ∷ [] }
    ensures hang { (x : ℕ) → program.listed (flags (entities_in environment.now) result.now) x ≡ listed_alone (world_in environment.now) (home_in environment.now at.now) (views.step_of (entities_in environment.now) step.now) x }
    ensures rising { IsTrue (rises result.now) }
{
    match step {
        Step::Goto { .. } => {
            if environment.program.is_dynamic(at.state) {
                itself
            } else {
                &[]
            }
        }
        Step::Fall { hang, .. } => hang.numbers(),
        Step::Set { .. } => &[],
        Step::Write { .. } => &[],
        Step::Retag { .. } => &[],
        Step::RetagCell { .. } => &[],
    }
}

/// What the number of an expression picks.
#[cycle(run)]
#[tactic(auto, using(crate::proofs::Weights::weights), unfolding(crate::specs::Runs::select_run, sap_meaning::specs::Does::select))]
fn select(
    environment: &Environment<'_>,
    at: &Home<'_>,
    store: &mut Store,
    marks: &mut [Option<Level>],
    hang: &[usize],
    condition: &Number,
    yes: &[Command],
    no: &[Command],
    context: Level,
)
    requires ready { Ready (world_in environment.now) store.old }
    requires home { HomeAble environment.now at.now }
    requires rising { IsTrue (rises hang.now) }
    requires able { AbleTerm (world_in environment.now) (views.term_of condition.now) }
    requires yes { BlockAble environment.now yes.now }
    requires no { BlockAble environment.now no.now }
    ensures store { store_in environment.now store.new ≡ (select_run environment.now at.now hang.now condition.now yes.now no.now context (store_in environment.now store.old)).store }
    ensures marks { marks.new ≡ marked (select_run environment.now at.now hang.now condition.now yes.now no.now context (store_in environment.now store.old)).refused marks.old }
    ensures ready { Ready (world_in environment.now) store.new }
{
    let seen = see(environment, store, condition);
    raise(environment, store, hang, seen.level);
    let inner = environment.lattice.join(context, seen.level);
    if seen.number == 0 {
        commands(environment, at, store, marks, no, inner);
    } else {
        commands(environment, at, store, marks, yes, inner);
    }
}

/// Whether a number is one of an arm's.
fn has(arm: &Arm, number: u64) -> bool
    ensures { result ≡ is_constant (views.constants_of arm.now) number }
{
    arm.constants.as_slice().contains(&number)
}

/// The first arm that has the number.
fn arm_with(arms: &[Arm], number: u64) -> Option<&Arm>
    ensures { option_map (λ arm. arm.now) result ≡ find (λ arm. is_constant (views.constants_of arm) number) arms.now }
{
    arms.iter().find(|arm| has(*arm, number))
}

/// The commands of the first arm that has the number, and the last ones where none has.
fn picked<'a>(arms: &'a [Arm], last: &'a [Command], number: u64) -> &'a [Command]
    ensures { result.now ≡ picked_in arms.now last.now number }
{
    match arm_with(arms, number) {
        Some(arm) => arm.block.as_slice(),
        None => last,
    }
}

/// What the number of an expression picks among arms.
#[cycle(run)]
#[tactic(auto, using(crate::proofs::Weights::weights), unfolding(crate::specs::Runs::choose_run, sap_meaning::specs::Does::select))]
fn choose(
    environment: &Environment<'_>,
    at: &Home<'_>,
    store: &mut Store,
    marks: &mut [Option<Level>],
    hang: &[usize],
    number: &Number,
    arms: &[Arm],
    last: &[Command],
    context: Level,
)
    requires ready { Ready (world_in environment.now) store.old }
    requires home { HomeAble environment.now at.now }
    requires rising { IsTrue (rises hang.now) }
    requires able { AbleTerm (world_in environment.now) (views.term_of number.now) }
    requires arms { ArmsAble environment.now arms.now last.now }
    ensures store { store_in environment.now store.new ≡ (choose_run environment.now at.now hang.now number.now arms.now last.now context (store_in environment.now store.old)).store }
    ensures marks { marks.new ≡ marked (choose_run environment.now at.now hang.now number.now arms.now last.now context (store_in environment.now store.old)).refused marks.old }
    ensures ready { Ready (world_in environment.now) store.new }
{
    let chosen = see(environment, store, number);
    raise(environment, store, hang, chosen.level);
    let inner = environment.lattice.join(context, chosen.level);
    let list = picked(arms, last, chosen.number);
    commands(environment, at, store, marks, list, inner);
}

/// The effect of a step whose test held, behind what it raises.
#[cycle(run)]
#[tactic(auto, using(crate::proofs::Weights::weights), unfolding(crate::specs::Runs::taken, sap_meaning::specs::Does::effect))]
fn take(
    environment: &Environment<'_>,
    store: &mut Store,
    marks: &mut [Option<Level>],
    here: &Situation<'_>,
    step: &Step,
)
    requires ready { Ready (world_in environment.now) store.old }
    requires home { HomeAble environment.now here.now.at.now }
    requires rising { IsTrue (rises here.now.hang.now) }
    requires able { AbleStep (world_in environment.now) (views.step_of (entities_in environment.now) step.now) }
    requires level { here.now.level ≡ checks.guard (world_in environment.now) (home_in environment.now here.now.at.now) (views.step_of (entities_in environment.now) step.now) (store_in environment.now store.old) }
    ensures store { store_in environment.now store.new ≡ (taken environment.now here.now step.now (store_in environment.now store.old)).store }
    ensures marks { marks.new ≡ marked (taken environment.now here.now step.now (store_in environment.now store.old)).refused marks.old }
    ensures ready { Ready (world_in environment.now) store.new }
{
    if let Step::Fall { .. } = step {
        let place = child(environment, store, here.at.state) as usize;
        let inner = environment.lattice.join(here.context, here.level);
        raise(environment, store, here.hang, here.level);
        enter(
            environment,
            store,
            marks,
            here.at.state,
            here.at.children,
            place,
            inner,
        );
    } else {
        act(environment, store, here, step);
    }
}

/// A step, and what follows it where it is accepted and where it is refused.
#[cycle(run)]
#[tactic(auto, using(crate::proofs::Weights::weights, crate::proofs::Marks::marks), unfolding(crate::specs::Runs::attempt_run, crate::specs::Runs::taken, sap_meaning::specs::Does::attempt_then))]
fn attempt(
    environment: &Environment<'_>,
    at: &Home<'_>,
    store: &mut Store,
    marks: &mut [Option<Level>],
    hang: &[usize],
    step: &Step,
    accepted: &[Command],
    refused: &[Command],
    context: Level,
)
    requires ready { Ready (world_in environment.now) store.old }
    requires home { HomeAble environment.now at.now }
    requires rising { IsTrue (rises hang.now) }
    requires able { AbleStep (world_in environment.now) (views.step_of (entities_in environment.now) step.now) }
    requires accepted { BlockAble environment.now accepted.now }
    requires refused { BlockAble environment.now refused.now }
    ensures store { store_in environment.now store.new ≡ (attempt_run environment.now at.now hang.now step.now accepted.now refused.now context (store_in environment.now store.old)).store }
    ensures marks { marks.new ≡ marked (attempt_run environment.now at.now hang.now step.now accepted.now refused.now context (store_in environment.now store.old)).refused marks.old }
    ensures ready { Ready (world_in environment.now) store.new }
{
    let level = guard(environment, at, store, step);
    let inner = environment.lattice.join(context, level);
    if test(environment, at, store, step, context) {
        let here = Situation {
            at: &*at,
            context,
            hang,
            level,
        };
        take(environment, store, marks, &here, step);
        commands(environment, at, store, marks, accepted, inner);
    } else {
        raise(environment, store, hang, level);
        mark(marks, step.site(), inner);
        commands(environment, at, store, marks, refused, inner);
    }
}

/// Keeps the level at which a site was refused.
fn mark(marks: &mut [Option<Level>], site: u32, level: Level)
    ensures { marks.new ≡ slice_set marks.old site (Some level) }
{
    let site = site as usize;
    if site < marks.len() {
        marks[site] = Some(level);
    }
}

/// The body of the child at a place.
#[cycle(run)]
#[tactic(auto, using(crate::proofs::Runs::states, crate::proofs::Weights::weights))]
fn enter(
    environment: &Environment<'_>,
    store: &mut Store,
    marks: &mut [Option<Level>],
    parent: usize,
    children: &[State],
    place: usize,
    context: Level,
)
    requires ready { Ready (world_in environment.now) store.old }
    requires parent { parent ≤ program.root (world_in environment.now) }
    requires able { GroupAble environment.now children.now }
    ensures store { store_in environment.now store.new ≡ (entered environment.now parent children.now place context (store_in environment.now store.old)).store }
    ensures marks { marks.new ≡ marked (entered environment.now parent children.now place context (store_in environment.now store.old)).refused marks.old }
    ensures ready { Ready (world_in environment.now) store.new }
{
    if place < children.len() {
        body(environment, store, marks, parent, &children[place], context);
    }
}

/// A state's body.
#[cycle(run)]
#[tactic(auto, using(crate::proofs::Runs::states, crate::proofs::Weights::weights))]
pub fn body(
    environment: &Environment<'_>,
    store: &mut Store,
    marks: &mut [Option<Level>],
    parent: usize,
    state: &State,
    context: Level,
)
    requires ready { Ready (world_in environment.now) store.old }
    requires parent { parent ≤ program.root (world_in environment.now) }
    requires able { StateAble environment.now state.now }
    ensures store { store_in environment.now store.new ≡ (state_run environment.now parent state.now context (store_in environment.now store.old)).store }
    ensures marks { marks.new ≡ marked (state_run environment.now parent state.now context (store_in environment.now store.old)).refused marks.old }
    ensures ready { Ready (world_in environment.now) store.new }
{
    let children = state.children.as_slice();
    let list = state.body.as_slice();
    let at = Home {
        state: state.number,
        parent,
        children,
    };
    commands(environment, &at, store, marks, list, context);
}
