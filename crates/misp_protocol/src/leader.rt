//! Who leads a synchronisation.

ghost use Rattle.std.specs.Prelude.{◌≡◌, ◌<◌, ◌≤◌, ◌+◌, ◌*◌, ◌^◌, ℕ, List, Some};
ghost use Rattle.misp_dialogue.specs.Dialogue.{IsNext, IsTurn};
ghost use Rattle.misp_ids.specs.declared.label.Direction.{Direction as Direct};
ghost use Rattle.misp_ids.specs.declared.label.Direction.TheVariants as directions;
ghost use Rattle.misp_protocol.specs.Counts.{no_tally};
ghost use Rattle.misp_protocol.specs.Leading.{awaited, awaited_at, led, led_at, led_by, left_at, left_by, left_of, rest_of};
ghost use Rattle.misp_protocol.specs.Text.{asking, lacking, listed, packed, synchronising, taken_in};
ghost use Rattle.misp_protocol.specs.declared.cause.Cause.TheVariants as causes;
ghost use Rattle.misp_protocol.specs.declared.leader.Stage.TheVariants as stages;
ghost use Rattle.misp_protocol.specs.declared.count.Tally.{Tally as Count};
ghost use Rattle.misp_protocol.specs.declared.part_keys.PartKeysFields.{PartKeysFields as Keys};
ghost use Rattle.misp_model.specs.declared.package.PackageFields.{PackageFields as Pack};

use crate::cause::{Body, Cause};
use crate::count::Tally;
use crate::part_keys::PartKeys;
use crate::request::{Answer, Request};
use misp_dialogue::{Leader, Side, Turn};
use misp_groups::Group;
use misp_ids::{Direction, EventId, Items};
use misp_manifest::Wanted;
use misp_model::Package;
use std::alloc::Global;
use std::collections::VecDeque;
use std::mem;

/// What is asked next, or which reply is awaited.
#[derive(Drop)]
pub(crate) enum Stage {
    Groups,
    AwaitsGroups,
    TakesGroups(Items<Group>),
    AwaitsGroupsTaken(u64),
    Lists,
    AwaitsList,
    Next,
    AwaitsWanted,
    Fetches(Wanted),
    AwaitsPart,
    Takes(Package),
    AwaitsTaken(EventId, u64),
    Over(Option<Cause>),
}

/// Leads a synchronisation: a pull by the parts that a manifest lists, or a push by its packages.
#[derive(Drop)]
pub struct SyncLeader {
    direction: Direction,
    tally: Tally,
    // The parts of a pull that are still to be asked about.
    parts: VecDeque<PartKeys>,
    // The packages of a push that are still to be handed in.
    packages: VecDeque<Package>,
    stage: Stage,
}

fn garbled(body: Body) -> Stage
    ensures { result ≡ stages.Over (Some (causes.Garbled body)) }
{
    Stage::Over(Some(Cause::Garbled(body)))
}

fn taken_in(most: u64, answer: Answer) -> Option<u64>
    ensures { result ≡ taken_in most answer }
{
    match answer {
        Answer::Taken(taken) if taken <= most => Some(taken),
        _ => None,
    }
}

// What comes after the groups.
fn groups_stage(answer: Answer) -> Stage
    ensures led { (d : Direct) (ks : List Keys) (ps : List Pack) (n : Count) →
        led_by d ks ps n result ≡ asking d n answer }
    ensures less { (k : ℕ) → left_by k result ≤ 2 ^ 69 }
{
    match answer {
        Answer::Groups(groups) => Stage::TakesGroups(groups),
        _ => garbled(Body::Groups),
    }
}

// What comes after it is told what is wanted of a part.
fn wanted_stage(answer: Answer) -> Stage
    ensures led { (d : Direct) (ks : List Keys) (ps : List Pack) (n : Count) →
        led_by d ks ps n result ≡ lacking n (rest_of d ks ps) answer }
    ensures less { (k : ℕ) → left_by k result ≤ 4 * k + 3 }
{
    match answer {
        Answer::Wanted(Some(wanted)) => Stage::Fetches(wanted),
        Answer::Wanted(None) => Stage::Next,
        _ => garbled(Body::Body),
    }
}

// What comes after a package.
fn part_stage(answer: Answer) -> Stage
    ensures led { (d : Direct) (ks : List Keys) (ps : List Pack) (n : Count) →
        led_by d ks ps n result ≡ packed n (rest_of d ks ps) answer }
    ensures less { (k : ℕ) → left_by k result ≤ 4 * k + 1 }
{
    match answer {
        Answer::Part(package) => Stage::Takes(package),
        _ => garbled(Body::Package),
    }
}

impl SyncLeader {
    /// Leads a synchronisation from its beginning.
    pub fn new(alloc: Global, direction: Direction) -> SyncLeader
        ensures { led result ≡ synchronising direction no_tally }
    {
        SyncLeader {
            direction,
            tally: Tally::none(),
            parts: VecDeque::new(alloc),
            packages: VecDeque::new(alloc),
            stage: Stage::Groups,
        }
    }

    // Asks what passes besides groups.
    fn asks_list(&mut self) -> Turn<Request, Cause>
        ensures turn { IsTurn (led_at self.old stages.Lists) (awaited self.new) result }
        ensures less { left_of self.new < left_at self.old stages.Lists }
    {
        self.stage = Stage::AwaitsList;
        match self.direction {
            Direction::Pull => Turn::Ask(Side::Source, Request::Manifest),
            Direction::Push => Turn::Ask(Side::Source, Request::Packages),
        }
    }

    // Has a package taken.
    fn takes(&mut self, parcel: Package) -> Turn<Request, Cause>
        ensures turn { IsTurn (led_at self.old (stages.Takes parcel)) (awaited self.new) result }
        ensures less { left_of self.new < left_at self.old (stages.Takes parcel) }
    {
        let fields = parcel.get();
        self.stage = Stage::AwaitsTaken(fields.event, fields.rows.as_slice().len() as u64);
        Turn::Ask(Side::Sink, Request::TakePart(parcel))
    }

    // Asks about the next part, or hands in the next package.
    fn next(&mut self) -> Turn<Request, Cause>
        ensures turn { IsTurn (led_at self.old stages.Next) (awaited self.new) result }
        ensures less { IsNext result → left_of self.new < left_at self.old stages.Next }
    {
        match self.direction {
            Direction::Pull => match self.parts.pop_front() {
                Some(part) => {
                    self.stage = Stage::AwaitsWanted;
                    Turn::Ask(Side::Sink, Request::Missing(part))
                }
                None => Turn::Over(None),
            },
            Direction::Push => match self.packages.pop_front() {
                Some(package) => self.takes(package),
                None => Turn::Over(None),
            },
        }
    }

    // Receives how many groups were taken.
    fn counts_groups(&mut self, most: u64, answer: Answer)
        ensures led { led self.new ≡ awaited_at self.old (stages.AwaitsGroupsTaken most) answer }
        ensures less { left_of self.new ≤ left_at self.old (stages.AwaitsGroupsTaken most) }
    {
        match taken_in(most, answer) {
            Some(taken) => {
                self.tally.add_groups(taken);
                self.stage = Stage::Lists;
            }
            None => self.stage = garbled(Body::Taken),
        }
    }

    // Receives how many rows of a package were taken.
    fn counts_rows(&mut self, event: &EventId, most: u64, answer: Answer)
        ensures led { led self.new
            ≡ awaited_at self.old (stages.AwaitsTaken event.now most) answer }
        ensures less { left_of self.new ≤ left_at self.old (stages.AwaitsTaken event.now most) }
    {
        match taken_in(most, answer) {
            Some(taken) => {
                self.tally.add_rows(event, taken);
                self.stage = Stage::Next;
            }
            None => self.stage = garbled(Body::Taken),
        }
    }

    // Receives the parts of a manifest.
    fn lists_parts(&mut self, answer: Answer)
        requires { self.old.direction ≡ directions.Pull }
        ensures led { led self.new ≡ listed self.old.direction self.old.tally answer }
        ensures less { left_of self.new ≤ 2 ^ 67 }
    {
        match answer {
            Answer::Manifest(parts) => {
                self.parts = VecDeque::from_vec(parts.into_vec());
                let _lengths = (self.parts.len(), self.packages.len());
                self.stage = Stage::Next;
            }
            _other => self.stage = garbled(Body::Manifest),
        }
    }

    // Receives the packages that pass.
    fn lists_packages(&mut self, answer: Answer)
        requires { self.old.direction ≡ directions.Push }
        ensures led { led self.new ≡ listed self.old.direction self.old.tally answer }
        ensures less { left_of self.new ≤ 2 ^ 67 }
    {
        match answer {
            Answer::Packages(packages) => {
                self.packages = VecDeque::from_vec(packages.into_vec());
                let _lengths = (self.parts.len(), self.packages.len());
                self.stage = Stage::Next;
            }
            _other => self.stage = garbled(Body::Package),
        }
    }

    // Receives what is listed after the groups.
    fn lists(&mut self, answer: Answer)
        ensures led { led self.new ≡ listed self.old.direction self.old.tally answer }
        ensures less { left_of self.new ≤ 2 ^ 67 }
    {
        match self.direction {
            Direction::Pull => self.lists_parts(answer),
            Direction::Push => self.lists_packages(answer),
        }
    }
}

impl Leader<Request, Answer, Tally, Cause> for SyncLeader {
    ghost use Rattle.misp_protocol.specs.Leading.{awaited, led, left_of};
    ghost use Rattle.misp_protocol.specs.declared.cause.Cause.TheVariants as causes;

    ghost dialogue = { λ l. led l };

    ghost awaited = { λ l. awaited l };

    ghost left = { λ l. left_of l };

    ghost memory = { causes.NoMemory };

    #[tactic(auto, using(crate::proofs::Led::counted_led))]
    fn count(&self) -> Tally {
        self.tally
    }

    fn turn(&mut self, _alloc: Global) -> Result<Turn<Request, Cause>, Cause> {
        Ok(match mem::replace(&mut self.stage, Stage::Over(None)) {
            Stage::Groups => {
                self.stage = Stage::AwaitsGroups;
                Turn::Ask(Side::Source, Request::Groups)
            }
            Stage::TakesGroups(groups) => {
                self.stage = Stage::AwaitsGroupsTaken(groups.as_slice().len() as u64);
                Turn::Ask(Side::Sink, Request::TakeGroups(groups))
            }
            Stage::Lists => self.asks_list(),
            Stage::Next => self.next(),
            Stage::Fetches(wanted) => {
                self.stage = Stage::AwaitsPart;
                Turn::Ask(Side::Source, Request::Rows(wanted))
            }
            Stage::Takes(package) => self.takes(package),
            Stage::Over(cause) => Turn::Over(cause),
            _ => Turn::Over(None),
        })
    }

    fn receive(&mut self, answer: Answer) {
        match mem::replace(&mut self.stage, Stage::Over(None)) {
            Stage::AwaitsGroups => self.stage = groups_stage(answer),
            Stage::AwaitsGroupsTaken(most) => self.counts_groups(most, answer),
            Stage::AwaitsList => self.lists(answer),
            Stage::AwaitsWanted => self.stage = wanted_stage(answer),
            Stage::AwaitsPart => self.stage = part_stage(answer),
            Stage::AwaitsTaken(event, most) => self.counts_rows(&event, most, answer),
            stage => self.stage = stage,
        }
    }
}
