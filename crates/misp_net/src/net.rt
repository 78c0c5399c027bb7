//! The run of a script.

ghost use Rattle.std.specs.Prelude.{◌≡◌, ◌<◌, ◌≤◌, ◌++◌, List, true, Ok, IfOk, IfErr, OnOk, OnErr, length, map, take, drop, vec_len, vec_capacity};
ghost use Rattle.misp_outside.specs.Causes.{RoseBy};
ghost use Rattle.misp_outside.specs.Reporting.{StaysHeld};
ghost use Rattle.misp_script.specs.Directory.{directory_of, roster_names};
ghost use Rattle.misp_script.specs.Step.{IsPlaced, command_data, step_data, step_of};
ghost use Rattle.misp_script.specs.Step as commands;
ghost use Rattle.misp_net.specs.Hosts.{described_hosts};
ghost use Rattle.misp_net.specs.Acts.{Does, Done, outputs_done};
ghost use Rattle.misp_net.specs.Asking.{names_of};
ghost use Rattle.misp_net.specs.Carrying.{carried, carry_faults};
ghost use Rattle.misp_net.specs.Passing.{IsPassedFor};
ghost use Rattle.misp_net.specs.Running.{hosts_of, states_of, CutLine, IsAdministered, RanLine};
ghost use Rattle.misp_net.specs.Lines.{lines_of};
ghost use Rattle.misp_store.specs.Sharing.{WereSound};
ghost use Rattle.misp_dialogue.specs.Parties.{GrowsBy};
ghost use Rattle.misp_net.specs.Opening.{AreKeptOrOpened, AreOpened, IsStoppedBy, IsUnopened, opened_states};
ghost use Rattle.misp_net.specs.Run.{IsDone};
ghost use Rattle.misp_net.specs.Text.{output_text, line_of};
ghost use Rattle.misp_net.specs.Walk.{hosts_done};
ghost use Rattle.misp_core.specs.Standing.{Host};
ghost use Rattle.misp_net.specs.Promise.{HasRun, IsCut, IsNetRun};

use crate::line::{Output, put_bad, put_front, put_nothing, show};
use crate::places::{NetFault, close_all, open_all};
use crate::requesting::put_request;
use crate::sessions::put_raw;
use crate::syncing::put_sync;
use misp_api::{GroupRequest, Routes, administer};
use misp_core::Instance;
use misp_ids::{NoMemory, Stamp};
use misp_outside::{Carry, Keeper};
use misp_script::{Command, Description, Directory, GroupLine, Step, read_line, split_line};
use misp_store::{groups_are_held_as_their_rows, items_are_held_beside_the_groups};
use misp_sync::{an_instance_pulls_by_the_history, an_instance_pushes_by_the_history};
use std::alloc::Global;

// The adding or editing of a group by a line.
fn group_in<'a>(line: &GroupLine<'a>) -> GroupRequest<'a>
    ensures by { result.by ≡ line.now.org }
    ensures add { result.add ≡ line.now.add }
    ensures body { result.body.now ≡ line.now.body.now }
{
    GroupRequest {
        by: line.org,
        add: line.add,
        body: line.body,
    }
}

// Administers the group of a line, and writes the reply, with room for one byte after it.
fn put_group<K: Keeper>(
    lines: &mut Vec<u8>,
    alloc: Global,
    instance: &mut Instance<K>,
    now: Stamp,
    line: &GroupLine<'_>,
) -> Result<Output, NoMemory>
    ensures text { IfOk result (λ output.
        lines.new.items ≡ lines.old.items ++ output_text output) }
    ensures room { OnOk result (vec_len lines.new < vec_capacity lines.new) }
    ensures administered { IfOk result
        (IsAdministered now (commands.group_data line.now) instance.old instance.new) }
    ensures kept { OnErr result (StaysHeld instance.old.held instance.new.held) }
    ensures later { instance.old.faults ≤ instance.new.faults }
    ensures name { instance.new.name ≡ instance.old.name }
    ensures admin { instance.new.admin ≡ instance.old.admin }
{
    let group = group_in(line);
    let start = lines.len();
    let reply = administer(lines, alloc, instance, now, &group)?;
    show(lines, alloc, start, &reply)?;
    Ok(Output::Replied(reply))
}

// Runs one step, and writes what it puts out, with room for one byte after it.
fn run_step<K: Keeper, C: Carry>(
    lines: &mut Vec<u8>,
    alloc: Global,
    routes: &Routes,
    directory: &Directory,
    instances: &mut Vec<Instance<K>>,
    carry: &mut C,
    step: &Step<'_>,
) -> Result<(), NoMemory>
    requires placed { IsPlaced (vec_len instances.old) (command_data step.now.command) }
    requires names { roster_names directory.now ≡ names_of (hosts_of instances.old.items) }
    ensures ran { OnOk result
        (RanLine (hosts_of instances.old.items) (hosts_of instances.new.items)
        (Ok (step_data step.now))
        (states_of instances.old.items) (states_of instances.new.items)
        lines.old.items lines.new.items
        (carried (C.faults carry.old) (C.passed carry.old))
        (carried (C.faults carry.new) (C.passed carry.new))) }
    ensures room { OnOk result (vec_len lines.new < vec_capacity lines.new) }
    ensures cut { OnErr result
        (CutLine (hosts_of instances.old.items) (Ok (step_data step.now))
        (states_of instances.old.items) (states_of instances.new.items)
        (C.passed carry.old) (C.passed carry.new)) }
    ensures places { vec_len instances.new ≡ vec_len instances.old }
    ensures later { C.faults carry.old ≤ C.faults carry.new }
{
    match step.command {
        Command::Nothing => put_nothing(lines),
        Command::Request(request) => {
            let instance = &mut instances[request.at];
            put_request(
                lines, alloc, routes, instance, step.time, step.word, &request,
            )?;
            Ok(())
        }
        Command::Raw(raw) => {
            let instance = &mut instances[raw.at];
            put_raw(lines, alloc, routes, instance, step.time, step.word, &raw)
        }
        Command::Group(group) => {
            let instance = &mut instances[group.at];
            put_group(lines, alloc, instance, step.time, &group)?;
            Ok(())
        }
        Command::Sync(sync) => put_sync(
            lines, alloc, routes, directory, instances, carry, step.time, step.word, &sync,
        ),
    }
}

// Runs one line, as `run_step` does a step.
fn run_line<K: Keeper, C: Carry>(
    lines: &mut Vec<u8>,
    alloc: Global,
    routes: &Routes,
    directory: &Directory,
    instances: &mut Vec<Instance<K>>,
    carry: &mut C,
    line: &[u8],
) -> Result<(), NoMemory>
    requires { roster_names directory.now ≡ names_of (hosts_of instances.old.items) }
    ensures ran { OnOk result
        (RanLine (hosts_of instances.old.items) (hosts_of instances.new.items)
        (step_of directory.now line.now)
        (states_of instances.old.items) (states_of instances.new.items)
        lines.old.items lines.new.items
        (carried (C.faults carry.old) (C.passed carry.old))
        (carried (C.faults carry.new) (C.passed carry.new))) }
    ensures room { OnOk result (vec_len lines.new < vec_capacity lines.new) }
    ensures cut { OnErr result
        (CutLine (hosts_of instances.old.items) (step_of directory.now line.now)
        (states_of instances.old.items) (states_of instances.new.items)
        (C.passed carry.old) (C.passed carry.new)) }
    ensures places { vec_len instances.new ≡ vec_len instances.old }
    ensures later { C.faults carry.old ≤ C.faults carry.new }
{
    match read_line(line, directory) {
        Ok(step) => run_step(lines, alloc, routes, directory, instances, carry, &step),
        Err(bad) => put_bad(lines, alloc, bad.place),
    }
}

// Runs one line, and writes the line of this number.
fn put_line<K: Keeper, C: Carry>(
    lines: &mut Vec<u8>,
    alloc: Global,
    routes: &Routes,
    directory: &Directory,
    instances: &mut Vec<Instance<K>>,
    carry: &mut C,
    number: usize,
    line: &[u8],
) -> Result<(), NoMemory>
    requires { roster_names directory.now ≡ names_of (hosts_of instances.old.items) }
    ensures ran { OnOk result ((d : Done) × Does (step_of directory.now line.now) d
        × IsDone (hosts_of instances.old.items) d (states_of instances.old.items)
        (states_of instances.new.items)
        × (hosts_of instances.new.items ≡ hosts_done (hosts_of instances.old.items) d)
        × (lines.new.items ≡ lines.old.items ++ line_of number d)
        × RoseBy (carry_faults (outputs_done d)) (C.faults carry.old) (C.faults carry.new)
        × GrowsBy (C.passed carry.old) (C.passed carry.new)
        (IsPassedFor (hosts_of instances.old.items) (states_of instances.old.items)
        (states_of instances.new.items) d)) }
    ensures cut { OnErr result
        (CutLine (hosts_of instances.old.items) (step_of directory.now line.now)
        (states_of instances.old.items) (states_of instances.new.items)
        (C.passed carry.old) (C.passed carry.new)) }
    ensures places { vec_len instances.new ≡ vec_len instances.old }
    ensures later { C.faults carry.old ≤ C.faults carry.new }
{
    put_front(lines, alloc, number)?;
    run_line(lines, alloc, routes, directory, instances, carry, line)?;
    lines.push(b'\n').unwrap();
    Ok(())
}

// Runs a script, one line after another.
fn run_lines<K: Keeper, C: Carry>(
    alloc: Global,
    routes: &Routes,
    directory: &Directory,
    instances: &mut Vec<Instance<K>>,
    carry: &mut C,
    script: &[u8],
) -> Result<Vec<u8>, NoMemory>
    requires { roster_names directory.now ≡ names_of (hosts_of instances.old.items) }
    ensures places { vec_len instances.new ≡ vec_len instances.old }
    ensures ran { IfOk result (λ lines.
        HasRun (hosts_of instances.old.items) (lines_of directory.now script.now)
        (states_of instances.old.items) (states_of instances.new.items)
        (carried (C.faults carry.old) (C.passed carry.old))
        (carried (C.faults carry.new) (C.passed carry.new)) lines.items) }
    ensures cut { OnErr result
        (IsCut (hosts_of instances.old.items) (lines_of directory.now script.now)
        (states_of instances.old.items) (states_of instances.new.items)
        (C.passed carry.old) (C.passed carry.new)) }
    ensures later { C.faults carry.old ≤ C.faults carry.new }
{
    let mut lines = Vec::new(alloc);
    let mut number = 1usize;
    let mut rest = script;
    while !rest.is_empty() {
        let (line, after) = split_line(rest);
        put_line(
            &mut lines, alloc, routes, directory, instances, carry, number, line,
        )?;
        rest = after;
        number += 1;
    }
    Ok(lines)
}

/// Runs a script over the instances of a description, each over the keeper of its place, and
/// answers a line for each line of it.
pub fn run_net<K: Keeper, C: Carry>(
    alloc: Global,
    net: Description,
    keepers: &mut Vec<K>,
    carry: &mut C,
    script: &[u8],
) -> Result<Vec<u8>, NetFault>
    requires { length net.instances ≤ vec_len keepers.old }

    // THE headline, of the instances as they open. Each reply is the stated function of its line
    // and of what is held, each keeper holds the newest versions, and what an organisation was
    // never granted changes none of its replies: all of one run, whose text this is.
    ensures ran { IfOk result (λ lines. (hosts : List Host)
        × AreOpened (described_hosts net)
        (opened_states (take (length net.instances) (map K.state keepers.old.items)))
        (take (length net.instances) (map K.state keepers.new.items)) hosts
        × IsNetRun hosts (lines_of (directory_of net) script.now)
        (opened_states (take (length net.instances) (map K.state keepers.old.items)))
        (take (length net.instances) (map K.state keepers.new.items))
        (carried (C.faults carry.old) (C.passed carry.old))
        (carried (C.faults carry.new) (C.passed carry.new)) lines.items) }

    // Lines are run only where every row that was held decodes.
    ensures sound { OnOk result (WereSound
        (take (length net.instances) (map K.state keepers.old.items))
        (take (length net.instances) (map K.state keepers.new.items))) }

    // Else a keeper failed or holds a row that is none, or memory ran out: then some first lines
    // were run, and no other did anything. Where the instances do not open, each keeper holds what
    // it held, or that in its newest form.
    ensures stopped { IfErr result (IsStoppedBy
        (described_hosts net) (lines_of (directory_of net) script.now)
        (take (length net.instances) (map K.state keepers.old.items))
        (take (length net.instances) (map K.state keepers.new.items))
        (C.passed carry.old) (C.passed carry.new)) }
    ensures kept { IfErr result (λ fault. IsUnopened fault → AreKeptOrOpened
        (map K.state keepers.old.items) (map K.state keepers.new.items)) }

    // However it ends, the faults of what carries are not fewer, each keeper is back in its place,
    // and those after the instances are as they were.
    ensures later { C.faults carry.old ≤ C.faults carry.new }
    ensures places { vec_len keepers.new ≡ vec_len keepers.old }
    ensures others { drop (length net.instances) (map K.state keepers.new.items)
        ≡ drop (length net.instances) (map K.state keepers.old.items) }
{
    // Groups and items are held as their rows, and a synchronisation leaves what the history says
    // of it.
    groups_are_held_as_their_rows();
    items_are_held_beside_the_groups();
    an_instance_pulls_by_the_history();
    an_instance_pushes_by_the_history();
    let directory = net.directory(alloc)?;
    let routes = Routes::new(alloc)?;
    let mut instances = open_all(alloc, keepers, net.instances.into_vec())?;
    let lines = run_lines(alloc, &routes, &directory, &mut instances, carry, script);
    close_all(instances, keepers);
    Ok(lines?)
}
