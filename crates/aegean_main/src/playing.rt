// A script's run: each line is played in the world, and what its events print is written before the next one begins.
ghost use Rattle.std.specs.Prelude.{◌≡◌, ◌≤◌, [], map, IsErrOf, OnOk};
ghost use Rattle.net_script.specs.Events.{IsProper};
ghost use Rattle.aeg_base.specs.declared.limits.TheConstants.{MAX_FAULTS};
ghost use Rattle.world.specs.Disks.{AreBlank, AreDisks};
ghost use Rattle.world.specs.Run.{new_run, world_of, ComesFurther};
ghost use Rattle.aegean_main.specs.Faults.{IsCounted};
ghost use Rattle.aegean_main.specs.Playing.{PlaysNext, PlaysLine, StandsOr, EndsOr, Closes};

use aeg_base::{Bytes, Memory};
use aeg_disk::Device;
use aeg_io::{Failed, Sink, put_all};
use net_script::{Event, Script};
use std::alloc::Global;
use std::mem;
use world::{Stop, World};

/// Why a run goes no further: an event would begin with too many packets, a write failed, or there was no memory.
#[derive(Clone, Copy, Debug, PartialEq, Eq)]
pub enum Halt {
    Limit,
    Write,
    Memory,
}

/// Does what is next for a line and writes what it prints. `room` is room for its lines, kept from call to call.
fn play<D: Device, K: Sink>(
    world: &mut World,
    line: &Event,
    disks: &mut [D],
    room: &mut Vec<u8>,
    out: &mut K,
) -> Result<bool, Halt>
    requires proper { IsProper world.old.u line.now }
    requires disks { AreDisks (world_of world.old) (map D.state disks.old) }
    ensures plays { PlaysNext world.old world.new line.now (map D.state disks.old) (map D.state disks.new) (K.taken out.old) (K.taken out.new) result }
    ensures further { ComesFurther world.old world.new result }
    ensures write { IsCounted (IsErrOf result Halt.Write) (K.faults out.old) (K.faults out.new) }
{
    room.clear();
    let empty = Vec::new(*room.allocator());
    let mut lines = Bytes::of(mem::replace(room, empty));
    let made = world.apply(line, disks, &mut lines);
    *room = lines.into_vec();
    match made {
        Ok(again) => match put_all(out, room) {
            Ok(()) => Ok(again),
            Err(Failed) => Err(Halt::Write),
        },
        Err(Stop::Limit) => Err(Halt::Limit),
        Err(Stop::Memory) => Err(Halt::Memory),
    }
}

/// Plays a line until nothing is left of it.
fn play_line<D: Device, K: Sink>(
    world: &mut World,
    line: &Event,
    disks: &mut [D],
    room: &mut Vec<u8>,
    out: &mut K,
) -> Result<(), Halt>
    requires proper { IsProper world.old.u line.now }
    requires disks { AreDisks (world_of world.old) (map D.state disks.old) }
    ensures plays { PlaysLine world.old world.new line.now (map D.state disks.old) (map D.state disks.new) (K.taken out.old) (K.taken out.new) result }
    ensures write { IsCounted (IsErrOf result Halt.Write) (K.faults out.old) (K.faults out.new) }
{
    'calls: loop {
        match play(world, line, disks, room, out) {
            Ok(true) => {}
            Ok(false) => return Ok(()),
            Err(halt) => return Err(halt),
        }
    }
}

/// Restarts all nodes on their blank disks and writes what that prints.
fn start<D: Device, K: Sink>(
    world: &mut World,
    alloc: Global,
    script: &Script,
    disks: &mut [D],
    out: &mut K,
) -> Result<(), Halt>
    requires few { script.now.u ≤ MAX_FAULTS }
    requires new { world.old ≡ new_run script.now.u script.now.depth }
    requires blank { AreBlank (map D.state disks.old) }
    ensures stands { StandsOr script.now world.new script.now.events (map D.state disks.old) (map D.state disks.new) (K.taken out.old) (K.taken out.new) result }
    ensures write { IsCounted (IsErrOf result Halt.Write) (K.faults out.old) (K.faults out.new) }
{
    let mut lines = Bytes::new(alloc);
    if let Err(Memory) = world.start(disks, &mut lines) {
        return Err(Halt::Memory);
    }
    match put_all(out, lines.items()) {
        Ok(()) => Ok(()),
        Err(Failed) => Err(Halt::Write),
    }
}

/// Plays all lines of a script, once all nodes were restarted.
fn play_lines<D: Device, K: Sink>(
    world: &mut World,
    script: &Script,
    disks: &mut [D],
    room: &mut Vec<u8>,
    out: &mut K,
) -> Result<(), Halt>
    requires few { script.now.u ≤ MAX_FAULTS }
    requires new { world.old ≡ new_run script.now.u script.now.depth }
    requires blank { AreBlank (map D.state disks.old) }
    ensures plays { StandsOr script.now world.new [] (map D.state disks.old) (map D.state disks.new) (K.taken out.old) (K.taken out.new) result }
    ensures write { IsCounted (IsErrOf result Halt.Write) (K.faults out.old) (K.faults out.new) }
{
    if let Err(halt) = start(world, *room.allocator(), script, disks, out) {
        return Err(halt);
    }
    let mut number = 0;
    'lines: while let Some((_, line)) = script.event(number) {
        if let Err(halt) = play_line(world, line, disks, room, out) {
            return Err(halt);
        }
        number += 1;
    }
    Ok(())
}

/// Writes the closing lines.
fn close<K: Sink>(world: &World, room: Vec<u8>, out: &mut K) -> Result<(), Halt>
    ensures closes { Closes world.now (K.taken out.old) (K.taken out.new) result }
    ensures write { IsCounted (IsErrOf result Halt.Write) (K.faults out.old) (K.faults out.new) }
{
    let mut room = room;
    room.clear();
    let mut closing = Bytes::of(room);
    if let Err(Memory) = world.close(&mut closing) {
        return Err(Halt::Memory);
    }
    match put_all(out, closing.items()) {
        Ok(()) => Ok(()),
        Err(Failed) => Err(Halt::Write),
    }
}

/// Plays a script in a new world.
fn play_in<D: Device, K: Sink>(
    world: &mut World,
    alloc: Global,
    script: &Script,
    disks: &mut [D],
    out: &mut K,
) -> Result<(), Halt>
    requires few { script.now.u ≤ MAX_FAULTS }
    requires new { world.old ≡ new_run script.now.u script.now.depth }
    requires blank { AreBlank (map D.state disks.old) }
    ensures plays { EndsOr script.now (map D.state disks.old) (map D.state disks.new) (K.taken out.old) (K.taken out.new) result }
    ensures write { IsCounted (IsErrOf result Halt.Write) (K.faults out.old) (K.faults out.new) }
{
    let mut room = Vec::new(alloc);
    if let Err(halt) = play_lines(world, script, disks, &mut room, out) {
        return Err(halt);
    }
    close(world, room, out)
}

/// Plays a script from its first line to its end on blank disks, and writes what its run prints.
pub fn play_script<D: Device, K: Sink>(
    alloc: Global,
    script: &Script,
    disks: &mut [D],
    out: &mut K,
) -> Result<(), Halt>
    requires blank { AreBlank (map D.state disks.old) }
    ensures plays { EndsOr script.now (map D.state disks.old) (map D.state disks.new) (K.taken out.old) (K.taken out.new) result }
    ensures write { IsCounted (IsErrOf result Halt.Write) (K.faults out.old) (K.faults out.new) }
{
    let Ok(mut world) = World::new(alloc, script.u(), script.depth()) else {
        return Err(Halt::Memory);
    };
    play_in(&mut world, alloc, script, disks, out)
}
