// Worked scripts, with what they print and their events.
ghost use Rattle.std.specs.Prelude.{◌≡◌, map, OnOk};
ghost use Rattle.aeg_disk.specs.MemDisk.{state_of};
ghost use Rattle.net_script.specs.Events.{IsProper};
ghost use Rattle.world.specs.Disks.{AreDisks};
ghost use Rattle.world.specs.Run.{new_run, world_of};

use aeg_base::Bytes;
use aeg_base::limits::{INPUT_BYTES, PACKETS};
use aeg_disk::MemDisk;
use net_script::{Event, Script, parse_script};
use run_model::{Fared, TraceEvent};
use std::alloc::{AllocError, Global};
use std::test::Fail;
use world::{Stop, World, memory_disks};

/// Plays a line until nothing is left of it.
fn play(
    world: &mut World,
    line: &Event,
    disks: &mut [MemDisk],
    lines: &mut Bytes,
) -> Result<(), Stop>
    requires proper { IsProper world.old.u line.now }
    requires disks { AreDisks (world_of world.old) (map state_of disks.old) }
    ensures size { OnOk result (world.new.u ≡ world.old.u) }
    ensures disks { OnOk result (AreDisks (world_of world.new) (map state_of disks.new)) }
{
    'calls: for _ in 0..PACKETS {
        if !world.apply(line, disks, lines)? {
            return Ok(());
        }
    }
    Err(Stop::Limit)
}

/// Plays all lines of a script.
fn play_lines(
    world: &mut World,
    script: &Script,
    disks: &mut [MemDisk],
    lines: &mut Bytes,
) -> Result<(), Stop>
    requires size { world.old.u ≡ script.now.u }
    requires disks { AreDisks (world_of world.old) (map state_of disks.old) }
{
    'lines: for number in 0..u32::MAX {
        let Some((_, line)) = script.event(number) else {
            return Ok(());
        };
        play(world, line, disks, lines)?;
    }
    Ok(())
}

/// Plays a script from the first restarts to the closing lines, and answers what it prints. These calls of m0's disk fail.
fn play_script(
    world: &mut World,
    alloc: Global,
    script: &Script,
    fails: Vec<u32>,
) -> Result<Bytes, Stop>
    requires { world.old ≡ new_run script.now.u script.now.depth }
{
    let mut disks = memory_disks(alloc, fails)?;
    let mut lines = Bytes::new(alloc);
    world.start(&mut disks, &mut lines)?;
    play_lines(world, script, &mut disks, &mut lines)?;
    world.close(&mut lines)?;
    Ok(lines)
}

/// The world that a script's run ends in, and what the run prints. These calls of m0's disk fail.
fn run_with(alloc: Global, text: &str, fails: Vec<u32>) -> Result<(World, Bytes), Fail> {
    if text.len() > INPUT_BYTES {
        return Err("a shorter text".into());
    }
    let script = parse_script(alloc, text.as_bytes())?;
    let mut world = World::new(alloc, script.u(), script.depth())?;
    let lines = play_script(&mut world, alloc, &script, fails)?;
    Ok((world, lines))
}

/// The same where no disk fails.
fn run(alloc: Global, text: &str) -> Result<(World, Bytes), Fail> {
    run_with(alloc, text, Vec::new(alloc))
}

/// The packets that were delivered whole, in the order of the events.
fn deliveries(alloc: Global, trace: &[TraceEvent]) -> Result<Vec<u32>, AllocError> {
    let mut packets = Vec::new(alloc);
    for event in trace {
        if let TraceEvent::Deliver { packet, .. } = event {
            packets.push(*packet)?;
        }
    }
    Ok(packets)
}

/// A frame cut short is dropped; cut at its full length it is the whole frame.
#[test]
fn a_frame_cut_short_is_dropped(rt: HostRuntime) -> Result<(), Fail> {
    let (world, lines) = run(
        rt.alloc(),
        "tiers 1 depth 1\nlead m0\nshort 0 0\nshort 0 12\nshort 0 13\n",
    )?;
    assert_eq!(rt;
        lines.items(),
        b"drop m1 short\ndrop m1 short\nlog mid 0\nlog inv 0\nlog pay 0\npackets 3\n".as_slice()
    );
    // Nine nodes were restarted, and each line is an event.
    assert_eq!(rt; world.trace().len(), 13);
    assert!(rt;
        matches!(
            world.trace().last(),
            Some(TraceEvent::Short {
                packet: 0,
                bytes: 13,
                fared: Fared::Fine
            })
        )
    );
    Ok(())
}

/// A leader offers one position at a time, and then has no tokens for the verdict. Nothing is sent after the last `flow`, so
/// each packet was delivered, once.
#[test]
fn packets_flow_once_and_in_order(rt: HostRuntime) -> Result<(), Fail> {
    let alloc = rt.alloc();
    let (world, lines) = run(
        alloc,
        "tiers 1 depth 1\nlead m0\nflow\nsubmit 1 open 1 5 10 0\nflow\noffer m0\noffer m0\nflow\noffer m0\n",
    )?;
    assert_eq!(rt;
        lines.items(),
        b"idle m0 in-flight 0\nidle m0 no-tokens 0\nlog mid 1\nlog inv 0\nlog pay 0\npackets 18\n".as_slice()
    );
    let packets = deliveries(alloc, world.trace())?;
    assert_eq!(rt;
        packets.as_slice(),
        [0, 1, 2, 3, 4, 5, 6, 7, 8, 9, 10, 11, 12, 13, 14, 15, 16, 17].as_slice()
    );
    Ok(())
}

/// The fifth call of m0's disk is the first write of its first record: it fails, and m0 comes back without the record.
#[test]
fn a_failing_write_leaves_no_record(rt: HostRuntime) -> Result<(), Fail> {
    let alloc = rt.alloc();
    let (world, lines) = run_with(
        alloc,
        "tiers 0 depth 1\nlead m0\nrestart m0\noffer m0\n",
        vec![in alloc; 4]?,
    )?;
    assert_eq!(rt;
        lines.items(),
        b"down m0 disk\nidle m0 not-leader\nlog mid 0\nlog inv 0\nlog pay 0\npackets 0\n".as_slice()
    );
    // The three nodes were restarted, and the fourth event is the one that the disk failed in.
    assert!(rt;
        matches!(
            world.trace().get(3),
            Some(TraceEvent::Lead {
                fared: Fared::Fault,
                ..
            })
        )
    );
    Ok(())
}
