// The lines of events.
ghost use Rattle.std.specs.Prelude.{◌≡◌, ◌++◌, codes, OnOk};
ghost use Rattle.std.specs.Fmt.{decimal};
ghost use Rattle.run_model.specs.Text.{then_word, line_end, node_name, end_name, cause_text, refusal_text, idle_line, down_line, gone_line, none_line, lost_line, drop_line};

use crate::text::names::{add_end, add_node, add_number, add_tier};
use aeg_base::{Bytes, End, Memory, NodeId};
use frames::Refused;
use itoa::Buffer;
use tier_model::Idle;

fn add_cause(out: &mut Bytes, cause: Idle) -> Result<(), Memory>
    ensures { OnOk result (out.new ≡ out.old ++ cause_text cause) }
{
    match cause {
        Idle::BallotSpent => out.extend(b"ballot-spent")?,
        Idle::NotLeader => out.extend(b"not-leader")?,
        Idle::NoPromises { have } => {
            out.extend(b"no-promises ")?;
            add_number(out, u32::from(have))?;
        }
        Idle::InFlight { pos } => {
            out.extend(b"in-flight ")?;
            add_number(out, u32::from(pos))?;
        }
        Idle::LogFull => out.extend(b"log-full")?,
        Idle::Unapplied { round } => {
            out.extend(b"unapplied ")?;
            add_number(out, u32::from(round))?;
        }
        Idle::NoTokens { have } => {
            out.extend(b"no-tokens ")?;
            add_number(out, u32::from(have))?;
        }
        Idle::Nothing => out.extend(b"nothing")?,
        Idle::NoBatch => out.extend(b"no-batch")?,
        Idle::NoAnswer { tier, no } => {
            out.extend(b"no-answer ")?;
            add_tier(out, tier)?;
            out.extend(b" ")?;
            add_number(out, no)?;
        }
        Idle::Stale { .. } => out.extend(b"stale")?,
        Idle::Behind { pos } => {
            out.extend(b"behind ")?;
            add_number(out, u32::from(pos))?;
        }
    }
    Ok(())
}

/// `idle END CAUSE`
pub fn add_idle(out: &mut Bytes, end: End, cause: Idle) -> Result<(), Memory>
    ensures { OnOk result (out.new ≡ out.old ++ idle_line (end_name end) (cause_text cause)) }
{
    out.extend(b"idle ")?;
    add_end(out, end)?;
    out.extend(b" ")?;
    add_cause(out, cause)?;
    out.extend(b"\n")?;
    Ok(())
}

/// `idle NODE down`
pub fn add_idle_down(out: &mut Bytes, node: NodeId) -> Result<(), Memory>
    ensures { OnOk result (out.new ≡ out.old ++ idle_line (node_name node) (codes "down")) }
{
    out.extend(b"idle ")?;
    add_node(out, node)?;
    out.extend(b" down\n")?;
    Ok(())
}

/// `idle NODE up`
pub fn add_idle_up(out: &mut Bytes, node: NodeId) -> Result<(), Memory>
    ensures { OnOk result (out.new ≡ out.old ++ idle_line (node_name node) (codes "up")) }
{
    out.extend(b"idle ")?;
    add_node(out, node)?;
    out.extend(b" up\n")?;
    Ok(())
}

/// `gone NODE`
pub fn add_gone(out: &mut Bytes, node: NodeId) -> Result<(), Memory>
    ensures { OnOk result (out.new ≡ out.old ++ gone_line (node_name node)) }
{
    out.extend(b"gone ")?;
    add_node(out, node)?;
    out.extend(b"\n")?;
    Ok(())
}

/// `down NODE full`
pub fn add_full(out: &mut Bytes, node: NodeId) -> Result<(), Memory>
    ensures { OnOk result (out.new ≡ out.old ++ down_line (node_name node) (codes "full")) }
{
    out.extend(b"down ")?;
    add_node(out, node)?;
    out.extend(b" full\n")?;
    Ok(())
}

/// `down NODE cut`
pub fn add_cut(out: &mut Bytes, node: NodeId) -> Result<(), Memory>
    ensures { OnOk result (out.new ≡ out.old ++ down_line (node_name node) (codes "cut")) }
{
    out.extend(b"down ")?;
    add_node(out, node)?;
    out.extend(b" cut\n")?;
    Ok(())
}

/// `down NODE disk`
pub fn add_disk(out: &mut Bytes, node: NodeId) -> Result<(), Memory>
    ensures { OnOk result (out.new ≡ out.old ++ down_line (node_name node) (codes "disk")) }
{
    out.extend(b"down ")?;
    add_node(out, node)?;
    out.extend(b" disk\n")?;
    Ok(())
}

/// `down NODE record PLACE`
pub fn add_record(out: &mut Bytes, node: NodeId, place: u64) -> Result<(), Memory>
    ensures { OnOk result (out.new ≡ out.old ++ down_line (node_name node) (then_word (codes "record") (decimal place))) }
{
    let mut digits = Buffer::new();
    out.extend(b"down ")?;
    add_node(out, node)?;
    out.extend(b" record ")?;
    out.extend(digits.format(place).as_bytes())?;
    out.extend(b"\n")?;
    Ok(())
}

/// `none PACKET`
pub fn add_none(out: &mut Bytes, packet: u32) -> Result<(), Memory>
    ensures { OnOk result (out.new ≡ out.old ++ none_line packet) }
{
    out.extend(b"none ")?;
    add_number(out, packet)?;
    out.extend(b"\n")?;
    Ok(())
}

/// `lost PACKET`
pub fn add_lost(out: &mut Bytes, packet: u32) -> Result<(), Memory>
    ensures { OnOk result (out.new ≡ out.old ++ lost_line packet) }
{
    out.extend(b"lost ")?;
    add_number(out, packet)?;
    out.extend(b"\n")?;
    Ok(())
}

fn add_refusal(out: &mut Bytes, refusal: Refused) -> Result<(), Memory>
    ensures { OnOk result (out.new ≡ out.old ++ refusal_text refusal) }
{
    match refusal {
        Refused::Short => out.extend(b"short")?,
        Refused::Row(row) => {
            out.extend(b"row ")?;
            add_number(out, u32::from(row))?;
        }
    }
    Ok(())
}

/// `drop END REFUSAL`
pub fn add_drop(out: &mut Bytes, end: End, refusal: Refused) -> Result<(), Memory>
    ensures { OnOk result (out.new ≡ out.old ++ drop_line (end_name end) refusal) }
{
    out.extend(b"drop ")?;
    add_end(out, end)?;
    out.extend(b" ")?;
    add_refusal(out, refusal)?;
    out.extend(b"\n")?;
    Ok(())
}

/// `busy CLIENT`
pub fn add_busy(out: &mut Bytes, client: u8) -> Result<(), Memory>
    ensures { OnOk result (out.new ≡ out.old ++ then_word (codes "busy") (decimal client ++ line_end)) }
{
    out.extend(b"busy ")?;
    add_number(out, u32::from(client))?;
    out.extend(b"\n")?;
    Ok(())
}
