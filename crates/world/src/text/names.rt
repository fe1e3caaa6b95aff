// Numbers and names as they are printed.
ghost use Rattle.std.specs.Prelude.{◌≡◌, ◌++◌, OnOk};
ghost use Rattle.std.specs.Fmt.{decimal};
ghost use Rattle.server_model.specs.Single.{tier_name};
ghost use Rattle.run_model.specs.Text.{tier_letter, node_name, end_name};

use aeg_base::{Bytes, End, Memory, NodeId, Tier};
use itoa::Buffer;

pub fn add_number(out: &mut Bytes, number: u32) -> Result<(), Memory>
    ensures { OnOk result (out.new ≡ out.old ++ decimal number) }
{
    let mut digits = Buffer::new();
    out.extend(digits.format(number).as_bytes())?;
    Ok(())
}

fn letter_of(tier: Tier) -> &'static str
    ensures { result.now ≡ tier_letter tier }
{
    match tier {
        Tier::Mid => "m",
        Tier::Inv => "i",
        Tier::Pay => "p",
    }
}

fn name_of(tier: Tier) -> &'static str
    ensures { result.now ≡ tier_name tier }
{
    match tier {
        Tier::Mid => "mid",
        Tier::Inv => "inv",
        Tier::Pay => "pay",
    }
}

pub fn add_tier(out: &mut Bytes, tier: Tier) -> Result<(), Memory>
    ensures { OnOk result (out.new ≡ out.old ++ tier_name tier) }
{
    out.extend(name_of(tier).as_bytes())?;
    Ok(())
}

pub fn add_node(out: &mut Bytes, node: NodeId) -> Result<(), Memory>
    ensures { OnOk result (out.new ≡ out.old ++ node_name node) }
{
    out.extend(letter_of(node.tier).as_bytes())?;
    add_number(out, u32::from(node.index))?;
    Ok(())
}

pub fn add_end(out: &mut Bytes, end: End) -> Result<(), Memory>
    ensures { OnOk result (out.new ≡ out.old ++ end_name end) }
{
    match end {
        End::Node(node) => add_node(out, node)?,
        End::Client(client) => {
            out.extend(b"c")?;
            add_number(out, u32::from(client))?;
        }
    }
    Ok(())
}
