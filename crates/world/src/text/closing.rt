// The closing lines.
ghost use Rattle.std.specs.Prelude.{◌≡◌, ◌++◌, codes, OnOk};
ghost use Rattle.std.specs.Fmt.{decimal};
ghost use Rattle.aeg_base.specs.declared.names.Tier.TheVariants.{Mid, Inv, Pay};
ghost use Rattle.run_model.specs.Text.{then_word, line_end, log_line};

use crate::text::names::{add_number, add_tier};
use aeg_base::{Bytes, Memory, Tier};

/// `log TIER LENGTH`
fn add_log(out: &mut Bytes, tier: Tier, count: u32) -> Result<(), Memory>
    ensures { OnOk result (out.new ≡ out.old ++ log_line tier count) }
{
    out.extend(b"log ")?;
    add_tier(out, tier)?;
    out.extend(b" ")?;
    add_number(out, count)?;
    out.extend(b"\n")?;
    Ok(())
}

/// The lengths of the chosen logs, and how many packets were sent.
pub fn add_closing(
    out: &mut Bytes,
    mid: u32,
    inv: u32,
    pay: u32,
    packets: u32,
) -> Result<(), Memory>
    ensures { OnOk result (out.new ≡ out.old ++ (log_line Mid mid ++ (log_line Inv inv ++ (log_line Pay pay ++ then_word (codes "packets") (decimal packets ++ line_end))))) }
{
    add_log(out, Tier::Mid, mid)?;
    add_log(out, Tier::Inv, inv)?;
    add_log(out, Tier::Pay, pay)?;
    out.extend(b"packets ")?;
    add_number(out, packets)?;
    out.extend(b"\n")?;
    Ok(())
}
