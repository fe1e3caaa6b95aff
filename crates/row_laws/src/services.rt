// Which services keep to what the laws of rows ask.
ghost use Rattle.aeg_base.specs.declared.names.Tier.{Tier};
ghost use Rattle.server_model.specs.Server.{Meaning};
ghost use Rattle.exec_model.specs.Jobs.{Beginnings};
ghost use Rattle.round_model.specs.Spelled.{spelled};
ghost use Rattle.run_model.specs.BookingRuns.{booking_service};
ghost use Rattle.tier_laws.specs.Services.{IsService};
ghost use Rattle.row_laws.specs.Services.{IsServiceIn, IsBackendIn};

/// A service whose programs come to its table within the limits, and whose tokens have the spelling of outcomes, keeps to
/// what the laws of rows ask. So does the booking service, with its backends.
pub fn services_in_range<B>()
    ensures programs { (meaning : Meaning B) (begins : Beginnings) → IsService meaning begins → IsServiceIn (spelled meaning begins).programs }
    ensures booking { IsServiceIn booking_service.programs }
    ensures backends { (t : Tier) → IsBackendIn (booking_service.backend t) }
{}
