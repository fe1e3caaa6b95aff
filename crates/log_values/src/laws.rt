// What holds of spellings, whatever follows them.
ghost use Rattle.log_values.specs.Laws.{BeginNoOther, TellApart};

/// No spelling of a value, a fact or a token begins another of its kind.
pub fn no_spelling_begins_another()
    ensures { BeginNoOther }
{}

/// Different outcomes have different tokens.
pub fn tokens_tell_outcomes_apart()
    ensures { TellApart }
{}
