// What holds of frames, whatever follows them.
ghost use Rattle.frames.specs.Frames.{BeginNoOther, AreWhole};

/// No frame begins another: each strict prefix of one is too short, and one with bytes after it is refused for them.
pub fn no_frame_begins_another()
    ensures distinct { BeginNoOther }
    ensures whole { AreWhole }
{}
