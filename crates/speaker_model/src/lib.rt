//! The whole server over the frames that come in, and what is promised of it.
#![tactic(auto)]

ghost use Rattle.speaker_model.specs.Agree.{Agreement};
ghost use Rattle.speaker_model.specs.Laws.{Laws};
ghost use Rattle.speaker_model.specs.Promise.{InBytes};

/// Just the sessions that are established are up in the model, after every list of frames.
pub fn agreement()
    ensures { Agreement }
{}

/// What each frame that comes in keeps: no word of an UPDATE is lost, no peer touches another, and what is refused or
/// dropped leaves no trace.
pub fn world_laws()
    ensures { Laws }
{}

/// By the bytes that went out each peer holds just what it should, and each UPDATE told something new.
pub fn byte_promise()
    ensures { InBytes }
{}
