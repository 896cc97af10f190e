//! What holds of all spellings.
ghost use Rattle.upd_frame.specs.Laws.{FrontsAreShort, FrontsAreRead, NoneBeginsAnother, FaultsStay};

/// Each proper front of a spelling is cut short; no spelling begins another; a frame that is spelled at the front of
/// bytes is read there, whatever follows; and a field that is refused stays refused, whatever follows.
pub fn spellings()
    ensures short { FrontsAreShort }
    ensures apart { NoneBeginsAnother }
    ensures read { FrontsAreRead }
    ensures stay { FaultsStay }
{}
