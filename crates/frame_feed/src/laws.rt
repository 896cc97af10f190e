//! What holds of all streams.
ghost use Rattle.frame_feed.specs.Stream.{SplitsOneWay};

/// A stream is the spellings of one list of frames and a rest that begins with none.
pub fn streams()
    ensures one_way { SplitsOneWay }
{}
