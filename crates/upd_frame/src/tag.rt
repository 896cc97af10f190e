//! The byte that tells which message a frame carries: 1 to 11, and any other is no tag.
ghost use Rattle.std.specs.Prelude.{◌≡◌};
ghost use Rattle.upd_frame.specs.Reading.{tag_of};

/// What the tag of a frame says of its body.
#[derive(Clone, Copy, Debug, PartialEq, Eq)]
pub(crate) enum Tag {
    Ask,
    Ord,
    Req,
    Ack,
    Rb,
    Est,
    Prop,
    Reply,
    Next,
    Decide,
    Past,
}

/// The tag of this byte.
pub(crate) fn tag_of(byte: u8) -> Option<Tag>
    ensures { result ≡ tag_of byte }
{
    match byte {
        1 => Some(Tag::Ask),
        2 => Some(Tag::Ord),
        3 => Some(Tag::Req),
        4 => Some(Tag::Ack),
        5 => Some(Tag::Rb),
        6 => Some(Tag::Est),
        7 => Some(Tag::Prop),
        8 => Some(Tag::Reply),
        9 => Some(Tag::Next),
        10 => Some(Tag::Decide),
        11 => Some(Tag::Past),
        _ => None,
    }
}
