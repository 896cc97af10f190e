//! The answers to an application's call, and which comes first where several apply.

/// What a member answers to a call. The first that applies is answered, in the order of crashed, bad
/// member, bad kind, full, version limit, and then accepted or done.
#[derive(Clone, Copy, Debug, PartialEq, Eq)]
pub enum Answer {
    /// The message or change got this number among the member's own.
    Accepted(u32),
    /// The suspicion, trust or crash was taken.
    Done,
    /// 64 accepted messages of the member are absent from its log.
    Full,
    /// The member has crashed.
    Crashed,
    /// The highest version is reached.
    VersionLimit,
    /// The kind names a member that is none of the group.
    BadKind,
    /// The named member is none of the group, or is the member itself.
    BadMember,
}
