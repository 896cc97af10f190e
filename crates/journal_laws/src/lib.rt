//! The causes of the answers of a reading of a journal exclude one another: besides want of memory, each answer comes
//! just where its cause holds.
#![tactic(auto)]

ghost use Rattle.journal_laws.specs.Laws.{IsAnsweredOneWay, IsReadOneWay, NamesNoEvent, NamesNoLine, NamesOneEvent, NamesOneLine};

/// A text of a journal is read one way: bytes are the text of at most one plan and one list of events, and no line of
/// them is refused.
pub fn texts_are_read_one_way()
    ensures one_text { IsReadOneWay }
    ensures no_line { NamesNoLine }
{}

/// At most one line of a text is the first that isn't what the grammar wants there.
pub fn one_line_is_named()
    ensures { NamesOneLine }
{}

/// At most one event of a text is the first that can't be made; in the text of a group run none is.
pub fn one_event_is_named()
    ensures one_event { NamesOneEvent }
    ensures no_event { NamesNoEvent }
{}

/// Bytes are too long, or their first bad line or their first wrong event has one number, or they are the text of a
/// group run: one of these at most.
pub fn one_answer_is_right()
    ensures { IsAnsweredOneWay }
{}
