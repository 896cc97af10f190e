//! The values that stand in a line.
ghost use Rattle.std.specs.Prelude.{ℕ, ◌≡◌, ◌≢◌, ◌≤◌, ◌<◌, ◌^◌, ◌↔◌, ◌++◌, List, not, true, IsTrue, IfSome, IfNone, IfOk, length, get_or, codes, decimal};
ghost use Rattle.std.specs.Option.{IsSomeAnd};
ghost use Rattle.std.specs.List.{list_all, position};
ghost use Rattle.std.specs.Char.{is_ascii_digit};
ghost use Rattle.std.specs.Str.Parse.{digits_value};
ghost use Rattle.upd_base.specs.Kind.{KindFits, kind_text};
ghost use Rattle.upd_base.specs.declared.kind.Kind.{Kind};
ghost use Rattle.upd_base.specs.declared.answer.Answer.{Answer};
ghost use Rattle.upd_base.specs.declared.call.Call.{Call};
ghost use Rattle.upd_base.specs.Plan.{call_fits};
ghost use Rattle.upd_base.specs.declared.limits.TheConstants.{MAX_MEMBERS};
ghost use Rattle.journal_file.specs.Text.{answer_text, call_text};
ghost use Rattle.journal_file.specs.Grammar.{AnswerFits, IsNumber, TextFits};
ghost use Rattle.journal_file.specs.Written.{EndsNumber};

use std::alloc::Global;
use upd_base::{Answer, Call, Kind, MemberId, NoMemory, Text};

/// What follows the word, where the line begins with it.
pub(crate) fn after<'a>(line: &'a [u8], word: &str) -> Option<&'a [u8]>
    ensures some { IfSome result (λ rest. line.now ≡ word.now ++ rest.now) }
    ensures exact { (rest : List ℕ) → line.now ≡ word.now ++ rest → IsSomeAnd result (λ found. found.now ≡ rest) }
{
    line.strip_prefix(word.as_bytes())
}

/// The digits at the front, and what follows them.
fn split_digits(line: &[u8]) -> (&[u8], &[u8])
    ensures whole { line.now ≡ result.0.now ++ result.1.now }
    ensures digits { list_all is_ascii_digit result.0.now ≡ true }
    ensures ends { EndsNumber result.1.now }
{
    let end = first_other(line).unwrap_or(line.len());
    line.split_at(end)
}

/// Where the first byte stands that is no digit.
fn first_other(line: &[u8]) -> Option<usize>
    ensures { result ≡ position (λ byte. not (is_ascii_digit byte)) line.now }
{
    line.iter().position(|byte| !byte.is_ascii_digit())
}

/// Whether digits spell a number: no zero stands before another digit.
fn is_spelt(digits: &[u8]) -> bool
    ensures { IsTrue result ↔ ((0 < length digits.now) × (get_or digits.now 0 0 ≡ 48 → length digits.now ≡ 1)) }
{
    match digits {
        [] => false,
        [first, rest @ ..] => *first != b'0' || rest.is_empty(),
    }
}

/// The value of digits, where it fits 64 bits.
fn value_of(digits: &[u8]) -> Option<u64>
    requires { list_all is_ascii_digit digits.now ≡ true }
    ensures some { IfSome result (λ value. value ≡ digits_value 10 digits.now) }
    ensures none { IfNone result (2 ^ 64 ≤ digits_value 10 digits.now) }
{
    let mut value: u64 = 0;
    for digit in digits {
        value = value
            .checked_mul(10)?
            .checked_add(u64::from(*digit - b'0'))?;
    }
    Some(value)
}

/// The number at the front, below 2^64, and what follows it: a number runs on to the first byte that is no digit.
fn number(line: &[u8]) -> Option<(u64, &[u8])>
    ensures some { IfSome result (λ found. line.now ≡ decimal found.0 ++ found.1.now) }
    ensures exact { (n : ℕ) (rest : List ℕ) → n < 2 ^ 64 → EndsNumber rest → line.now ≡ decimal n ++ rest → IsSomeAnd result (λ found. (found.0 ≡ n) × (found.1.now ≡ rest)) }
{
    let (digits, rest) = split_digits(line);
    if !is_spelt(digits) {
        return None;
    }
    Some((value_of(digits)?, rest))
}

/// The number that the words are, where it is at most so much.
pub(crate) fn at_most(words: &[u8], most: u64) -> Option<u64>
    ensures some { IfSome result (λ n. words.now ≡ decimal n) }
    ensures range { IfSome result (λ n. n ≤ most) }
    ensures exact { (n : ℕ) → n ≤ most → words.now ≡ decimal n → result ≡ Some n }
{
    match number(words)? {
        (n, []) if n <= most => Some(n),
        _ => None,
    }
}

/// The number of 32 bits that the words are.
pub(crate) fn last(words: &[u8]) -> Option<u32>
    ensures some { IfSome result (λ n. words.now ≡ decimal n) }
    ensures exact { (n : ℕ) → IsNumber n → words.now ≡ decimal n → result ≡ Some n }
{
    Some(at_most(words, u64::from(u32::MAX))? as u32)
}

/// The number of 32 bits before the first space, and what follows the space.
pub(crate) fn field(words: &[u8]) -> Option<(u32, &[u8])>
    ensures some { IfSome result (λ found. words.now ≡ decimal found.0 ++ (codes " " ++ found.1.now)) }
    ensures exact { (n : ℕ) (rest : List ℕ) → IsNumber n → words.now ≡ decimal n ++ (codes " " ++ rest) → IsSomeAnd result (λ found. (found.0 ≡ n) × (found.1.now ≡ rest)) }
{
    let (n, rest) = number(words)?;
    if n > u64::from(u32::MAX) {
        return None;
    }
    Some((n as u32, after(rest, " ")?))
}

/// The number that the words are, where it is below the number of members.
pub(crate) fn below(words: &[u8], members: u8) -> Option<u8>
    ensures some { IfSome result (λ n. words.now ≡ decimal n) }
    ensures range { IfSome result (λ n. n < members) }
    ensures exact { (n : ℕ) → n < members → words.now ≡ decimal n → result ≡ Some n }
{
    let n = at_most(words, 255)? as u8;
    if n < members { Some(n) } else { None }
}

/// The member of a group that the words are.
fn member_of(words: &[u8], members: u8) -> Option<MemberId>
    requires { members ≤ MAX_MEMBERS }
    ensures some { IfSome result (λ member. words.now ≡ decimal member) }
    ensures range { IfSome result (λ member. member < members) }
    ensures exact { (n : ℕ) → n < members → words.now ≡ decimal n → result ≡ Some n }
{
    MemberId::new(below(words, members)?)
}

/// The member of a group before the first space, and what follows the space.
pub(crate) fn member_at(words: &[u8], members: u8) -> Option<(MemberId, &[u8])>
    requires { members ≤ MAX_MEMBERS }
    ensures some { IfSome result (λ found. words.now ≡ decimal found.0 ++ (codes " " ++ found.1.now)) }
    ensures range { IfSome result (λ found. found.0 < members) }
    ensures exact { (n : ℕ) (rest : List ℕ) → n < members → words.now ≡ decimal n ++ (codes " " ++ rest) → IsSomeAnd result (λ found. (found.0 ≡ n) × (found.1.now ≡ rest)) }
{
    let (n, rest) = field(words)?;
    if n >= u32::from(members) {
        return None;
    }
    Some((MemberId::new(n as u8)?, rest))
}

/// The kind that the words are, where it fits a group of so many members.
#[tactic(auto, unfolding(upd_base::specs::Kind::kind_text))]
pub(crate) fn kind_of(words: &[u8], members: u8) -> Option<Kind>
    requires { members ≤ MAX_MEMBERS }
    ensures some { IfSome result (λ kind. words.now ≡ kind_text kind) }
    ensures fits { IfSome result (λ kind. KindFits members kind) }
    ensures none { IfNone result ((kind : Kind) → KindFits members kind → words.now ≡ kind_text kind → ⊥) }
{
    if words == "lamport".as_bytes() {
        return Some(Kind::Lamport);
    }
    if words == "consensus".as_bytes() {
        return Some(Kind::Consensus);
    }
    Some(Kind::Sequencer(member_of(after(words, "sequencer ")?, members)?))
}

/// The answer that the words are.
#[tactic(auto, unfolding(crate::specs::Text::answer_text))]
pub(crate) fn answer_of(words: &[u8]) -> Option<Answer>
    ensures some { IfSome result (λ answer. words.now ≡ answer_text answer) }
    ensures fits { IfSome result (λ answer. AnswerFits answer) }
    ensures none { IfNone result ((answer : Answer) → AnswerFits answer → words.now ≡ answer_text answer → ⊥) }
{
    if words == "done".as_bytes() {
        return Some(Answer::Done);
    }
    if words == "full".as_bytes() {
        return Some(Answer::Full);
    }
    if words == "crashed".as_bytes() {
        return Some(Answer::Crashed);
    }
    if words == "version limit".as_bytes() {
        return Some(Answer::VersionLimit);
    }
    if words == "bad kind".as_bytes() {
        return Some(Answer::BadKind);
    }
    if words == "bad member".as_bytes() {
        return Some(Answer::BadMember);
    }
    Some(Answer::Accepted(last(after(words, "accepted ")?)?))
}

/// The kind that stands behind "change ", where it fits a group of so many members.
fn change_of(words: &[u8], members: u8) -> Option<Kind>
    requires { members ≤ MAX_MEMBERS }
    ensures some { IfSome result (λ kind. words.now ≡ codes "change " ++ kind_text kind) }
    ensures fits { IfSome result (λ kind. KindFits members kind) }
    ensures none { IfNone result ((kind : Kind) → KindFits members kind → words.now ≡ codes "change " ++ kind_text kind → ⊥) }
{
    kind_of(after(words, "change ")?, members)
}

/// The member other than this one that stands behind the word.
fn other_of(words: &[u8], word: &str, members: u8, at: MemberId) -> Option<u8>
    ensures some { IfSome result (λ who. words.now ≡ word.now ++ decimal who) }
    ensures range { IfSome result (λ who. who < members) }
    ensures other { IfSome result (λ who. who ≢ at) }
    ensures none { IfNone result ((who : ℕ) → who < members → who ≢ at → words.now ≡ word.now ++ decimal who → ⊥) }
{
    let who = below(after(words, word)?, members)?;
    if who == at.get() { None } else { Some(who) }
}

/// The call that the words are, which isn't that of a message.
#[tactic(auto, unfolding(crate::specs::Text::call_text))]
fn plain_call_of(words: &[u8], members: u8, at: MemberId) -> Option<Call>
    requires range { members ≤ MAX_MEMBERS }
    requires plain { (text : List ℕ) → words.now ≡ codes "send " ++ text → ⊥ }
    ensures some { IfSome result (λ call. words.now ≡ call_text call) }
    ensures fits { IfSome result (λ call. call_fits members at call ≡ true) }
    ensures text { IfSome result (λ call. TextFits call) }
    ensures none { IfNone result ((call : Call) → call_fits members at call ≡ true → words.now ≡ call_text call → ⊥) }
{
    if words == "crash".as_bytes() {
        return Some(Call::Crash);
    }
    if let Some(kind) = change_of(words, members) {
        return Some(Call::Change(kind));
    }
    if let Some(who) = other_of(words, "suspect ", members, at) {
        return Some(Call::Suspect(who));
    }
    Some(Call::Trust(other_of(words, "trust ", members, at)?))
}

/// The call that the words are, where it fits this member of a group of so many.
#[tactic(auto, unfolding(crate::specs::Text::call_text))]
pub(crate) fn call_of(
    alloc: Global,
    words: &[u8],
    members: u8,
    at: MemberId,
) -> Result<Option<Call>, NoMemory>
    requires { members ≤ MAX_MEMBERS }
    ensures some { IfOk result (λ found. IfSome found (λ call. words.now ≡ call_text call)) }
    ensures fits { IfOk result (λ found. IfSome found (λ call. call_fits members at call ≡ true)) }
    ensures text { IfOk result (λ found. IfSome found (λ call. TextFits call)) }
    ensures none { IfOk result (λ found. IfNone found ((call : Call) → call_fits members at call ≡ true → TextFits call → words.now ≡ call_text call → ⊥)) }
{
    match after(words, "send ") {
        Some(text) => match Text::new(alloc, text)? {
            Some(text) => Ok(Some(Call::Send(text))),
            None => Ok(None),
        },
        None => Ok(plain_call_of(words, members, at)),
    }
}
