//! The replacement of the ordering protocol at one member: a delivered switch ends the version, and what the member
//! sent and has not delivered is broadcast again by the next protocol.
ghost use Rattle.std.specs.Prelude.{◌≡◌, ◌<◌, ◌≤◌, [], ◌∷◌, ◌++◌, length, map, OnOk, OnErr, OnSome, IfOk, IfSome, IfNone};
ghost use Rattle.upd_base.specs.declared.item.Item.TheVariants.{Msg, Switch};
ghost use Rattle.upd_base.specs.declared.limits.TheConstants.{MAX_UNDELIVERED, MAX_VERSION};
ghost use Rattle.replacement.specs.declared.act.Act.TheVariants.{Deliver, Bind, Reissue};
ghost use Rattle.replacement.specs.Repl.{acts_on, asked, counted, issued, left, other_than, state_after};
ghost use Rattle.group_run.specs.Version.{next_kind};

use crate::act::Act;
use std::alloc::Global;
use std::marker::Model;
use upd_base::{Item, Kind, MAX_UNDELIVERED, MAX_VERSION, MemberId, NoMemory, Text};

/// One member's undelivered messages, its version with its kind, and how many items it made. A
/// message is undelivered from its issue until an item of its origin and number is delivered.
#[derive(Drop)]
pub struct Repl {
    me: MemberId,
    version: u16,
    kind: Kind,
    made: u32,
    /// By ascending number.
    undelivered: Vec<Item>,
}

impl Model for Repl {
    ghost use Rattle.std.specs.Prelude.{◌≤◌};
    ghost use Rattle.upd_base.specs.declared.limits.TheConstants.{MAX_VERSION};
    ghost use Rattle.replacement.specs.Repl.{State};

    ghost Value = { State };

    ghost view = { λ r. record { me = r.me; version = r.version; kind = r.kind; made = r.made; undelivered = r.undelivered.items } };

    ghost invariant = { λ r. r.version ≤ MAX_VERSION };
}

impl Repl {
    /// At version 0, with nothing made.
    pub fn new(alloc: Global, me: MemberId, first: Kind) -> Repl
        ensures { result ≡ record { me = me; version = 0; kind = first; made = 0; undelivered = [] } }
    {
        Repl {
            me,
            version: 0,
            kind: first,
            made: 0,
            undelivered: Vec::new(alloc),
        }
    }

    /// The next message, to be broadcast; None exactly where 64 messages are undelivered. After want
    /// of memory nothing has changed.
    pub fn issue(&mut self, text: &Text) -> Result<Option<Item>, NoMemory>
        requires { self.old.made < 1000000 }
        ensures some { IfOk result (λ o. IfSome o (λ item. item ≡ Msg self.old.me self.old.made text.now)) }
        ensures room { IfOk result (λ o. IfSome o (λ _. length self.old.undelivered < MAX_UNDELIVERED)) }
        ensures full { IfOk result (λ o. IfNone o (MAX_UNDELIVERED ≤ length self.old.undelivered)) }
        ensures issued { length self.old.undelivered < MAX_UNDELIVERED → OnOk result (self.new ≡ issued self.old text.now) }
        ensures same { MAX_UNDELIVERED ≤ length self.old.undelivered → OnOk result (self.new ≡ self.old) }
        ensures err { OnErr result (self.new ≡ self.old) }
    {
        if self.undelivered.len() >= MAX_UNDELIVERED {
            return Ok(None);
        }
        let item = Item::Msg {
            origin: self.me,
            number: self.made,
            payload: text.copy()?,
        };
        self.undelivered.push(item.copy()?)?;
        self.made += 1;
        Ok(Some(item))
    }

    /// The next switch, to be broadcast; None exactly where the version is the highest, 1,000. Takes
    /// no memory.
    pub fn ask_change(&mut self, kind: Kind) -> Option<Item>
        requires { self.old.made < 1000000 }
        ensures some { IfSome result (λ item. item ≡ Switch self.old.me self.old.made kind) }
        ensures below { IfSome result (λ _. self.old.version < MAX_VERSION) }
        ensures asked { OnSome result (self.new ≡ asked self.old) }
        ensures none { IfNone result (self.old.version ≡ MAX_VERSION) }
        ensures same { IfNone result (self.new ≡ self.old) }
    {
        if self.version >= MAX_VERSION {
            return None;
        }
        let number = self.made;
        self.made += 1;
        Some(Item::Switch {
            origin: self.me,
            number,
            kind,
        })
    }

    /// The present version, at most 1,000.
    pub fn version(&self) -> u16
        ensures value { result ≡ self.now.version }
        ensures few { result ≤ MAX_VERSION }
    {
        self.version
    }

    /// The kind of the present version.
    pub fn kind(&self) -> Kind
        ensures { result ≡ self.now.kind }
    {
        self.kind
    }

    /// How many items were made.
    pub fn made(&self) -> u32
        ensures { result ≡ self.now.made }
    {
        self.made
    }

    /// How many messages are undelivered.
    pub fn undelivered(&self) -> usize
        ensures { result ≡ length self.now.undelivered }
    {
        self.undelivered.len()
    }

    /// What to do, in order, where the module of a version delivered these items: nothing where the
    /// version is older than the present one. At version 1,000 a switch is as if it were not there.
    /// After want of memory the value is only good to be dropped.
    pub fn delivered(
        &mut self,
        alloc: Global,
        version: u16,
        items: Vec<Item>,
    ) -> Result<Vec<Act>, NoMemory>
        requires { version ≤ self.old.version }
        ensures older { version < self.old.version → IfOk result (λ acts. acts.items ≡ []) }
        ensures same { version < self.old.version → OnOk result (self.new ≡ self.old) }
        ensures present { version ≡ self.old.version → IfOk result (λ acts. acts.items ≡ acts_on self.old.undelivered (counted version items.items)) }
        ensures after { version ≡ self.old.version → OnOk result (self.new ≡ state_after self.old (counted version items.items)) }
        ensures few { self.new.version ≤ MAX_VERSION }
    {
        let mut acts = Vec::new(alloc);
        if version < self.version {
            return Ok(acts);
        }
        let next = deliver(&mut self.undelivered, version, items, &mut acts)?;
        if let Some(kind) = next {
            renew(&kind, self.undelivered.as_slice(), &mut acts)?;
            self.version += 1;
            self.kind = kind;
        }
        Ok(acts)
    }

    /// An equal value. Payload bytes are shared.
    pub fn copy(&self, alloc: Global) -> Result<Repl, NoMemory>
        ensures { IfOk result (λ r. r ≡ self.now) }
    {
        let undelivered = copy_of(alloc, self.undelivered.as_slice())?;
        Ok(Repl {
            me: self.me,
            version: self.version,
            kind: self.kind,
            made: self.made,
            undelivered,
        })
    }
}

/// Keeps the messages of another origin or number than this item.
fn keep_others(messages: &mut Vec<Item>, item: &Item)
    ensures { messages.new.items ≡ other_than item.now messages.old.items }
{
    let mut at = 0;
    while at < messages.len() {
        if item.has_id_of(&messages[at]) {
            messages.remove(at);
        } else {
            at += 1;
        }
    }
}

/// Delivers the items that count. Gives the kind of the switch that ends the version, where one does.
fn deliver(
    undelivered: &mut Vec<Item>,
    version: u16,
    items: Vec<Item>,
    acts: &mut Vec<Act>,
) -> Result<Option<Kind>, NoMemory>
    ensures acts { OnOk result (acts.new.items ≡ acts.old.items ++ map (λ item. Deliver item) (counted version items.items)) }
    ensures left { OnOk result (undelivered.new.items ≡ left undelivered.old.items (counted version items.items)) }
    ensures next { IfOk result (λ next. next ≡ next_kind (counted version items.items)) }
    ensures few { IfOk result (λ next. IfSome next (λ _. version < MAX_VERSION)) }
{
    for item in items {
        match item.switch() {
            None => {
                keep_others(undelivered, &item);
                acts.push(Act::Deliver(item))?;
            }
            Some(kind) => {
                if version < MAX_VERSION {
                    keep_others(undelivered, &item);
                    acts.push(Act::Deliver(item))?;
                    return Ok(Some(kind));
                }
            }
        }
    }
    Ok(None)
}

/// Binds the kind, and issues each message again.
fn renew(kind: &Kind, messages: &[Item], acts: &mut Vec<Act>) -> Result<(), NoMemory>
    ensures { OnOk result (acts.new.items ≡ acts.old.items ++ Bind kind.now ∷ map (λ item. Reissue item) messages.now) }
{
    acts.push(Act::Bind(*kind))?;
    reissue(messages, acts)
}

/// Issues each message again.
fn reissue(messages: &[Item], acts: &mut Vec<Act>) -> Result<(), NoMemory>
    ensures { OnOk result (acts.new.items ≡ acts.old.items ++ map (λ item. Reissue item) messages.now) }
{
    for item in messages {
        acts.push(Act::Reissue(item.copy()?))?;
    }
    Ok(())
}

fn copy_of(alloc: Global, items: &[Item]) -> Result<Vec<Item>, NoMemory>
    ensures { IfOk result (λ copies. copies.items ≡ items.now) }
{
    let mut copies = Vec::new(alloc);
    for item in items {
        copies.push(item.copy()?)?;
    }
    Ok(copies)
}
