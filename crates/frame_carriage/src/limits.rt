//! Why each frame whose version and numbers are in range can be encoded: its parts' types keep the other limits.
ghost use Rattle.std.specs.Prelude.{◌≡◌, ◌≤◌, true};
ghost use Rattle.std.specs.List.{AllByRecursion};
ghost use Rattle.upd_base.specs.Body.{is_body};
ghost use Rattle.upd_base.specs.Kind.{kind_fits};
ghost use Rattle.upd_base.specs.declared.limits.TheConstants.{MAX_MEMBERS, MAX_VERSION};
ghost use Rattle.upd_frame.specs.Spelling.{IsBatch, IsBody, IsFrame, IsItem};

use upd_base::{Batch, Body, Frame, Item, Kind};

fn kind_keeps_limits(kind: &Kind)
    ensures { kind_fits MAX_MEMBERS kind.now ≡ true }
{
    if let Kind::Sequencer(member) = kind {
        let _member = member.get();
    }
}

fn item_keeps_limits(item: &Item)
    ensures { IsItem item.now }
{
    match item {
        Item::Msg {
            origin,
            number,
            payload,
        } => {
            let _id = (origin.get(), *number);
            payload.keeps_limits();
        }
        Item::Switch {
            origin,
            number,
            kind,
        } => {
            let _id = (origin.get(), *number);
            kind_keeps_limits(kind);
        }
    }
}

fn items_keep_limits(items: &[Item])
    ensures { AllByRecursion IsItem items.now }
{
    if let [first, rest @ ..] = items {
        item_keeps_limits(first);
        items_keep_limits(rest);
    }
}

fn batch_keeps_limits(batch: &Batch)
    ensures { IsBatch batch.now }
{
    batch.keeps_limits();
    items_keep_limits(batch.items());
}

fn body_keeps_limits(body: &Body)
    requires { is_body body.now ≡ true }
    ensures { IsBody body.now }
{
    match body {
        Body::Ask { item } | Body::Rb { item } => item_keeps_limits(item),
        Body::Ord { place: count, item } | Body::Req { stamp: count, item } => {
            let _count = *count;
            item_keeps_limits(item);
        }
        Body::Ack { stamp } => {
            let _count = *stamp;
        }
        Body::Est {
            instance,
            round,
            stamp,
            batch,
        } => {
            let _counts = (*instance, *round, *stamp);
            batch_keeps_limits(batch);
        }
        Body::Prop {
            instance,
            round,
            batch,
        } => {
            let _counts = (*instance, *round);
            batch_keeps_limits(batch);
        }
        Body::Reply {
            instance,
            round,
            ..
        }
        | Body::Next { instance, round } => {
            let _counts = (*instance, *round);
        }
        Body::Decide { instance, batch } => {
            let _count = *instance;
            batch_keeps_limits(batch);
        }
        Body::Past => {}
    }
}

/// A frame whose version and numbers are within their limits has a spelling: the limits of its texts, batches and members are
/// those of their types.
pub fn keeps_limits(frame: &Frame)
    requires version { frame.now.version ≤ MAX_VERSION }
    requires counts { is_body frame.now.body ≡ true }
    ensures { IsFrame frame.now }
{
    body_keeps_limits(&frame.body);
}
