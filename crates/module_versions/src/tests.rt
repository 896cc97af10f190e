ghost use Rattle.std.specs.Prelude.{◌≡◌, IfOk};

use crate::Bound;
use order_trait::Ordering;
use sequencer_order::SequencerOrder;
use std::test::*;
use upd_base::{Kind, MemberId};

fn member(id: u8) -> Result<MemberId, Fail>
    ensures { IfOk result (λ m. m ≡ id) }
{
    match MemberId::new(id) {
        Some(member) => Ok(member),
        None => Err("a member")?,
    }
}

/// The kind of the module of a version.
fn kind_of(bound: &mut Bound<SequencerOrder>, version: u16) -> Option<Kind> {
    let module = bound.of_version(version)?;
    Some(module.kind())
}

#[test]
fn a_module_for_each_version(rt: HostRuntime) -> Result<(), Fail> {
    let alloc = rt.alloc();
    let (zero, one) = (member(0)?, member(1)?);
    let (first, second) = (Kind::Sequencer(zero), Kind::Sequencer(one));
    let mut bound = Bound::<SequencerOrder>::start(alloc, 2, zero, &first)?;
    bound.bind(alloc, &second)?;
    assert_eq!(rt; kind_of(&mut bound, 0), Some(first));
    assert_eq!(rt; kind_of(&mut bound, 1), Some(second));
    assert!(rt; kind_of(&mut bound, 2).is_none());
    assert_eq!(rt; bound.current().kind(), second);
    *bound.current() = SequencerOrder::fresh(alloc, first, 2, zero)?;
    assert_eq!(rt; bound.current().kind(), first);
    Ok(())
}
