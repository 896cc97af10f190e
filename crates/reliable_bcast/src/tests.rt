use crate::{Rb, Seen};
use upd_base::NoMemory;

#[test]
fn first_once(rt: HostRuntime) -> Result<(), NoMemory> {
    let alloc = rt.alloc();
    let mut rb: Rb = Rb::new(alloc);
    assert_eq!(rt; rb.receive(0, 5)?, Seen::First { pass_on: true });
    assert_eq!(rt; rb.receive(0, 5)?, Seen::Again);
    rb.start(0, 6)?;
    assert_eq!(rt; rb.receive(0, 6)?, Seen::First { pass_on: false });
    let mut copy = rb.copy(alloc)?;
    assert_eq!(rt; copy.receive(0, 5)?, Seen::Again);
    Ok(())
}
