use crate::NumberRuns;
use upd_base::NoMemory;

#[test]
fn numbers_of_two_rows(rt: HostRuntime) -> Result<(), NoMemory> {
    let alloc = rt.alloc();
    let mut set = NumberRuns::new(alloc);
    assert!(rt; set.insert(0, 7)?);
    assert!(rt; set.insert(0, 8)?);
    assert!(rt; set.insert(1, 9)?);
    assert!(rt; !set.insert(0, 8)?);
    let copy = set.copy(alloc)?;
    assert!(rt; set.insert(0, 3)?);
    assert!(rt;
        set.contains(0, 3) && set.contains(0, 7) && set.contains(0, 8) && set.contains(1, 9)
    );
    assert!(rt; !set.contains(0, 9) && !set.contains(1, 8) && !copy.contains(0, 3));
    Ok(())
}
