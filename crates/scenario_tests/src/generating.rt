//! Generated scenarios of some seeds, and the hash of one of 1,000 calls.
ghost use Rattle.std.specs.Prelude.{◌≤◌};

use scenario_gen::generate;
use std::alloc::Global;
use std::test::*;

const FOUR: &str =
    r#"{"members":5,"first":"consensus","threads":[[{"at":2,"op":"send","text":"m0"}],[{"at":1,"op":"send","text":"m1"}],[{"at":0,"op":"send","text":"m2"}],[{"at":4,"op":"send","text":"m3"}]]}"#;

const ONE: &str =
    r#"{"members":5,"first":"consensus","threads":[[{"at":2,"op":"send","text":"m0"}],[],[],[]]}"#;

const NINE: &str =
    r#"{"members":5,"first":"consensus","threads":[[{"at":3,"op":"send","text":"m0"},{"at":2,"op":"send","text":"m4"},{"at":4,"op":"send","text":"m8"}],[{"at":2,"op":"send","text":"m1"},{"at":1,"op":"send","text":"m5"}],[{"at":4,"op":"send","text":"m2"},{"at":4,"op":"send","text":"m6"}],[{"at":3,"op":"send","text":"m3"},{"at":1,"op":"send","text":"m7"}]]}"#;

/// The last of these calls is a change.
const MANY: &str =
    r#"{"members":5,"first":"consensus","threads":[[{"at":2,"op":"send","text":"m0"},{"at":0,"op":"send","text":"m4"},{"at":1,"op":"send","text":"m8"},{"at":1,"op":"send","text":"m12"},{"at":0,"op":"send","text":"m16"},{"at":3,"op":"send","text":"m20"},{"at":1,"op":"send","text":"m24"},{"at":3,"op":"send","text":"m28"}],[{"at":1,"op":"send","text":"m1"},{"at":3,"op":"send","text":"m5"},{"at":3,"op":"send","text":"m9"},{"at":3,"op":"send","text":"m13"},{"at":2,"op":"send","text":"m17"},{"at":2,"op":"send","text":"m21"},{"at":0,"op":"send","text":"m25"},{"at":2,"op":"send","text":"m29"}],[{"at":0,"op":"send","text":"m2"},{"at":3,"op":"send","text":"m6"},{"at":0,"op":"send","text":"m10"},{"at":0,"op":"send","text":"m14"},{"at":3,"op":"send","text":"m18"},{"at":4,"op":"send","text":"m22"},{"at":4,"op":"send","text":"m26"},{"at":4,"op":"send","text":"m30"}],[{"at":4,"op":"send","text":"m3"},{"at":3,"op":"send","text":"m7"},{"at":1,"op":"send","text":"m11"},{"at":0,"op":"send","text":"m15"},{"at":0,"op":"send","text":"m19"},{"at":1,"op":"send","text":"m23"},{"at":4,"op":"send","text":"m27"},{"at":4,"op":"change","kind":"consensus"}]]}"#;

/// Whether the line of a seed is this text.
fn is_line(alloc: Global, seed: u64, calls: u16, text: &str) -> Result<bool, Fail>
    requires { calls ≤ 1000 }
{
    let line = generate(alloc, seed, calls)?;
    Ok(line.strip_suffix(b"\n") == Some(text.as_bytes()))
}

#[test]
fn lines(rt: HostRuntime) -> Result<(), Fail> {
    let alloc = rt.alloc();
    assert!(rt; is_line(alloc, 7, 4, FOUR)?);
    assert!(rt; is_line(alloc, 0, 1, ONE)?);
    assert!(rt; is_line(alloc, u64::MAX, 9, NINE)?);
    assert!(rt; is_line(alloc, 7, 32, MANY)?);
    Ok(())
}

/// The FNV-1a hash of 64 bits.
fn hash(bytes: &[u8]) -> u64 {
    let mut hash: u64 = 0xcbf2_9ce4_8422_2325;
    for byte in bytes {
        hash = (hash ^ u64::from(*byte)).wrapping_mul(0x0100_0000_01b3);
    }
    hash
}

/// The longest line of a seed, by the length and the hash of a text that another program wrote by the same rules.
#[test]
fn the_longest_line(rt: HostRuntime) -> Result<(), Fail> {
    let line = generate(rt.alloc(), 7, 1000)?;
    assert_eq!(rt;
        (line.len(), hash(line.as_slice())),
        (35164, 0x1a7e_048e_36f1_d609)
    );
    Ok(())
}
