//! The greatest timestamp heard from each member, and the least of these.
ghost use Rattle.std.specs.Prelude.{◌≡◌, ◌<◌, max, slice_index, slice_set, length};
ghost use Rattle.lamport_rules.specs.Lamport.{least_below};

/// The greater of a member's number and the stamp is its number from now on.
pub fn raise(heard: &mut Vec<u64>, from: usize, stamp: u64)
    requires { from < length heard.old.items }
    ensures { heard.new.items ≡ slice_set heard.old.items from (max (slice_index heard.old.items from) stamp) }
{
    if heard[from] < stamp {
        heard[from] = stamp;
    }
}

/// The least of the numbers; the greatest u64 where there are none.
pub fn least(heard: &[u64]) -> u64
    ensures { result ≡ least_below (length heard.now) (λ j. slice_index heard.now j) }
{
    let mut low = u64::MAX;
    for stamp in heard {
        if *stamp < low {
            low = *stamp;
        }
    }
    low
}
