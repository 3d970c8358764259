use crate::comparing::is_same;
use edge_io::*;
use std::test::Fail;

/// How many callbacks are in flight at four turns, one after another.
const COUNTS: [u32; 4] = [3, 1, 4, 2];

/// Which of them have these turns.
fn picks<T: Turns>(turns: &mut T) -> [u32; 4] {
    let mut picks = [0; 4];
    for i in 0..4 {
        let count = COUNTS[i];
        if 0 < count {
            picks[i] = turns.pick(count);
        }
    }
    picks
}

#[test]
fn turns_are_picked_by_their_rule(rt: HostRuntime) -> Result<(), Fail> {
    is_same(&rt, picks(&mut First), [0, 0, 0, 0]);
    is_same(&rt, picks(&mut Last), [2, 0, 3, 1]);
    let mut listed = Listed::new(Vec::from_slice(rt.alloc(), &[5, 7, 2])?);
    is_same(&rt, picks(&mut listed), [2, 0, 2, 0]);
    is_same(
        &rt,
        picks(&mut Seeded::new(42)),
        picks(&mut Seeded::new(42)),
    );
    Ok(())
}
