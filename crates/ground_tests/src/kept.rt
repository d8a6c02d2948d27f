//! Transitions that are kept.

use kept_transitions::{Kept, KeptAction};
use std::test::Fail;

/// The most choices of an action.
const CHOICES: u32 = 256;

/// Puts so many actions, each behind its ids. False: there was no room for one of them.
fn put_actions(kept: &mut Kept, count: u32) -> bool {
    for _ in 0..count {
        let first = kept.id_count();
        for id in 0..CHOICES {
            if !kept.push_id(id) {
                return false;
            }
        }
        if !kept.push_action(KeptAction {
            cost: 5,
            first,
            code: 7,
        }) {
            return false;
        }
    }
    true
}

/// Ids that stand side by side fit into blocks, also behind a cut within one.
#[test]
fn room(rt: HostRuntime) -> Result<(), Fail> {
    let mut kept = Kept::make(rt.alloc(), 1, 40, 40 * CHOICES)?;
    assert!(rt; put_actions(&mut kept, 40));
    kept.cut(20, 20 * CHOICES);
    assert!(rt; put_actions(&mut kept, 20));
    assert!(rt; !put_actions(&mut kept, 1));
    Ok(())
}

/// First ids of one block, and whether an action with it is put.
#[test]
fn blocks(rt: HostRuntime) -> Result<(), Fail> {
    let mut kept = Kept::make(rt.alloc(), 1, 4, 0)?;
    let rows = [
        // The first action is the base.
        (10, true),
        (9, false),
        (10, true),
        // The greatest offset is 4,095.
        (4_105, true),
        (4_106, false),
    ];
    for (first, fits) in rows {
        let action = KeptAction {
            cost: 5,
            first,
            code: 7,
        };
        assert!(rt; kept.push_action(action) == fits);
    }
    assert_eq!(rt; kept.action_count(), 3);
    Ok(())
}
