//! States of more words than those of any problem.

use applicable_actions::Masked;
use ground_model::{Boxed, GroundCondition, List};
use ground_step::{atoms_of, hash, holds, state_of_atoms};
use sample_problems::state_of;
use std::alloc::{AllocError, Global};
use std::test::Fail;

/// By the definition of the hash.
#[test]
fn hashes(rt: HostRuntime) -> Result<(), Fail> {
    let rows: [(&[u64], u64); 3] = [
        (&[21], 18_054_082_321_716_400_526),
        (&[36], 4_597_363_873_810_771_169),
        (
            &[1, 0, 0, 0, 0, 0, 0, 0, 0, 0, 0, 0, 0, 0, 0, 0, 64],
            3_716_240_915_058_276_345,
        ),
    ];
    for (words, wanted) in rows {
        assert_eq!(rt; hash(&state_of(rt.alloc(), words)?), wanted);
    }
    Ok(())
}

/// Atoms on both sides of a border of words, and one past the last word.
#[test]
fn atoms(rt: HostRuntime) -> Result<(), Fail> {
    let alloc = rt.alloc();
    let mut state = state_of(alloc, &[0; 17])?;
    state_of_atoms(&[1_030, 961, 1_088, 960], &mut state);
    assert_eq!(rt; hash(&state), 3_146_597_529_396_897_699);
    assert!(rt; state.clone()? == state);
    assert!(rt; atoms_of(alloc, &state)?.as_slice() == [960, 961, 1_030].as_slice());
    Ok(())
}

/// The last atom and not that before word 16, and one of the first atom and the first of word 16. Past
/// the last word no atom is true.
fn condition(alloc: Global) -> Result<GroundCondition, AllocError> {
    let not_other = GroundCondition::Not(Boxed::new(alloc, GroundCondition::Atom(1_023))?);
    let not_past = GroundCondition::Not(Boxed::new(alloc, GroundCondition::Atom(1_088))?);
    let either = [GroundCondition::Atom(0), GroundCondition::Atom(1_024)];
    let any = GroundCondition::Any(List::from_vec(Vec::from_array(alloc, either)?));
    let parts = [GroundCondition::Atom(1_087), not_other, any, not_past];
    Ok(GroundCondition::All(List::from_vec(Vec::from_array(alloc, parts)?)))
}

/// A condition by its tree and by its masks.
#[test]
fn conditions(rt: HostRuntime) -> Result<(), Fail> {
    let alloc = rt.alloc();
    let condition = condition(alloc)?;
    let masked = Masked::new(alloc, &condition)?;
    let rows: [(&[u32], bool); 5] = [
        (&[0, 1_087], true),
        (&[1_024, 1_087], true),
        (&[1_087], false),
        (&[0, 1_023, 1_087], false),
        (&[0, 1_024], false),
    ];
    for (atoms, wanted) in rows {
        let mut state = state_of(alloc, &[0; 17])?;
        state_of_atoms(atoms, &mut state);
        assert_eq!(rt;
            (holds(&condition, &state), masked.holds(&state)),
            (wanted, wanted)
        );
    }
    Ok(())
}
