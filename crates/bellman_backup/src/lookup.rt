//! How the id of a state is looked up.

ghost use Rattle.std.specs.Prelude.{◌≡◌, ◌<◌, length, IfSome};
ghost use Rattle.word_table.specs.view.Views.{IsReached};
ghost use Rattle.word_table.specs.Seen.{IsOf};
ghost use Rattle.state_interner.specs.Interned.{IsIdOf};
ghost use Rattle.bellman_backup.specs.Backups.{Keeps};
ghost use Rattle.bellman_backup.specs.declared.lookup.Lookup.TheVariants as The;

use ground_model::State;
use state_interner::{Hints, Interned, find_near, intern_near};
use word_table::{Pass, Words};

/// Whether a state that has no id gets one.
#[derive(Clone, Copy)]
pub(crate) enum Lookup {
    /// It gets none.
    Find,
    /// It gets one, where ids are left.
    Intern,
}

impl Lookup {
    /// The id of a state. None: it has no id, and gets none.
    pub(crate) fn id_of(
        self,
        words: &Words<'_>,
        pass: &mut Pass,
        state: &State,
        hints: &mut Hints,
    ) -> Option<u32>
        requires here { IsOf words.now pass.old }
        requires right { 0 < pass.old.view.rights }
        requires reached { IsReached pass.old.view state.now }
        requires wide { length state.now ≡ words.now.layout.width }
        ensures keeps { Keeps words.now pass.old pass.new }
        ensures loads { pass.new.view.loads ≡ pass.old.view.loads }
        ensures spare { self ≡ The.Find → pass.new.view.spare ≡ pass.old.view.spare }
        ensures id { IfSome result (IsIdOf pass.new.view state.now) }
    {
        match self {
            Lookup::Find => find_near(words, pass, state, hints),
            Lookup::Intern => match intern_near(words, pass, state, hints) {
                Interned::Id(id) => Some(id),
                Interned::Full => None,
            },
        }
    }
}
