//! The chances of one `probabilistic`.

ghost use Rattle.std.specs.Prelude.{◌≡◌, ◌<◌, [], ◌∷◌, ◌++◌, IfOk, OnOk};
ghost use Rattle.exact_fraction.specs.Numbers.{IsProbability};
ghost use Rattle.ppddl_cursor.specs.Ahead.{size};
ghost use Rattle.ppddl_cursor.specs.Reading.{Gives, ReadsOne};
ghost use Rattle.ppddl_forms.specs.Chances.{within, next_chance};

use crate::words::read_probability;
use exact_fraction::lcm_within;
use ppddl_cursor::{Cursor, Place};
use ppddl_model::{Fraction, MOST_DENOMINATOR, TextCode, TextRefusal};
use std::alloc::Global;
use std::marker::Model;

/// The chances of one `probabilistic` so far, which contracts see as their list.
#[derive(Drop)]
pub struct Chances {
    list: Vec<Fraction>,
    // the least common multiple of their denominators
    den: u64,
    // their sum, in shares of it
    num: u64,
}

impl Model for Chances {
    ghost use Rattle.std.specs.Prelude.{List};
    ghost use Rattle.exact_fraction.specs.declared.fraction.Fraction.{Fraction};
    ghost use Rattle.ppddl_forms.specs.Chances.{IsRunning};

    ghost Value = { List Fraction };

    ghost view = { λ c. c.list.items };

    ghost invariant = { λ c. IsRunning c.list.items c.den c.num };
}

impl Chances {
    /// No chances.
    pub fn new(alloc: Global) -> Self
        ensures { result ≡ [] }
    {
        Chances {
            list: Vec::new(alloc),
            den: 1,
            num: 0,
        }
    }

    /// One more chance, which stands at `place`.
    fn add(&mut self, chance: Fraction, place: Place) -> Result<(), TextRefusal>
        requires { IsProbability chance }
        ensures gives { Gives (λ _. chance) result (within self.old chance place) }
        ensures added { OnOk result (self.new ≡ self.old ++ chance ∷ []) }
    {
        let Some(den) = lcm_within(self.den, chance.den, MOST_DENOMINATOR) else {
            return Err(place.refusal(TextCode::Probability));
        };
        let num = self.num * (den / self.den) + chance.num * (den / chance.den);
        if num > den {
            return Err(place.refusal(TextCode::SumAboveOne));
        }
        self.list.push(chance)?;
        self.den = den;
        self.num = num;
        Ok(())
    }
}

/// Reads a probability behind those of the same `probabilistic`. It is refused where the least common
/// multiple of their denominators is out of range, and else where they sum to more than 1.
#[tactic(auto, using(crate::proofs::Steps::form_steps), unfolding(crate::specs::Chances::next_chance))]
pub fn read_chance(cursor: &mut Cursor<'_>, chances: &mut Chances) -> Result<Fraction, TextRefusal>
    ensures gives { ReadsOne (next_chance chances.old) cursor.old cursor.new result }
    ensures fewer { OnOk result (size cursor.new < size cursor.old) }
    ensures added { IfOk result (λ chance. chances.new ≡ chances.old ++ chance ∷ []) }
{
    let place = cursor.place();
    let chance = read_probability(cursor)?;
    chances.add(chance, place)?;
    Ok(chance)
}
