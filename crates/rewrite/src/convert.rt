ghost use Rattle.std.specs.Prelude.{◌≡◌, ok_or, slice_index};
ghost use Rattle.rewrite.specs.declared.working.Denied.TheVariants.{Misfit};
ghost use Rattle.rewrite.specs.Refused.{cause_of, refusal_of};
ghost use Rattle.rewrite.specs.Steps.{rule_of};

use crate::working::{Denied, Rule, Step, Stopped};
use trace::{Cause, Refusal};

/// The four bytes of a step, in the order of its fields.
impl From<[u8; 4]> for Step {
    ghost from_gives = { λ bytes step. step ≡ record { rule = slice_index bytes 0; place = slice_index bytes 1; location = slice_index bytes 2; value = slice_index bytes 3 } };

    fn from(bytes: [u8; 4]) -> Step {
        let [rule, place, location, value] = bytes;
        Step {
            rule,
            place,
            location,
            value,
        }
    }
}

/// The rule of a number from 1 to 7. A step of any other number does not fit.
impl TryFrom<u8> for Rule {
    type Error = Denied;

    ghost try_from_gives = { λ number r. r ≡ ok_or (rule_of number) Misfit };

    fn try_from(number: u8) -> Result<Rule, Denied> {
        match number {
            1 => Ok(Rule::Swap),
            2 => Ok(Rule::Forward),
            3 => Ok(Rule::LoadAfterLoad),
            4 => Ok(Rule::StoreBeforeStore),
            5 => Ok(Rule::StoreAfterLoad),
            6 => Ok(Rule::LoadAfterStore),
            7 => Ok(Rule::NewLoad),
            _ => Err(Denied::Misfit),
        }
    }
}

/// The cause of the same name.
impl From<Denied> for Cause {
    ghost from_gives = { λ why r. r ≡ cause_of why };

    fn from(why: Denied) -> Cause {
        match why {
            Denied::Misfit => Cause::Misfit,
            Denied::Forbidden => Cause::Forbidden,
            Denied::Overlong => Cause::Overlong,
        }
    }
}

/// That cause, with the step as the place.
impl From<Stopped> for Refusal {
    ghost from_gives = { λ stopped r. r ≡ refusal_of stopped };

    fn from(stopped: Stopped) -> Refusal {
        Refusal {
            cause: stopped.why.into(),
            place: stopped.step,
        }
    }
}
