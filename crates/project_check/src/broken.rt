//! The first rule that a line breaks.

ghost use Rattle.std.specs.Prelude.{◌≡◌};
ghost use Rattle.project_check.specs.Broken.{first_broken_rule};

use knx_model::Why;

/// Of rules in the order of their numbers, each with whether it is broken, the first broken one.
pub fn first_broken_rule(rules: &[(bool, Why)]) -> Option<Why>
    ensures { result ≡ first_broken_rule rules.now }
{
    for (is_broken, why) in rules {
        if *is_broken {
            return Some(*why);
        }
    }
    None
}
