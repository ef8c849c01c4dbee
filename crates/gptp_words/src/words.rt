//! Roles, and whether something is so, in one word.

ghost use Rattle.std.specs.Prelude.{◌≡◌};
ghost use Rattle.gptp_words.specs.Digits.{yes_or_no};

use gptp_roles::Role;
use std::fmt;

/// The role of a port, in one word.
#[derive(Clone, Copy)]
pub struct RoleWord(pub Role);

impl fmt::Display for RoleWord {
    ghost use Rattle.std.specs.Prelude.{Some};
    ghost use Rattle.gptp_words.specs.Roles.{role_text};

    ghost output = { λ role. Some (role_text role.0) };

    fn fmt<W: fmt::Write>(&self, f: &mut fmt::Formatter<W>) -> fmt::Result {
        f.write_str(match self.0 {
            Role::Disabled => "disabled",
            Role::Master => "master",
            Role::Slave => "slave",
            Role::Passive => "passive",
        })
    }
}

/// The word for whether something is so.
pub fn yes_or_no(is_so: bool) -> &'static str
    ensures { result.now ≡ yes_or_no is_so }
{
    if is_so { "yes" } else { "no" }
}
