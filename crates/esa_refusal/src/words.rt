//! The words that printed lines have for roles and for the numbers of a job.

ghost use Rattle.std.specs.Prelude.{◌≡◌, ◌≤◌, length};
ghost use Rattle.esa_refusal.specs.Words.{role_word, param_word};

use esa_outside::Role;
use esa_params::ParamField;

/// The word of a role.
pub fn word_of_role(role: Role) -> &'static str
    ensures word { result.now ≡ role_word role }
    ensures short { length result.now ≤ 20 }
{
    match role {
        Role::Job => "job",
        Role::Keys => "keys",
        Role::Drops => "drops",
        Role::Turns => "turns",
        Role::Input => "input",
        Role::Coins => "coins",
        Role::Output => "output",
        Role::Trace => "trace",
        Role::TurnsOut => "turns_out",
        Role::Printer => "printer",
    }
}

/// The word of a number of a job that has a limit.
pub fn word_of_param(param: ParamField) -> &'static str
    ensures word { result.now ≡ param_word param }
    ensures short { length result.now ≤ 20 }
{
    match param {
        ParamField::B => "b",
        ParamField::C => "c",
        ParamField::S => "s",
        ParamField::K => "k",
        ParamField::W => "w",
        ParamField::Q => "q",
        ParamField::Mid => "mid",
        ParamField::Workers => "workers",
        ParamField::Attempts => "attempts",
        ParamField::M => "m",
        ParamField::T => "t",
        ParamField::Records => "records",
        ParamField::Crowds => "crowds",
        ParamField::Form => "form",
        ParamField::Epoch => "epoch",
        ParamField::Shares => "shares",
    }
}
