//! The version of a file, which its fifth byte gives.

ghost use Rattle.std.specs.Prelude.{◌≡◌};
ghost use Rattle.esa_header.specs.Version.{version_byte, form_in};

use esa_params::Form;

/// The version byte of the files of a form.
pub fn version_of(form: Form) -> u8
    ensures { result ≡ version_byte form }
{
    match form {
        Form::One => 1,
        Form::Two => 2,
    }
}

/// The form that the files of a version carry. None where there is no such version.
pub fn form_of(version: u8) -> Option<Form>
    ensures { result ≡ form_in version }
{
    match version {
        1 => Some(Form::One),
        2 => Some(Form::Two),
        _ => None,
    }
}
