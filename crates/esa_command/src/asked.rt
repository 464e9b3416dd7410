//! What a job asks for, where it may leave that out.

ghost use Rattle.std.specs.Prelude.{◌≡◌};
ghost use Rattle.esa_job.specs.Seen.{request_of};
ghost use Rattle.esa_command.specs.Asked.{form_asked};

use esa_job::Job;
use esa_params::Form;

/// The form that a job asks for.
pub fn form_of(job: &Job) -> Form
    ensures { result ≡ form_asked (request_of job.now) }
{
    match job.form() {
        Some(form) => form,
        None => Form::One,
    }
}
