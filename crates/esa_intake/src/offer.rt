//! Lines that are offered to an intake.

ghost use Rattle.std.specs.Prelude.{◌≡◌, Err, IfOk, IfErr, OnOk, OnErr};
ghost use Rattle.esa_batcher.specs.Adding.{envelope_in};
ghost use Rattle.esa_line.specs.declared.refused.LineRefused.{LineRefused};
ghost use Rattle.esa_intake.specs.declared.offer.OfferRefused.TheVariants.{Line, Full};
ghost use Rattle.esa_intake.specs.Keeping.{IsSealedOf};
ghost use Rattle.esa_intake.specs.Standing.{form_of, room_of, IsSender, number_of, put_of, HasWaited};
ghost use Rattle.esa_intake.specs.Offering.{IsSealedLine, IsAccepted, JoinsLine};

use crate::intake::{Intake, Sender};
use crate::sealed::Sealed;
use esa_batcher::envelope_of;
use esa_line::LineRefused;
use esa_params::Form;
use std::sync::Wait;

/// Why a line is refused.
#[derive(Clone, Copy, PartialEq, Eq, Debug)]
pub enum OfferRefused {
    /// It is no submission line of the intake's form, for its first cause.
    Line(LineRefused),
    /// As many envelopes wait as there is room for.
    Full,
}

/// The envelope of a submission line, or the line's first cause.
fn sealed_in(form: Form, line: &[u8], number: u64) -> Result<Sealed, LineRefused>
    ensures sealed { IfOk result (IsSealedLine form line.now) }
    ensures form { IfOk result (IsSealedOf form) }
    ensures refused { IfErr result (λ refused. envelope_in form line.now ≡ Err refused.cause) }
    ensures number { IfErr result (λ refused. refused.line ≡ number) }
{
    let mut bytes = [0; 304];
    let length = form.envelope();
    envelope_of(form, line, number, &mut bytes[..length as usize])?;
    Ok(Sealed { length, bytes })
}

impl Intake {
    /// Puts the envelope of a submission line, whose number is counted from 1.
    pub fn offer<R: Wait>(
        &self,
        rt: &R,
        sender: &mut Sender,
        line: &[u8],
        number: u64,
    ) -> Result<(), OfferRefused>
        requires { IsSender self.now sender.old }
        ensures sender { IsSender self.now sender.new }
        ensures number { number_of sender.new ≡ number_of sender.old }
        ensures put { OnOk result (JoinsLine (form_of self.now) line.now (put_of sender.old) (put_of sender.new)) }
        ensures unchanged { OnErr result (put_of sender.new ≡ put_of sender.old) }

        // The line is refused for its first cause, and no other line is.
        ensures line { (refused : LineRefused) → result ≡ Err (Line refused)
            → (refused.line ≡ number) × (envelope_in (form_of self.now) line.now ≡ Err refused.cause) }

        // There is no room only where at a moment of this call as many waited.
        ensures full { result ≡ Err Full → IsAccepted (form_of self.now) line.now × HasWaited (room_of self.now) sender.old }
    {
        match sealed_in(self.form(), line, number) {
            Ok(sealed) => {
                if self.put(rt, sender, sealed) {
                    Ok(())
                } else {
                    Err(OfferRefused::Full)
                }
            }
            Err(refused) => Err(OfferRefused::Line(refused)),
        }
    }
}
