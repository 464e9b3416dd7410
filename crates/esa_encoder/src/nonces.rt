//! No two lines that are encoded together share a nonce.

ghost use Rattle.std.specs.Prelude.{◌≢◌, ◌≤◌, ℕ, List, length, IsOk};
ghost use Rattle.esa_bytes.specs.Lines.{text_lines};
ghost use Rattle.esa_params.specs.declared.form.Form.{Form};
ghost use Rattle.esa_envelope.specs.declared.keys.Keys.{Keys};
ghost use Rattle.esa_encoder.specs.Encoded.{nonce_of, encoded};

/// The nonces of two lines of a file that is encoded differ. Each envelope of a run has a nonce of its own under its keys.
pub fn nonces_are_distinct()
    ensures { (form : Form) (outer inner : Keys) (base : ℕ) (reports : List ℕ) (one other : ℕ)
        → IsOk (encoded form outer inner base reports)
        → one ≤ length (text_lines reports) → other ≤ length (text_lines reports) → one ≢ other
        → nonce_of base one ≢ nonce_of base other }
{}
