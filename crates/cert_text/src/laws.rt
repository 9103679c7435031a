//! What the words of the contracts amount to. Nothing is computed here: each contract is a law.

ghost use Rattle.std.specs.Prelude.{◌≡◌, ℕ, List};
ghost use Rattle.cert_text.specs.declared.cert.Cert.{Cert};
ghost use Rattle.cert_text.specs.Certs.{IsCertOf, IsCertWithin};
ghost use Rattle.cert_text.specs.CertText.{cert_text};

/// A certificate within the limits of its version reads back: its text has that very certificate. And no text has two.
pub fn written_certificates_read_back()
    ensures certificate { (cert : Cert) → IsCertWithin cert → IsCertOf (cert_text cert) cert }
    ensures only { (text : List ℕ) (one other : Cert) → IsCertOf text one → IsCertOf text other → one ≡ other }
{}
