//! Proofs only: the items of the certificate's check, and that a certificate which passes shows a heaviest mapping. No code.
#![tactic(auto)]
