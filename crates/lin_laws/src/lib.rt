//! Linear certificates are sound, and so are proofs.
//!
//! There is no function here. `specs/` says what the linear forms of rows are, and `proofs/` that the check of these forms
//! answers what is refused of the rows (`Forms`), that a certificate in which nothing is refused is sound
//! (`CertificatesSound`), and what follows of proofs (`ProofsSound`).
#![tactic(auto)]
